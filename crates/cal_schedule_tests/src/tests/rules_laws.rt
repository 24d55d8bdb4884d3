//! Properties that callers of a rule need, each proved from the clauses of its calls.
ghost use Rattle.std.specs.Prelude.{◌≡◌, ◌<◌, reverse, slice_get, IfSome, true};
ghost use Rattle.cal_schedule.specs.Rule.{occurrences_from};

use cal_schedule::{Rule, RuleDays};
use cal_time::Date;

/// Two calls give one answer.
fn next_after(rule: &Rule, date: Date) -> (Option<Date>, Option<Date>)
    ensures { result.0 ≡ result.1 }
{
    (rule.next_after(date), rule.next_after(date))
}

fn previous_before(rule: &Rule, date: Date) -> (Option<Date>, Option<Date>)
    ensures { result.0 ≡ result.1 }
{
    (rule.previous_before(date), rule.previous_before(date))
}

fn days_from(rule: &Rule, date: Date) -> (RuleDays, RuleDays)
    ensures { result.0 ≡ result.1 }
{
    (rule.days_from(date), rule.days_from(date))
}

fn days_between(rule: &Rule, from: Date, to: Date) -> (RuleDays, RuleDays)
    ensures { result.0 ≡ result.1 }
{
    (rule.days_between(from, to), rule.days_between(from, to))
}

/// A step from the back gives the last day of the list.
#[tactic(auto, using(cal_schedule::proofs::OneAnswer::last_is))]
fn last_day(rule: &Rule, date: Date) -> Option<Date>
    ensures { result ≡ slice_get (reverse (occurrences_from rule.now date)) 0 }
{
    rule.days_from(date).next_back()
}

/// Days of a rule come one after the other.
fn next_two(rule: &Rule, date: Date) -> Option<(Date, Date)>
    ensures { IfSome result (λ pair. (date < pair.0) × (pair.0 < pair.1)) }
{
    let first = rule.next_after(date)?;
    let second = rule.next_after(first)?;
    Some((first, second))
}

/// The previous day is before the date, and one of the rule's.
fn previous_is_on(rule: &Rule, date: Date) -> bool
    ensures { result ≡ true }
{
    match rule.previous_before(date) {
        Some(previous) => previous < date && rule.contains(previous),
        None => true,
    }
}

/// The next day is one of the rule's.
fn next_is_on(rule: &Rule, date: Date) -> bool
    ensures { result ≡ true }
{
    match rule.next_after(date) {
        Some(next) => rule.contains(next),
        None => true,
    }
}

/// A loop over the days of a rule ends.
fn count_of_days(rule: &Rule) -> u32 {
    let mut count = 0u32;
    for _ in rule.days() {
        count = count.saturating_add(1);
    }
    count
}
