//! Searches in a rule with its lists of dates. A rule without dates in them doesn't fill an array.
ghost use Rattle.std.specs.Prelude.{◌≡◌, [], IsTrue, slice_get};
ghost use Rattle.cal_recurrence.specs.Sets.{is_in_set, set_days_after, set_days_before, set_days_from};
ghost use Rattle.cal_c.specs.Recurrences.{rule_in, set_in, AreDatesWritten, IsSet};
ghost use Rattle.cal_c.specs.Values.{dates_in};

use super::rule_dates::RuleDates;
use super::rule_parts::RuleParts;
use super::write_days;
use cal_recurrence::RecurrenceSet;
use cal_schedule::Rule;
use cal_time::Date;

/// Returns `true` if both lists are empty.
fn has_no_dates(parts: &RuleParts<'_>) -> bool
    ensures dates { IsTrue result → dates_in parts.now.dates.now ≡ [] }
    ensures exceptions { IsTrue result → dates_in parts.now.exceptions.now ≡ [] }
{
    parts.dates.is_empty() && parts.exceptions.is_empty()
}

/// Returns the first day of a rule and its lists.
pub(super) fn first(parts: &RuleParts<'_>, rule: Rule) -> Option<Date>
    requires set { IsSet parts.now }
    requires rule { rule ≡ rule_in parts.now }
    ensures { result ≡ slice_get (set_days_from (set_in parts.now) 0) 0 }
{
    if has_no_dates(parts) {
        return rule.days().next();
    }
    first_listed(parts, rule)
}

#[cold]
#[inline(never)]
fn first_listed(parts: &RuleParts<'_>, rule: Rule) -> Option<Date>
    requires set { IsSet parts.now }
    requires rule { rule ≡ rule_in parts.now }
    ensures { result ≡ slice_get (set_days_from (set_in parts.now) 0) 0 }
{
    let lists = RuleDates::from_parts(parts);
    lists.set(rule).days().next()
}

/// Returns the first day of a rule and its lists after a date.
pub(super) fn next_after(parts: &RuleParts<'_>, rule: Rule, date: Date) -> Option<Date>
    requires set { IsSet parts.now }
    requires rule { rule ≡ rule_in parts.now }
    ensures { result ≡ slice_get (set_days_after (set_in parts.now) date) 0 }
{
    if has_no_dates(parts) {
        return rule.next_after(date);
    }
    next_listed(parts, rule, date)
}

#[cold]
#[inline(never)]
fn next_listed(parts: &RuleParts<'_>, rule: Rule, date: Date) -> Option<Date>
    requires set { IsSet parts.now }
    requires rule { rule ≡ rule_in parts.now }
    ensures { result ≡ slice_get (set_days_after (set_in parts.now) date) 0 }
{
    let lists = RuleDates::from_parts(parts);
    lists.set(rule).next_after(date)
}

/// Returns the last day of a rule and its lists before a date.
pub(super) fn previous_before(parts: &RuleParts<'_>, rule: Rule, date: Date) -> Option<Date>
    requires set { IsSet parts.now }
    requires rule { rule ≡ rule_in parts.now }
    ensures { result ≡ slice_get (set_days_before (set_in parts.now) date) 0 }
{
    if has_no_dates(parts) {
        return rule.previous_before(date);
    }
    previous_listed(parts, rule, date)
}

#[cold]
#[inline(never)]
fn previous_listed(parts: &RuleParts<'_>, rule: Rule, date: Date) -> Option<Date>
    requires set { IsSet parts.now }
    requires rule { rule ≡ rule_in parts.now }
    ensures { result ≡ slice_get (set_days_before (set_in parts.now) date) 0 }
{
    let lists = RuleDates::from_parts(parts);
    lists.set(rule).previous_before(date)
}

/// Returns `true` if a date is a day of a rule and its lists.
pub(super) fn contains(parts: &RuleParts<'_>, rule: Rule, date: Date) -> bool
    requires set { IsSet parts.now }
    requires rule { rule ≡ rule_in parts.now }
    ensures { result ≡ is_in_set (set_in parts.now) date }
{
    if has_no_dates(parts) {
        return rule.contains(date);
    }
    contains_listed(parts, rule, date)
}

#[cold]
#[inline(never)]
fn contains_listed(parts: &RuleParts<'_>, rule: Rule, date: Date) -> bool
    requires set { IsSet parts.now }
    requires rule { rule ≡ rule_in parts.now }
    ensures { result ≡ is_in_set (set_in parts.now) date }
{
    let lists = RuleDates::from_parts(parts);
    lists.set(rule).contains(date)
}

/// Writes the days of a rule and its lists after a date, as many as fit in the array, and returns
/// their number.
pub(super) fn write_days_after(
    parts: &RuleParts<'_>,
    rule: Rule,
    date: Date,
    days: &mut [i32],
) -> usize
    requires set { IsSet parts.now }
    requires rule { rule ≡ rule_in parts.now }
    ensures { AreDatesWritten (set_days_after (set_in parts.now) date) days.old days.new result }
{
    if has_no_dates(parts) {
        let set = RecurrenceSet {
            rule,
            dates: &[],
            exceptions: &[],
        };
        return write_days(&set, date, days);
    }
    write_listed(parts, rule, date, days)
}

#[cold]
#[inline(never)]
fn write_listed(parts: &RuleParts<'_>, rule: Rule, date: Date, days: &mut [i32]) -> usize
    requires set { IsSet parts.now }
    requires rule { rule ≡ rule_in parts.now }
    ensures { AreDatesWritten (set_days_after (set_in parts.now) date) days.old days.new result }
{
    let lists = RuleDates::from_parts(parts);
    write_days(&lists.set(rule), date, days)
}
