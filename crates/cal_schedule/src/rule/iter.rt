//! The iterator over the days of a rule.
ghost use Rattle.std.specs.Prelude.{◌≡◌, length, List, max, take};
ghost use Rattle.std.specs.Iterator.{YieldsFirst, YieldsLast, item_count};
ghost use Rattle.cal_schedule.specs.Rule.{occurrences, occurrences_between, occurrences_from};

use crate::rule::rule::Rule;
use cal_date::day_number::{day_number, to_date};
use cal_time::Date;
use std::marker::Model;

/// An iterator over days of a rule, in ascending order, from both ends. Contracts see the list of
/// the days left.
///
/// A step from the back searches like [`Rule::previous_before`]. The first one of
/// [`Rule::first_days`] goes through all its days instead.
#[derive(Debug, Drop)]
pub struct RuleDays {
    rule: Rule,
    front: Option<Date>,
    /// The maximum number of days left.
    left: u32,
}

impl Model for RuleDays {
    ghost use Rattle.std.specs.Prelude.{◌≡◌, ℕ, List, take, IfSome, true};
    ghost use Rattle.cal_schedule.specs.Rule.{is_occurrence, occurrences_left};

    ghost Value = { List ℕ };

    ghost view = { λ walk. take walk.left (occurrences_left walk.rule walk.front) };

    ghost invariant = { λ walk. IfSome walk.front (λ n. is_occurrence walk.rule n ≡ true) };
}

/// Returns an iterator over the days of a rule from a date on.
fn walk_from(rule: Rule, date: Date) -> RuleDays
    ensures { result ≡ occurrences_from rule date }
{
    let front = rule.next_from(rule.first_from(date));
    // The range has fewer days than this.
    RuleDays {
        rule,
        front,
        left: u32::MAX,
    }
}

impl Rule {
    /// Returns the start, or a date if it is later.
    fn first_from(&self, date: Date) -> Date
        ensures { result ≡ max self.now.start date }
    {
        if self.start < date { date } else { self.start }
    }

    /// Returns an iterator over all days of the rule, in ascending order. For the monthly rule from
    /// 31 January 2024 to 31 May 2024 they are 31 January, 31 March and 31 May.
    #[tactic(auto, using(crate::proofs::Rules::all_of_them))]
    pub fn days(&self) -> RuleDays
        ensures { result ≡ occurrences self.now }
    {
        // The range has fewer days than this.
        self.first_days(u32::MAX)
    }

    /// Returns an iterator over the days of the rule from a date on, in ascending order. It doesn't
    /// go through the days before the date. For the last Friday of each month from January 2024 on,
    /// the days from 1 June 2024 on begin with 28 June.
    pub fn days_from(&self, date: Date) -> RuleDays
        ensures { result ≡ occurrences_from self.now date }
    {
        walk_from(self.pattern.rule(self.start, self.until), date)
    }

    /// Returns an iterator over the days of the rule from one date up to, but not including,
    /// another date, in ascending order. For the last Friday of each month from January 2024 on,
    /// the days from 1 June to 30 August 2024 are 28 June and 26 July.
    pub fn days_between(&self, from: Date, to: Date) -> RuleDays
        ensures { result ≡ occurrences_between self.now from to }
    {
        let end = self.end_before(u64::from(day_number(to)));
        if end == 0 {
            return self.first_days(0);
        }
        let last = to_date((end - 1) as u32);
        walk_from(self.pattern.rule(self.start, Some(last)), from)
    }

    /// Returns an iterator over the first `count` days of the rule, or over all of them if there
    /// are fewer (`COUNT` of RFC 5545). For the last Friday of each month from January 2024 on, the
    /// first two are 26 January and 23 February.
    pub fn first_days(&self, count: u32) -> RuleDays
        ensures { result ≡ take count (occurrences self.now) }
    {
        RuleDays {
            rule: self.pattern.rule(self.start, self.until),
            front: self.next_from(self.start),
            left: count,
        }
    }
}

impl Iterator for RuleDays {
    type Item = Date;

    ghost next_gives = { YieldsFirst (λ days. days) };

    ghost remaining = { item_count (λ days. days) };

    /// Returns the next day, or `None` after the last one.
    fn next(&mut self) -> Option<Date> {
        if self.left == 0 {
            return None;
        }
        let item = self.front?;
        self.left -= 1;
        if self.left == 0 {
            // No further day is needed, so don't search for one.
            return Some(item);
        }
        self.front = self.rule.next_after(item);
        Some(item)
    }
}

impl DoubleEndedIterator for RuleDays {
    ghost next_back_gives = { YieldsLast (λ days. days) };

    /// Removes and returns the last day, or returns `None` if no day is left. For the monthly rule
    /// from 31 January 2024 to 31 May 2024 it is 31 May.
    fn next_back(&mut self) -> Option<Date> {
        if self.left == 0 {
            return None;
        }
        let front = self.front?;
        let last = self.rule.last_of(front, self.left);
        if last == front {
            self.front = None;
        } else {
            // The other days are all days of the rule that ends before the last one.
            self.rule.until = last.previous_day();
            self.left = u32::MAX;
        }
        Some(last)
    }
}
