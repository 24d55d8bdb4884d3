//! Recurrence sets: the days of a rule and other days, without some of them.
ghost use Rattle.std.specs.Prelude.{◌≡◌, ◌<◌, IfSome, slice_get, true};
ghost use Rattle.cal_time.specs.Date.{IsDate};
ghost use Rattle.cal_schedule.specs.Rule.{occurrences_after};
ghost use Rattle.cal_recurrence.specs.Sets.{is_in_set, set_days_after, set_days_before, set_days_from, HasEnded};

use crate::nearest::nearest;
use cal_date::day_number::{day_number, to_date};
use cal_schedule::Rule;
use cal_time::Date;
use std::marker::Model;

/// A recurrence set of RFC 5545: the days of a rule and of `RDATE`, without the days of `EXDATE`.
/// The lists can be in any order, and can have a day twice.
#[derive(Debug, Drop)]
pub struct RecurrenceSet<'a> {
    /// The rule (`DTSTART` and `RRULE`).
    pub rule: Rule,
    /// The other days (`RDATE`).
    pub dates: &'a [Date],
    /// The days to leave out (`EXDATE`).
    pub exceptions: &'a [Date],
}

impl<'a> RecurrenceSet<'a> {
    /// Copies the set.
    fn copy(&self) -> RecurrenceSet<'a>
        ensures { result ≡ self.now }
    {
        RecurrenceSet {
            rule: self.rule.pattern.rule(self.rule.start, self.rule.until),
            dates: self.dates,
            exceptions: self.exceptions,
        }
    }

    /// Returns `true` if a date is a day of the set. The set of the last Fridays of the months
    /// without 26 January 2024 has 23 February, and not 26 January.
    #[tactic(auto, unfolding(crate::specs::Sets::is_in_set))]
    pub fn contains(&self, date: Date) -> bool
        ensures value { result ≡ is_in_set self.now date }
        ensures in_range { IsDate date }
    {
        (self.rule.contains(date) || self.dates.contains(&date)) && !self.exceptions.contains(&date)
    }

    /// Returns the first day of the rule after a date, or `None` if there is none. Once the rule has
    /// ended, it doesn't search again: without a day, a search goes through the whole range.
    #[tactic(auto, using(crate::proofs::Sets::no_later_day, crate::proofs::Sets::has_ended))]
    fn rule_after(&self, date: Date, has_ended: &mut bool) -> Option<Date>
        requires { has_ended.old ≡ true → HasEnded self.now.rule date }
        ensures value { result ≡ slice_get (occurrences_after self.now.rule date) 0 }
        ensures ended { has_ended.new ≡ true → HasEnded self.now.rule date }
    {
        if *has_ended {
            return None;
        }
        let day = self.rule.next_after(date);
        *has_ended = day.is_none();
        day
    }

    /// Returns the first day of the set after a date, or `None` if the range has no such day.
    /// `has_ended` says if the rule is known to have no day after the date, and then after the
    /// result.
    fn next_day(&self, date: Date, has_ended: &mut bool) -> Option<Date>
        requires { has_ended.old ≡ true → HasEnded self.now.rule date }
        ensures value { result ≡ slice_get (set_days_after self.now date) 0 }
        ensures found { IfSome result (λ n. (date < n) × (is_in_set self.now n ≡ true)) }
        ensures ended { has_ended.new ≡ true → IfSome result (HasEnded self.now.rule) }
    {
        let mut last = date;
        while let Some(next) = nearest(true, last, self.rule_after(last, has_ended), self.dates) {
            // This states that the day is in range. It costs nothing.
            let _ = day_number(next);
            if !self.exceptions.contains(&next) {
                return Some(next);
            }
            last = next;
        }
        None
    }

    /// Returns the first day of the set after a date, or `None` if the range has no such day. In
    /// the set of the last Fridays of the months without 26 January 2024, 23 February comes after
    /// 1 January 2024.
    pub fn next_after(&self, date: Date) -> Option<Date>
        ensures value { result ≡ slice_get (set_days_after self.now date) 0 }
        ensures found { IfSome result (λ n. (date < n) × (is_in_set self.now n ≡ true)) }
    {
        self.next_day(date, &mut false)
    }

    /// Returns the last day of the set before a date, or `None` if there is no such day. In the set
    /// of the last Fridays of the months without 26 January 2024, 29 December 2023 comes before 23
    /// February 2024.
    pub fn previous_before(&self, date: Date) -> Option<Date>
        ensures value { result ≡ slice_get (set_days_before self.now date) 0 }
        ensures found { IfSome result (λ n. (n < date) × (is_in_set self.now n ≡ true)) }
    {
        let mut first = date;
        while let Some(previous) = nearest(
            false,
            first,
            self.rule.previous_before(first),
            self.dates,
        ) {
            if !self.exceptions.contains(&previous) {
                return Some(previous);
            }
            first = previous;
        }
        None
    }

    /// Returns an iterator over the days of the set from a date on, in ascending order, each once.
    /// It doesn't go through the days before the date. For the last Fridays of the months without 26
    /// January 2024, it begins with 23 February 2024 from 1 January 2024 on.
    pub fn days_from(&self, date: Date) -> RecurrenceSetDays<'a>
        ensures { result ≡ set_days_from self.now date }
    {
        let mut has_ended = false;
        let front = if self.contains(date) {
            Some(date)
        } else {
            self.next_day(date, &mut has_ended)
        };
        let set = self.copy();
        RecurrenceSetDays {
            set,
            front,
            has_ended,
        }
    }

    /// Returns an iterator over the days of the set after a date, in ascending order, each once. For
    /// the last Fridays of the months without 26 January 2024, it begins with 29 March 2024 after 23
    /// February 2024.
    pub fn days_after(&self, date: Date) -> RecurrenceSetDays<'a>
        ensures { result ≡ set_days_after self.now date }
    {
        let mut has_ended = false;
        let front = self.next_day(date, &mut has_ended);
        let set = self.copy();
        RecurrenceSetDays {
            set,
            front,
            has_ended,
        }
    }

    /// Returns an iterator over all days of the set, in ascending order, each once. The set of the
    /// last Fridays of the months from January 2024 on without 26 January begins with 23 February.
    pub fn days(&self) -> RecurrenceSetDays<'a>
        ensures { result ≡ set_days_from self.now 0 }
    {
        // The first day of the range.
        self.days_from(to_date(0))
    }
}

/// An iterator over the days of a recurrence set, in ascending order. Contracts see the list of the
/// days left.
#[derive(Debug, Drop)]
pub struct RecurrenceSetDays<'a> {
    set: RecurrenceSet<'a>,
    front: Option<Date>,
    /// `true` if the rule is known to have no day after the next day of the set.
    has_ended: bool,
}

impl<'a> Model for RecurrenceSetDays<'a> {
    ghost use Rattle.std.specs.Prelude.{◌≡◌, ℕ, IfSome, List, true};
    ghost use Rattle.cal_recurrence.specs.Sets.{set_days_left, HasEnded};

    ghost Value = { List ℕ };

    ghost view = { λ walk. set_days_left walk.set walk.front };

    ghost invariant = { λ walk. walk.has_ended ≡ true
        → IfSome walk.front (HasEnded walk.set.rule) };
}

impl Iterator for RecurrenceSetDays<'_> {
    type Item = Date;

    ghost use Rattle.std.specs.Iterator.{YieldsFirst, item_count};

    ghost next_gives = { YieldsFirst (λ days. days) };

    ghost remaining = { item_count (λ days. days) };

    /// Returns the next day, or `None` after the last one.
    fn next(&mut self) -> Option<Date> {
        let item = self.front?;
        self.front = self.set.next_day(item, &mut self.has_ended);
        Some(item)
    }
}
