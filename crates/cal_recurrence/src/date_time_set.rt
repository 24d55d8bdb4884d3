//! Recurrence sets of date-times without a zone.
ghost use Rattle.std.specs.Prelude.{◌≡◌, ◌<ℤ◌, IfSome, slice_get, true};
ghost use Rattle.cal_datetime.specs.DateTime.{IsDateTime};
ghost use Rattle.cal_recurrence.specs.DateTimeSet.{is_in_set, set_readings_after, set_readings_from};

use crate::counted_set::CountedSet;
use crate::date_time_rule::DateTimeRule;
use crate::nearest::nearest;
use cal_datetime::PlainDateTime;
use std::marker::Model;

/// A recurrence set of RFC 5545 with times of day: the readings of a rule and of `RDATE`, without
/// the readings of `EXDATE`. The lists can be in any order, and can have a reading twice. `counted`
/// returns the set with its searches.
#[derive(Debug, Drop)]
pub struct DateTimeSet<'a> {
    /// The rule (`DTSTART` and `RRULE`).
    pub rule: DateTimeRule,
    /// The other readings (`RDATE`).
    pub dates: &'a [PlainDateTime],
    /// The readings to leave out (`EXDATE`).
    pub exceptions: &'a [PlainDateTime],
}

impl<'a> DateTimeSet<'a> {
    /// Copies the set, for more than one search.
    pub(crate) fn copy(&self) -> DateTimeSet<'a>
        ensures { result ≡ self.now }
    {
        let mut rule = self.rule.copy();
        if !self.dates.is_empty() {
            rule.settle();
        }
        DateTimeSet {
            rule,
            dates: self.dates,
            exceptions: self.exceptions,
        }
    }

    /// Returns `true` if a reading is in the set.
    #[tactic(auto, unfolding(crate::specs::DateTimeSet::is_in_set))]
    fn contains(&self, reading: PlainDateTime) -> bool
        ensures value { result ≡ is_in_set self.now reading }
        ensures in_range { IsDateTime reading }
    {
        let _ = reading.date();
        (self.rule.contains(reading) || self.dates.contains(&reading))
            && !self.exceptions.contains(&reading)
    }

    /// Returns the first reading of the set after a reading.
    pub(crate) fn next_after(&self, reading: PlainDateTime) -> Option<PlainDateTime>
        ensures value { result ≡ slice_get (set_readings_after self.now reading) 0 }
        ensures found { IfSome result (λ z. (reading <ℤ z) × (is_in_set self.now z ≡ true)) }
    {
        // These calls state that the readings are in range. They cost nothing.
        let _ = reading.date();
        let mut last = reading;
        while let Some(next) = nearest(true, last, self.rule.next_after(last), self.dates) {
            let _ = next.date();
            if !self.exceptions.contains(&next) {
                return Some(next);
            }
            last = next;
        }
        None
    }

    /// Returns the first reading of the set that isn't before a reading.
    pub(crate) fn first_from(&self, reading: PlainDateTime) -> Option<PlainDateTime>
        ensures { result ≡ slice_get (set_readings_from self.now reading) 0 }
    {
        if self.contains(reading) {
            Some(reading)
        } else {
            self.next_after(reading)
        }
    }
}

/// An iterator over the readings of a recurrence set, in ascending order. Contracts see the list of
/// the readings left.
#[derive(Debug, Drop)]
pub struct DateTimeSetReadings<'a> {
    pub(crate) set: CountedSet<'a>,
    pub(crate) front: Option<PlainDateTime>,
}

impl<'a> Model for DateTimeSetReadings<'a> {
    ghost use Rattle.std.specs.Prelude.{ℤ, List};
    ghost use Rattle.cal_recurrence.specs.DateTimeSet.{set_readings_left};

    ghost Value = { List ℤ };

    ghost view = { λ walk. set_readings_left walk.set walk.front };
}

impl Iterator for DateTimeSetReadings<'_> {
    type Item = PlainDateTime;

    ghost use Rattle.std.specs.Iterator.{YieldsFirst, item_count};

    ghost next_gives = { YieldsFirst (λ readings. readings) };

    ghost remaining = { item_count (λ readings. readings) };

    /// Returns the next reading, or `None` after the last one.
    fn next(&mut self) -> Option<PlainDateTime> {
        let item = self.front?;
        self.front = self.set.next_after(item);
        Some(item)
    }
}
