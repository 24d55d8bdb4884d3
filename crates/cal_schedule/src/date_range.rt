//! Ranges of days.
ghost use Rattle.std.specs.Prelude.{◌≡◌, ◌↔◌, ℕ, ◌-◌, ◌<◌, ◌≤◌, IfNone, IsTrue, SomeIff};
ghost use Rattle.cal_time.specs.Date.{IsDate};
ghost use Rattle.cal_time.specs.DateIter.{days_of};
ghost use Rattle.cal_time.specs.Occurrences.{days_from};
ghost use Rattle.cal_schedule.specs.Ranges.{common_days, day_count, meet, range, HasCommonDay, IsIn};

use cal_date::DateIter;
use cal_date::day_number::day_number;
use cal_time::Date;
use std::marker::Model;

/// The days from a date up to another, which isn't in the range. A range may be empty.
#[derive(Clone, Copy, Debug, PartialEq, Eq)]
pub struct DateRange {
    start: Date,
    end: Date,
}

impl Model for DateRange {
    ghost use Rattle.std.specs.Prelude.{◌≤◌};
    ghost use Rattle.cal_schedule.specs.Ranges.{Range};
    ghost use Rattle.cal_schedule.specs.RangeFields.{range_of, fields_of, fields_of-range_of};

    ghost Value = { Range };

    ghost view = { range_of };

    ghost invariant = { λ r. r.start ≤ r.end };

    ghost inverse = { fields_of };

    ghost inverse_ok = { fields_of-range_of };
}

impl DateRange {
    /// Creates the range of the days from `start` up to `end`, without `end`. Returns `None` if
    /// `end` is before `start`. From 1 March to 1 April 2024 it has the 31 days of March.
    pub fn new(start: Date, end: Date) -> Option<Self>
        ensures { SomeIff result (start ≤ end) (range start end) }
    {
        if start <= end {
            Some(DateRange { start, end })
        } else {
            None
        }
    }

    /// Returns the first day, or the date that an empty range is at.
    pub fn start(self) -> Date
        ensures { result ≡ self.start }
    {
        self.start
    }

    /// Returns the date after the last day.
    pub fn end(self) -> Date
        ensures value { result ≡ self.end }
        ensures order { self.start ≤ self.end }
    {
        self.end
    }

    /// Returns the number of days. For March 2024 it is 31.
    pub fn len(self) -> u32
        ensures value { result ≡ day_count self }
        ensures order { self.start ≤ self.end }
    {
        day_number(self.end) - day_number(self.start)
    }

    /// Returns `true` if the range has no days.
    pub fn is_empty(self) -> bool
        ensures { IsTrue result ↔ (day_count self ≡ 0) }
    {
        self.len() == 0
    }

    /// Returns `true` if a date is in the range. March 2024 contains the 31st, and not 1 April.
    pub fn contains(self, date: Date) -> bool
        ensures { IsTrue result ↔ IsIn self date }
    {
        self.start <= date && date < self.end
    }

    /// Returns `true` if a day is in both ranges. March and April have no such day, and an empty
    /// range overlaps no other.
    pub fn overlaps(self, other: Self) -> bool
        ensures { IsTrue result ↔ HasCommonDay self other }
    {
        self.start.max(other.start) < self.end.min(other.end)
    }

    /// Returns the days that are in both ranges, or `None` if there are none. Those of March 2024
    /// and of the ISO week from 26 February are 1, 2 and 3 March.
    pub fn intersection(self, other: Self) -> Option<Self>
        ensures { SomeIff result (HasCommonDay self other) (meet self other) }
    {
        let start = self.start.max(other.start);
        let end = self.end.min(other.end);
        if start < end {
            Some(DateRange { start, end })
        } else {
            None
        }
    }

    /// Returns an iterator over the days, from both ends.
    pub fn days(self) -> DateIter
        ensures { days_of result ≡ days_from self.start (day_count self) }
    {
        match self.end.previous_day() {
            Some(last) => self.start.iter_to(last),
            // The range is empty, at the first date of all.
            None => Date::MAX.iter_to(Date::MIN),
        }
    }

    /// Returns how much of the range is in another one, for a price by the day: the number of days
    /// in both, and the number of days of the range. For March 2024 and the days from 22 March to 1
    /// May it is 10 of 31.
    pub fn share(self, other: Self) -> (u32, u32)
        ensures common { result.0 ≡ common_days self other }
        ensures whole { result.1 ≡ day_count self }
        ensures part { result.0 ≤ result.1 }
    {
        (self.common_days(other), self.len())
    }

    /// Returns the number of days that are in both ranges.
    #[tactic(auto, using(crate::proofs::DateRanges::no_common))]
    fn common_days(self, other: Self) -> u32
        ensures value { result ≡ common_days self other }
        ensures max { result ≤ day_count self }
    {
        match self.intersection(other) {
            Some(days) => days.len(),
            None => 0,
        }
    }
}
