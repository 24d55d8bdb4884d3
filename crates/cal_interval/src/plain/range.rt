//! Ranges of local date-times.
ghost use Rattle.std.specs.Prelude.{◌≡◌, ◌↔◌, ◌≤ℤ◌, ◌<ℤ◌, IsTrue, SomeIff};
ghost use Rattle.cal_interval.specs.DateTimeRanges.{IsIn, range};

use cal_datetime::PlainDateTime;
use std::marker::Model;

/// The local date-times from a start up to an end, which isn't in the range. A range may be empty.
#[derive(Clone, Copy, Debug, PartialEq, Eq)]
pub struct DateTimeRange {
    start: PlainDateTime,
    end: PlainDateTime,
}

impl Model for DateTimeRange {
    ghost use Rattle.std.specs.Prelude.{◌≤ℤ◌};
    ghost use Rattle.cal_interval.specs.DateTimeRanges.{Range};
    ghost use Rattle.cal_interval.specs.RangeFields.{range_of, fields_of, fields_of-range_of};

    ghost Value = { Range };

    ghost view = { range_of };

    ghost invariant = { λ r. r.start ≤ℤ r.end };

    ghost inverse = { fields_of };

    ghost inverse_ok = { fields_of-range_of };
}

impl DateTimeRange {
    /// Creates the range from `start` up to `end`, without `end`. Returns `None` if `end` is before
    /// `start`.
    pub fn new(start: PlainDateTime, end: PlainDateTime) -> Option<Self>
        ensures { SomeIff result (start ≤ℤ end) (range start end) }
    {
        if start <= end {
            Some(DateTimeRange { start, end })
        } else {
            None
        }
    }

    /// Returns the first date-time, or the date-time that an empty range is at.
    pub fn start(self) -> PlainDateTime
        ensures { result ≡ self.start }
    {
        self.start
    }

    /// Returns the end, which isn't in the range.
    pub fn end(self) -> PlainDateTime
        ensures value { result ≡ self.end }
        ensures order { self.start ≤ℤ self.end }
    {
        self.end
    }

    /// Returns `true` if a date-time is in the range. From 8:00 up to 9:30 the range contains 9:29
    /// and not 9:30.
    pub fn contains(self, date_time: PlainDateTime) -> bool
        ensures { IsTrue result ↔ IsIn self date_time }
    {
        self.start <= date_time && date_time < self.end
    }
}
