//! Intervals of local date-times, as they are written.

use cal_datetime::PlainDateTime;
use cal_schedule::Period;

/// An interval of local date-times, by two of its start, its period and its end.
#[derive(Clone, Copy, Debug, PartialEq, Eq)]
pub enum DateTimeInterval {
    /// From a start up to an end, such as `2024-01-01T08:00/2024-01-01T09:30`.
    StartAndEnd(PlainDateTime, PlainDateTime),
    /// A period from a start on, such as `2024-01-01T08:00/PT90M`.
    StartAndPeriod(PlainDateTime, Period),
    /// A period up to an end, such as `PT90M/2024-01-01T09:30`.
    PeriodAndEnd(Period, PlainDateTime),
}
