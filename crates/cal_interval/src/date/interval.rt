//! Intervals of dates, as they are written.

use cal_schedule::Period;
use cal_time::Date;

/// An interval of dates, by two of its start, its period and its end.
#[derive(Clone, Copy, Debug, PartialEq, Eq)]
pub enum DateInterval {
    /// From a start up to an end, such as `2024-01-01/2024-02-01`.
    StartAndEnd(Date, Date),
    /// A period from a start on, such as `2024-01-01/P1M`.
    StartAndPeriod(Date, Period),
    /// A period up to an end, such as `P1M/2024-02-01`.
    PeriodAndEnd(Period, Date),
}
