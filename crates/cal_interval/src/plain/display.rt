//! The strings of intervals of local date-times.
ghost use Rattle.std.specs.Prelude.{Some};
ghost use Rattle.cal_interval.specs.IntervalText.{date_time_interval_text};

use crate::plain::interval::DateTimeInterval;
use cal_duration::period::Text;
use std::fmt;

/// Formats the two parts with a slash between them, such as `2024-01-01 8:00:00.0/PT90M`. If the period isn't
/// negative, [`parse`](crate::plain::parse) gives the interval back.
impl fmt::Display for DateTimeInterval {
    ghost output = { λ v. Some (date_time_interval_text v) };

    fn fmt<W: fmt::Write>(&self, f: &mut fmt::Formatter<W>) -> fmt::Result {
        match self {
            DateTimeInterval::StartAndEnd(start, end) => write!(f, "{start}/{end}"),
            DateTimeInterval::StartAndPeriod(start, period) => {
                let period = Text::new(*period);
                write!(f, "{start}/{period}")
            }
            DateTimeInterval::PeriodAndEnd(period, end) => {
                let period = Text::new(*period);
                write!(f, "{period}/{end}")
            }
        }
    }
}
