//! The strings of intervals of dates.
ghost use Rattle.std.specs.Prelude.{Some};
ghost use Rattle.cal_interval.specs.IntervalText.{date_interval_text};

use crate::date::interval::DateInterval;
use cal_duration::period::Text;
use std::fmt;

/// Formats the two parts with a slash between them, such as `2024-01-01/P1M`. If the period isn't
/// negative, [`parse`](crate::date::parse) gives the interval back.
impl fmt::Display for DateInterval {
    ghost output = { λ v. Some (date_interval_text v) };

    fn fmt<W: fmt::Write>(&self, f: &mut fmt::Formatter<W>) -> fmt::Result {
        match self {
            DateInterval::StartAndEnd(start, end) => write!(f, "{start}/{end}"),
            DateInterval::StartAndPeriod(start, period) => {
                let period = Text::new(*period);
                write!(f, "{start}/{period}")
            }
            DateInterval::PeriodAndEnd(period, end) => {
                let period = Text::new(*period);
                write!(f, "{period}/{end}")
            }
        }
    }
}
