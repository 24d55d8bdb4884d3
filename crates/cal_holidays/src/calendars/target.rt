//! The closing days of TARGET, the payment system of the euro, since 1999: the calendar that the
//! European Central Bank published for 2000 and 2001 and as a long-term calendar from 2002 on. The
//! system was also closed on the last day of 1999 and of 2001. Checked for 1999 to 2050 with QuantLib
//! 1.29, and for 2000 to 2050, except the last day of 2001, with python3-holidays 0.10.1 and 0.71,
//! and python3-workalendar 17.0.0.
use crate::holiday_day::HolidayDay::{Easter, Fixed};
use crate::holiday_rule::HolidayRule;
use cal_time::Month::{December, January, May};
use cal_time::limits::MAX_YEAR;

/// No weekday is moved.
const UNMOVED: [i8; 7] = [0, 0, 0, 0, 0, 0, 0];

/// Writes rules of a day, its first and its last year.
macro_rules! rules {
    ($($day:expr, $first:expr, $last:expr;)+) => {
        &[$(HolidayRule { day: $day, first_year: $first, last_year: $last, moves: UNMOVED }),+]
    };
}

pub(super) const RULES: &[HolidayRule] = rules! {
    Fixed(January, 1), 1999, MAX_YEAR;
    Easter(-2), 2000, MAX_YEAR;
    Easter(1), 2000, MAX_YEAR;
    Fixed(May, 1), 2000, MAX_YEAR;
    Fixed(December, 25), 1999, MAX_YEAR;
    Fixed(December, 26), 2000, MAX_YEAR;
    Fixed(December, 31), 1999, 1999;
    Fixed(December, 31), 2001, 2001;
};
