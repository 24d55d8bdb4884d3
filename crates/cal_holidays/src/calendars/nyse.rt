//! The days on which the New York Stock Exchange is closed since 1986, by its rule 7.2 and its
//! notices. A holiday on a Saturday is observed on the Friday before it, except New Year, and one on
//! a Sunday on the Monday after it. Days on which it closed early aren't included. Checked for 1986 to
//! 2050 with python3-holidays 0.71 and, except 9 January 2025, with QuantLib 1.29.
use crate::holiday_day::HolidayDay::{Easter, Fixed, Last, Nth};
use crate::holiday_rule::HolidayRule;
use cal_time::Month::{
    April, December, February, January, July, June, May, November, October, September,
};
use cal_time::Weekday::{Monday, Thursday};
use cal_time::limits::MAX_YEAR;

/// Saturday is moved to Friday, and Sunday to Monday.
const OBSERVED: [i8; 7] = [0, 0, 0, 0, 0, -1, 1];

/// Only Sunday is moved, to Monday.
const SUNDAY_MOVED: [i8; 7] = [0, 0, 0, 0, 0, 0, 1];

/// Writes rules of a day, its first and its last year, and its moves.
macro_rules! rules {
    ($($day:expr, $first:expr, $last:expr, $moves:expr;)+) => {
        &[$(HolidayRule { day: $day, first_year: $first, last_year: $last, moves: $moves }),+]
    };
}

// The days of one year are those of a state funeral (1994, 2004, 2007, 2018, 2025), the attacks of
// 2001 and the hurricane of 2012.
pub(super) const RULES: &[HolidayRule] = rules! {
    Fixed(January, 1), 1986, MAX_YEAR, SUNDAY_MOVED;
    Nth(January, Monday, 3), 1998, MAX_YEAR, OBSERVED;
    Nth(February, Monday, 3), 1986, MAX_YEAR, OBSERVED;
    Easter(-2), 1986, MAX_YEAR, OBSERVED;
    Last(May, Monday), 1986, MAX_YEAR, OBSERVED;
    Fixed(June, 19), 2022, MAX_YEAR, OBSERVED;
    Fixed(July, 4), 1986, MAX_YEAR, OBSERVED;
    Nth(September, Monday, 1), 1986, MAX_YEAR, OBSERVED;
    Nth(November, Thursday, 4), 1986, MAX_YEAR, OBSERVED;
    Fixed(December, 25), 1986, MAX_YEAR, OBSERVED;
    Fixed(April, 27), 1994, 1994, OBSERVED;
    Fixed(September, 11), 2001, 2001, OBSERVED;
    Fixed(September, 12), 2001, 2001, OBSERVED;
    Fixed(September, 13), 2001, 2001, OBSERVED;
    Fixed(September, 14), 2001, 2001, OBSERVED;
    Fixed(June, 11), 2004, 2004, OBSERVED;
    Fixed(January, 2), 2007, 2007, OBSERVED;
    Fixed(October, 29), 2012, 2012, OBSERVED;
    Fixed(October, 30), 2012, 2012, OBSERVED;
    Fixed(December, 5), 2018, 2018, OBSERVED;
    Fixed(January, 9), 2025, 2025, OBSERVED;
};
