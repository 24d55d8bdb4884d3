//! The public holidays of the federal offices of the United States since 1971, by section 6103 of
//! title 5 of the United States Code. A holiday on a Saturday is observed on the Friday before it,
//! and one on a Sunday on the Monday after it. Days on which an executive order closed the offices,
//! and Inauguration Day, a holiday around Washington only, aren't included. Checked for 1971 to
//! 2050 with python3-holidays 0.71 and QuantLib 1.29, for 1978 to 2050 with python3-workalendar 17.0.0,
//! and for 1971 to 2020 with python3-holidays 0.10.1. QuantLib doesn't have 18 June 2021;
//! `test_calendars.py` names the other differences.
use crate::holiday_day::HolidayDay::{Fixed, Last, Nth};
use crate::holiday_rule::HolidayRule;
use cal_time::Month::{December, February, January, July, June, May, November, October, September};
use cal_time::Weekday::{Monday, Thursday};
use cal_time::limits::MAX_YEAR;

/// Saturday is moved to Friday, and Sunday to Monday.
const OBSERVED: [i8; 7] = [0, 0, 0, 0, 0, -1, 1];

/// Writes rules of a day, its first and its last year.
macro_rules! rules {
    ($($day:expr, $first:expr, $last:expr;)+) => {
        &[$(HolidayRule { day: $day, first_year: $first, last_year: $last, moves: OBSERVED }),+]
    };
}

// Veterans Day was in October from 1971 to 1977.
pub(super) const RULES: &[HolidayRule] = rules! {
    Fixed(January, 1), 1971, MAX_YEAR;
    Nth(January, Monday, 3), 1986, MAX_YEAR;
    Nth(February, Monday, 3), 1971, MAX_YEAR;
    Last(May, Monday), 1971, MAX_YEAR;
    Fixed(June, 19), 2021, MAX_YEAR;
    Fixed(July, 4), 1971, MAX_YEAR;
    Nth(September, Monday, 1), 1971, MAX_YEAR;
    Nth(October, Monday, 2), 1971, MAX_YEAR;
    Nth(October, Monday, 4), 1971, 1977;
    Fixed(November, 11), 1978, MAX_YEAR;
    Nth(November, Thursday, 4), 1971, MAX_YEAR;
    Fixed(December, 25), 1971, MAX_YEAR;
};
