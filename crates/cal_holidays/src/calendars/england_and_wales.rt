//! The bank holidays of England and Wales since 1978, by the Banking and Financial Dealings Act 1971
//! and royal proclamations. Christmas Day and Boxing Day on a weekend are moved by two days, New
//! Year to the next Monday. Checked for 1978 to 2050 with python3-holidays 0.71, QuantLib 1.29 and
//! python3-workalendar 17.0.0, and for 1978 to 2021 with python3-holidays 0.10.1. QuantLib doesn't
//! have 29 July 1981; `test_calendars.py` names the other differences.
use crate::holiday_day::HolidayDay::{Easter, Fixed, Last, Nth};
use crate::holiday_rule::HolidayRule;
use cal_time::Month::{April, August, December, January, July, June, May, September};
use cal_time::Weekday::Monday;
use cal_time::limits::MAX_YEAR;

/// No weekday is moved.
const UNMOVED: [i8; 7] = [0, 0, 0, 0, 0, 0, 0];

/// Saturday and Sunday are moved to Monday.
const TO_MONDAY: [i8; 7] = [0, 0, 0, 0, 0, 2, 1];

/// Saturday is moved to Monday, and Sunday to Tuesday.
const BY_TWO_DAYS: [i8; 7] = [0, 0, 0, 0, 0, 2, 2];

/// Writes rules of a day, its first and its last year, and its moves.
macro_rules! rules {
    ($($day:expr, $first:expr, $last:expr, $moves:expr;)+) => {
        &[$(HolidayRule { day: $day, first_year: $first, last_year: $last, moves: $moves }),+]
    };
}

// In 1995 and 2020 the holiday of early May was 8 May, and in 2002, 2012 and 2022 the holiday of
// spring was in June. The other days of one year are royal weddings, jubilees, the state funeral of
// 2022, the coronation of 2023 and the end of 1999.
pub(super) const RULES: &[HolidayRule] = rules! {
    Fixed(January, 1), 1978, MAX_YEAR, TO_MONDAY;
    Easter(-2), 1978, MAX_YEAR, UNMOVED;
    Easter(1), 1978, MAX_YEAR, UNMOVED;
    Nth(May, Monday, 1), 1978, 1994, UNMOVED;
    Fixed(May, 8), 1995, 1995, UNMOVED;
    Nth(May, Monday, 1), 1996, 2019, UNMOVED;
    Fixed(May, 8), 2020, 2020, UNMOVED;
    Nth(May, Monday, 1), 2021, MAX_YEAR, UNMOVED;
    Last(May, Monday), 1978, 2001, UNMOVED;
    Fixed(June, 4), 2002, 2002, UNMOVED;
    Last(May, Monday), 2003, 2011, UNMOVED;
    Fixed(June, 4), 2012, 2012, UNMOVED;
    Last(May, Monday), 2013, 2021, UNMOVED;
    Fixed(June, 2), 2022, 2022, UNMOVED;
    Last(May, Monday), 2023, MAX_YEAR, UNMOVED;
    Last(August, Monday), 1978, MAX_YEAR, UNMOVED;
    Fixed(December, 25), 1978, MAX_YEAR, BY_TWO_DAYS;
    Fixed(December, 26), 1978, MAX_YEAR, BY_TWO_DAYS;
    Fixed(July, 29), 1981, 1981, UNMOVED;
    Fixed(December, 31), 1999, 1999, UNMOVED;
    Fixed(June, 3), 2002, 2002, UNMOVED;
    Fixed(April, 29), 2011, 2011, UNMOVED;
    Fixed(June, 5), 2012, 2012, UNMOVED;
    Fixed(June, 3), 2022, 2022, UNMOVED;
    Fixed(September, 19), 2022, 2022, UNMOVED;
    Fixed(May, 8), 2023, 2023, UNMOVED;
};
