//! The public holidays of the states of Germany since 1995, on which their banks are closed, by the
//! law of each state. Holidays that are always on a Sunday, and the ones of single municipalities,
//! aren't included, except Assumption Day in Bavaria, a holiday in most of its municipalities. Checked
//! for 1995 to 2050 with python3-holidays 0.71 and Date::Holidays::DE 2.06, and for 1995 to 2026
//! with python3-holidays 0.10.1 and python3-workalendar 17.0.0. Only python3-holidays 0.71 has 8 May
//! 2025 in Berlin, and only it and Date::Holidays::DE have 8 March in Mecklenburg-Western Pomerania;
//! `test_calendars.py` names the other differences.
use crate::holiday_day::HolidayDay::{self, Easter, Fixed, OnOrAfter};
use crate::holiday_rule::HolidayRule;
use cal_time::Month::{August, December, January, March, May, November, October, September};
use cal_time::Weekday::Wednesday;
use cal_time::limits::MAX_YEAR;

/// No weekday is moved.
const UNMOVED: [i8; 7] = [0, 0, 0, 0, 0, 0, 0];

const EPIPHANY: HolidayDay = Fixed(January, 6);

const WOMENS_DAY: HolidayDay = Fixed(March, 8);

const CORPUS_CHRISTI: HolidayDay = Easter(60);

const ASSUMPTION_DAY: HolidayDay = Fixed(August, 15);

const CHILDRENS_DAY: HolidayDay = Fixed(September, 20);

const REFORMATION_DAY: HolidayDay = Fixed(October, 31);

const ALL_SAINTS: HolidayDay = Fixed(November, 1);

const REPENTANCE_DAY: HolidayDay = OnOrAfter(November, 16, Wednesday);

/// Writes the rules of a state: those of all states, and others of a day, its first and its last
/// year. In 2017 Reformation Day was a holiday in each state.
macro_rules! rules {
    ($($day:expr, $first:expr, $last:expr;)+) => {
        &[
            HolidayRule { day: Fixed(January, 1), first_year: 1995, last_year: MAX_YEAR, moves: UNMOVED },
            HolidayRule { day: Easter(-2), first_year: 1995, last_year: MAX_YEAR, moves: UNMOVED },
            HolidayRule { day: Easter(1), first_year: 1995, last_year: MAX_YEAR, moves: UNMOVED },
            HolidayRule { day: Fixed(May, 1), first_year: 1995, last_year: MAX_YEAR, moves: UNMOVED },
            HolidayRule { day: Easter(39), first_year: 1995, last_year: MAX_YEAR, moves: UNMOVED },
            HolidayRule { day: Easter(50), first_year: 1995, last_year: MAX_YEAR, moves: UNMOVED },
            HolidayRule { day: Fixed(October, 3), first_year: 1995, last_year: MAX_YEAR, moves: UNMOVED },
            HolidayRule { day: Fixed(December, 25), first_year: 1995, last_year: MAX_YEAR, moves: UNMOVED },
            HolidayRule { day: Fixed(December, 26), first_year: 1995, last_year: MAX_YEAR, moves: UNMOVED },
            $(HolidayRule { day: $day, first_year: $first, last_year: $last, moves: UNMOVED }),+
        ]
    };
}

pub(super) const BADEN_WUERTTEMBERG: &[HolidayRule] = rules! {
    EPIPHANY, 1995, MAX_YEAR;
    CORPUS_CHRISTI, 1995, MAX_YEAR;
    ALL_SAINTS, 1995, MAX_YEAR;
    REFORMATION_DAY, 2017, 2017;
};

pub(super) const BAVARIA: &[HolidayRule] = rules! {
    EPIPHANY, 1995, MAX_YEAR;
    CORPUS_CHRISTI, 1995, MAX_YEAR;
    ASSUMPTION_DAY, 1995, MAX_YEAR;
    ALL_SAINTS, 1995, MAX_YEAR;
    REFORMATION_DAY, 2017, 2017;
};

// In 2020 and 2025 the end of the war was 75 and 80 years ago.
pub(super) const BERLIN: &[HolidayRule] = rules! {
    WOMENS_DAY, 2019, MAX_YEAR;
    Fixed(May, 8), 2020, 2020;
    Fixed(May, 8), 2025, 2025;
    REFORMATION_DAY, 2017, 2017;
};

pub(super) const BRANDENBURG: &[HolidayRule] = rules! {
    REFORMATION_DAY, 1995, MAX_YEAR;
};

pub(super) const BREMEN: &[HolidayRule] = rules! {
    REFORMATION_DAY, 2017, MAX_YEAR;
};

pub(super) const HAMBURG: &[HolidayRule] = rules! {
    REFORMATION_DAY, 2017, MAX_YEAR;
};

pub(super) const HESSE: &[HolidayRule] = rules! {
    CORPUS_CHRISTI, 1995, MAX_YEAR;
    REFORMATION_DAY, 2017, 2017;
};

pub(super) const MECKLENBURG_WESTERN_POMERANIA: &[HolidayRule] = rules! {
    WOMENS_DAY, 2023, MAX_YEAR;
    REFORMATION_DAY, 1995, MAX_YEAR;
};

pub(super) const LOWER_SAXONY: &[HolidayRule] = rules! {
    REFORMATION_DAY, 2017, MAX_YEAR;
};

pub(super) const NORTH_RHINE_WESTPHALIA: &[HolidayRule] = rules! {
    CORPUS_CHRISTI, 1995, MAX_YEAR;
    ALL_SAINTS, 1995, MAX_YEAR;
    REFORMATION_DAY, 2017, 2017;
};

pub(super) const RHINELAND_PALATINATE: &[HolidayRule] = rules! {
    CORPUS_CHRISTI, 1995, MAX_YEAR;
    ALL_SAINTS, 1995, MAX_YEAR;
    REFORMATION_DAY, 2017, 2017;
};

pub(super) const SAARLAND: &[HolidayRule] = rules! {
    CORPUS_CHRISTI, 1995, MAX_YEAR;
    ASSUMPTION_DAY, 1995, MAX_YEAR;
    ALL_SAINTS, 1995, MAX_YEAR;
    REFORMATION_DAY, 2017, 2017;
};

pub(super) const SAXONY: &[HolidayRule] = rules! {
    REFORMATION_DAY, 1995, MAX_YEAR;
    REPENTANCE_DAY, 1995, MAX_YEAR;
};

pub(super) const SAXONY_ANHALT: &[HolidayRule] = rules! {
    EPIPHANY, 1995, MAX_YEAR;
    REFORMATION_DAY, 1995, MAX_YEAR;
};

pub(super) const SCHLESWIG_HOLSTEIN: &[HolidayRule] = rules! {
    REFORMATION_DAY, 2017, MAX_YEAR;
};

pub(super) const THURINGIA: &[HolidayRule] = rules! {
    CHILDRENS_DAY, 2019, MAX_YEAR;
    REFORMATION_DAY, 1995, MAX_YEAR;
};
