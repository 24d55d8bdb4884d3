//! Results of the calls for schedules.
ghost use Rattle.std.specs.Prelude.{◌≡◌};
ghost use Rattle.cal_c.specs.Recurrences.{days_ok, days_error};
ghost use Rattle.cal_c.specs.Schedule.{period_ok, period_error, year_fraction_ok, year_fraction_error};

use crate::status::OK;
use cal_schedule::{Period, YearFraction};

/// A period of years, months, weeks and days, all of one sign.
#[repr(C)]
#[derive(Clone, Copy, Debug)]
pub struct PeriodResult {
    pub status: i32,
    pub years: i32,
    pub months: i32,
    pub weeks: i32,
    pub days: i32,
}

/// A fraction of a year: the days counted, over the days of a year.
#[repr(C)]
#[derive(Clone, Copy, Debug)]
pub struct YearFractionResult {
    pub status: i32,
    pub denominator: u32,
    pub numerator: i64,
}

/// The number of days written.
#[repr(C)]
#[derive(Clone, Copy, Debug)]
pub struct DaysResult {
    pub status: i32,
    /// 0, in place of padding.
    pub unused: u32,
    pub length: usize,
}

impl DaysResult {
    pub fn ok(length: usize) -> Self
        ensures { result ≡ days_ok length }
    {
        DaysResult {
            status: OK,
            unused: 0,
            length,
        }
    }

    pub fn error(status: i32) -> Self
        ensures { result ≡ days_error status }
    {
        DaysResult {
            status,
            unused: 0,
            length: 0,
        }
    }
}

impl PeriodResult {
    pub fn ok(period: Period) -> Self
        ensures { result ≡ period_ok period }
    {
        PeriodResult {
            status: OK,
            years: period.years(),
            months: period.months(),
            weeks: period.weeks(),
            days: period.days(),
        }
    }

    pub fn error(status: i32) -> Self
        ensures { result ≡ period_error status }
    {
        PeriodResult {
            status,
            years: i32::MIN,
            months: i32::MIN,
            weeks: i32::MIN,
            days: i32::MIN,
        }
    }
}

impl YearFractionResult {
    pub fn ok(fraction: YearFraction) -> Self
        ensures { result ≡ year_fraction_ok fraction.numerator fraction.denominator }
    {
        YearFractionResult {
            status: OK,
            denominator: fraction.denominator,
            numerator: fraction.numerator,
        }
    }

    pub fn error(status: i32) -> Self
        ensures { result ≡ year_fraction_error status }
    {
        YearFractionResult {
            status,
            denominator: 0,
            numerator: i64::MIN,
        }
    }
}
