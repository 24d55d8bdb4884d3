//! The range of dates, in years, months, Julian days and numbers of days.

/// The first year of the range, -999999.
pub const MIN_YEAR: i32 = -999_999;

/// The last year of the range, 999999.
pub const MAX_YEAR: i32 = 999_999;

/// The number of years of the range, 1999999.
pub const YEARS: u32 = (MAX_YEAR - MIN_YEAR + 1) as u32;

/// The number of months of the range, 23999988.
pub const MONTHS: u32 = 12 * YEARS;

/// The Julian day of the first day of the range, -363521074 for -999999-01-01.
pub const MIN_JULIAN_DAY: i32 = -363_521_074;

/// The Julian day of the last day of the range, 366963559 for 999999-12-31.
pub const MAX_JULIAN_DAY: i32 = MIN_JULIAN_DAY + LAST_DAY;

/// The number of the last day of the range, 730484633, counted from 0 at the first day.
pub const LAST_DAY: i32 = 730_484_633;
