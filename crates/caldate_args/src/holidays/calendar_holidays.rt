//! Holidays of a known calendar, and the years of rules. They are limited, so that the buffer has
//! room for 27 days in each year.
ghost use Rattle.std.specs.Prelude.{IfOk};
ghost use Rattle.cal_time.specs.Counted.{IsRising};
ghost use Rattle.cal_time.specs.Date.{julian_day_at};
ghost use Rattle.cal_holidays.specs.Holidays.{AreHolidays};

use crate::holidays::MAX_HOLIDAYS;
use crate::holidays::read_holidays_error::ReadHolidaysError;
use crate::zones::read_zone_error::FileError;
use cal_date::day_number::to_date;
use cal_holidays::{HolidayRule, holidays_between};
use cal_time::Date;

/// The number of the first day with holidays of rules, 1900-01-01.
pub(crate) const FIRST_DAY: u32 = 365_936_095;

/// The number of the last day with holidays of rules, 2199-12-31.
pub(crate) const LAST_DAY: u32 = 366_045_667;

/// Writes the holidays of rules from 1900 through 2199 to the front of the buffer, in ascending
/// order. Fails if it has no room for them. With the rules of TARGET, the first is 1999-01-01.
pub(crate) fn calendar_holidays<'a>(
    rules: &[HolidayRule],
    days: &'a mut [Date; MAX_HOLIDAYS],
) -> Result<&'a [Date], ReadHolidaysError>
    ensures days { IfOk result (λ days. AreHolidays rules.now FIRST_DAY LAST_DAY days.now) }
    ensures rising { IfOk result (λ days. IsRising julian_day_at days.now) }
{
    match holidays_between(rules, to_date(FIRST_DAY), to_date(LAST_DAY), days) {
        Some(found) => Ok(found),
        None => Err(ReadHolidaysError::File(FileError::TooLong)),
    }
}
