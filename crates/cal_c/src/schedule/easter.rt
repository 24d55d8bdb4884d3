//! Easter by the Gregorian and by the Julian calendar.
ghost use Rattle.cal_holidays.specs.Easter.{IsEaster, IsJulianEaster};
ghost use Rattle.cal_c.specs.Easter.{IsDayOfYear};

use crate::results::DateResult;
use cal_holidays::{easter, julian_easter};

/// Returns Easter Sunday of a year, by the tables of the Gregorian calendar. Returns the error `year`
/// if it is out of range. Of 2024 it is 2460401, 2024-03-31.
#[unsafe(no_mangle)]
pub extern "C" fn fots_easter(year: i32) -> DateResult
    ensures { IsDayOfYear (IsEaster year) result }
{
    ok_or_error!(DateResult, easter(year))
}

/// Returns Easter Sunday of a year of the Julian calendar, as orthodox churches celebrate it. Returns
/// the error `year` if the year or the day is out of range. Of 2024 it is 2460436, 2024-05-05.
#[unsafe(no_mangle)]
pub extern "C" fn fots_julian_easter(year: i32) -> DateResult
    ensures { IsDayOfYear (IsJulianEaster year) result }
{
    ok_or_error!(DateResult, julian_easter(year))
}
