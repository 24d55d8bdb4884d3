//! The holidays of known calendars.
ghost use Rattle.std.specs.Prelude.{◌≡◌, ◌≤◌, IfNone, IfSome, List, MatchOption, Some, length, map, min, slice_get, take};
ghost use Rattle.cal_time.specs.Date.{julian_day_at};
ghost use Rattle.cal_holidays.specs.Calendars.{calendars};
ghost use Rattle.cal_holidays.specs.Holidays.{AreHolidays, AreMore, IsHoliday};
ghost use Rattle.cal_holidays.specs.declared.holiday_rule.HolidayRule.{HolidayRule};
ghost use Rattle.cal_c.specs.Calendars.{AreListed, IsCalendar};
ghost use Rattle.cal_c.specs.Results.{number_error};
ghost use Rattle.cal_c.specs.Values.{need◌else◌then◌, day_of, max_dates, IsJulianDay};

use crate::results::NumberResult;
use crate::schedule::date_list::MAX_DATES;
use crate::status::{INVALID_CALENDAR, INVALID_DATE, TOO_MANY_HOLIDAYS};
use crate::values::valid_date;
use cal_holidays::{HolidayRule, calendar_rules, holidays_between};
use cal_time::Date;

/// Returns the rules of the calendar with a number, or `None` for any other number.
fn valid_calendar(number: u32) -> Option<&'static [HolidayRule]>
    ensures { MatchOption result (¬ IsCalendar number)
        (λ rules. slice_get calendars number ≡ Some rules.now) }
{
    calendar_rules(number as usize)
}

/// Writes the Julian days of dates to the front of an array.
fn write_dates(dates: &[Date], written: &mut [i32])
    requires { length dates.now ≤ length written.old }
    ensures { take (length dates.now) written.new ≡ map julian_day_at dates.now }
{
    for index in 0..dates.len() {
        written[index] = dates[index].to_julian_day();
    }
}

/// Returns the number of holidays for which an array and a list of dates have room.
fn room_of(holidays: &[i32]) -> usize
    ensures { result ≡ min (length holidays.now) max_dates }
{
    if holidays.len() < MAX_DATES {
        holidays.len()
    } else {
        MAX_DATES
    }
}

/// Returns the holidays of rules if there are at most `room` of them.
fn holidays_in<'a>(
    rules: &[HolidayRule],
    first: Date,
    last: Date,
    days: &'a mut [Date; MAX_DATES],
    room: usize,
) -> Option<&'a [Date]>
    requires { room ≤ max_dates }
    ensures value { IfSome result (λ found. AreHolidays rules.now first last found.now) }
    ensures most { IfSome result (λ found. length found.now ≤ room) }
    ensures full { IfNone result (AreMore (IsHoliday rules.now first last) room) }
{
    holidays_between(rules, first, last, &mut days[..room])
}

/// Writes the holidays of rules to the front of an array, and returns their number.
pub(super) fn write_holidays(
    rules: &[HolidayRule],
    first: Date,
    last: Date,
    holidays: &mut [i32],
) -> NumberResult
    ensures { AreListed rules.now first last holidays.new result }
{
    let mut days = [Date::MIN; MAX_DATES];
    match holidays_in(rules, first, last, &mut days, room_of(holidays)) {
        Some(found) => {
            write_dates(found, holidays);
            NumberResult::ok(found.len() as i32)
        }
        None => NumberResult::error(TOO_MANY_HOLIDAYS),
    }
}

/// Writes the holidays of a known calendar from one date through another to the front of an array, in
/// ascending order, and returns their number. Fails for a calendar above 19, and if there are more
/// holidays than the array has places, or more than 1024. Of the calendar 0, TARGET, there are 6
/// from 2460311, 2024-01-01, through 2460676, 2024-12-31.
#[unsafe(no_mangle)]
pub extern "C" fn fots_calendar_holidays(
    calendar: u32,
    first: i32,
    last: i32,
    holidays: &mut [i32],
) -> NumberResult
    ensures { need IsCalendar calendar else result ≡ number_error INVALID_CALENDAR then
        need IsJulianDay first else result ≡ number_error INVALID_DATE then
        need IsJulianDay last else result ≡ number_error INVALID_DATE then
        (rules : List HolidayRule) × (slice_get calendars calendar ≡ Some rules)
        × AreListed rules (day_of first) (day_of last) holidays.new result }
{
    let rules = or_error!(NumberResult, valid_calendar(calendar), INVALID_CALENDAR);
    let first = or_error!(NumberResult, valid_date(first), INVALID_DATE);
    let last = or_error!(NumberResult, valid_date(last), INVALID_DATE);
    write_holidays(rules, first, last, holidays)
}
