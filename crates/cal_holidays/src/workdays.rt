//! The working days of holidays by rules.
ghost use Rattle.std.specs.Prelude.{◌↔◌, IfSome, IsNone, length};
ghost use Rattle.cal_holidays.specs.Holidays.{AreMore, AreWorkdays, IsHoliday};

use crate::holiday_rule::HolidayRule;
use crate::holidays::holidays_between;
use cal_schedule::Workdays;
use cal_time::Date;

/// Creates a calendar from a mark for each weekday, from Monday to Sunday, and the holidays of rules
/// from one date through another, which are written to the front of the buffer. Before and after
/// these dates it has no holidays.
///
/// Returns `None` if the buffer has fewer places than there are holidays.
pub fn workdays_from_rules<'a>(
    marks: [bool; 7],
    rules: &[HolidayRule],
    first: Date,
    last: Date,
    days: &'a mut [Date],
) -> Option<Workdays<'a>>
    ensures value { IfSome result (AreWorkdays marks rules.now first last) }
    ensures full { IsNone result ↔ AreMore (IsHoliday rules.now first last) (length days.old) }
{
    match holidays_between(rules, first, last, days) {
        Some(holidays) => Workdays::new(marks, holidays),
        None => None,
    }
}
