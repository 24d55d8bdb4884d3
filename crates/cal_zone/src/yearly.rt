//! Changes that come each year.
ghost use Rattle.std.specs.Prelude.{◌≡◌, ◌≤◌, pos, ◌-ℤ◌, ◌*ℤ◌, ◌↔◌, IsTrue};
ghost use Rattle.cal_zone.specs.Rule.{epoch_day};
ghost use Rattle.cal_zone.specs.Timeline.{IsOffset};
ghost use Rattle.cal_time.specs.Date.{HasCalendarDate, IsDate, IsDayOfMonth, IsYear};
ghost use Rattle.cal_time.specs.Month.{number};

use crate::LocalType;
use crate::change_error::is_offset;
use cal_date::day_number::{days_since_monday, from_calendar_date};
use cal_time::util::days_in_month;
use cal_time::{Cycle, Month, Weekday};

/// The week of a change that comes on the last such weekday of its month.
const LAST: u8 = 5;

/// The number of the day 1970-01-01.
const EPOCH_DAY: i64 = 365_961_662;

/// A change of clocks that comes each year, on a weekday of a month. The text `M3.5.0/2` of POSIX
/// is the last Sunday of March at 2:00.
#[derive(Clone, Copy, Debug)]
pub struct Yearly {
    /// The month of the change.
    pub month: Month,
    /// 1 to 4 for the first to the fourth such weekday of the month, 5 for the last.
    pub week: u8,
    /// The weekday of the change.
    pub weekday: Weekday,
    /// The seconds from midnight to the change, by the clocks before it, from -604800 to 604800.
    pub time: i32,
    /// How the clocks are set from then on.
    pub kind: LocalType,
}

/// Returns the Unix time of the midnight at UTC with which a day begins.
fn midnight(day: u32) -> i64
    requires { IsDate day }
    ensures value { result ≡ (pos day -ℤ epoch_day) *ℤ pos 86_400 }
{
    (i64::from(day) - EPOCH_DAY) * 86_400
}

impl Yearly {
    ghost use Rattle.cal_zone.specs.Rule.{IsYearly, day_of, moment};

    /// Checks that the week, the time and the offset are in range.
    #[inline(always)]
    pub(crate) fn is_in_range(&self) -> bool
        ensures { IsTrue result ↔ IsYearly self.now }
    {
        1 <= self.week
            && self.week <= 5
            && -604_800 <= self.time
            && self.time <= 604_800
            && is_offset(self.kind.offset)
    }

    /// Returns the number of a day of the month.
    fn day_of_month(&self, year: i32, day: u8) -> u32
        requires year { IsYear year }
        requires day { IsDayOfMonth year (number self.now.month) day }
        ensures value { HasCalendarDate year (number self.now.month) day result }
        ensures range { IsDate result }
    {
        from_calendar_date(year, u8::from(self.month), day)
    }

    /// Returns the last such weekday of the month.
    fn last_in(&self, year: i32) -> u32
        requires year { IsYear year }
        requires last { self.now.week ≡ 5 }
        ensures day { result ≡ day_of self.now year }
        ensures range { IsDate result }
    {
        let length = days_in_month(self.month, year);
        let end = self.day_of_month(year, length);
        let past = (days_since_monday(end) + 7 - self.weekday.place()) % 7;
        self.day_of_month(year, length - past)
    }

    /// Returns the first to the fourth such weekday of the month.
    fn nth_in(&self, year: i32) -> u32
        requires year { IsYear year }
        requires min { 1 ≤ self.now.week }
        requires max { self.now.week ≤ 4 }
        ensures day { result ≡ day_of self.now year }
        ensures range { IsDate result }
    {
        let first = self.day_of_month(year, 1);
        let ahead = (self.weekday.place() + 7 - days_since_monday(first)) % 7;
        self.day_of_month(year, 7 * self.week - 6 + ahead)
    }

    /// Returns the number of the day of the change in a year.
    fn day_in(&self, year: i32) -> u32
        requires year { IsYear year }
        requires yearly { IsYearly self.now }
        ensures day { result ≡ day_of self.now year }
        ensures range { IsDate result }
    {
        if self.week == LAST {
            self.last_in(year)
        } else {
            self.nth_in(year)
        }
    }

    /// Returns the Unix time of the change in a year, if clocks are ahead of UTC by `before`
    /// seconds before it.
    pub(crate) fn moment(&self, before: i32, year: i32) -> i64
        requires year { IsYear year }
        requires yearly { IsYearly self.now }
        requires before { IsOffset before }
        ensures value { result ≡ moment self.now before year }
    {
        midnight(self.day_in(year)) + i64::from(self.time) - i64::from(before)
    }
}
