//! A rule for a holiday, and its date in a year.
ghost use Rattle.std.specs.Prelude.{◌≡◌, ◌↔◌, ℕ, ◌≤◌, pos, ◌≤ℤ◌, Some, IfSome, IsTrue, slice_index_or};
ghost use Rattle.cal_time.specs.Date.{IsDate, IsYear, weekday_at};
ghost use Rattle.cal_holidays.specs.Holidays.{IsHolidayFor};
ghost use Rattle.cal_holidays.specs.HolidaySearch.{AreAmongYears, AreMovesWithin, AreWithinYears, year_of_number};

use crate::holiday_day::{HolidayDay, days_after};
use cal_time::limits::{MAX_YEAR, MIN_YEAR};
use cal_time::{Cycle, Date};

/// A rule for a holiday: a day in each year, the years in which the rule is in force, and the days
/// by which the holiday is moved.
#[derive(Clone, Copy, Debug, PartialEq, Eq)]
pub struct HolidayRule {
    /// The day.
    pub day: HolidayDay,
    /// The first year in force.
    pub first_year: i32,
    /// The last year in force.
    pub last_year: i32,
    /// The days by which the holiday is moved, for each weekday of the day from Monday to Sunday.
    /// `[0, 0, 0, 0, 0, -1, 1]` moves a Saturday to Friday and a Sunday to Monday.
    pub moves: [i8; 7],
}

impl HolidayRule {
    /// Returns `true` if the rule is in force in a year of the range.
    fn is_in_force(self, year: i32) -> bool
        ensures { IsTrue result
            ↔ IsYear year × (self.first_year ≤ℤ year) × (year ≤ℤ self.last_year) }
    {
        MIN_YEAR <= year && year <= MAX_YEAR && self.first_year <= year && year <= self.last_year
    }

    /// Returns the days by which the holiday on a day is moved.
    fn days_moved(self, day: Date) -> i8
        ensures { result ≡ slice_index_or self.moves (weekday_at day) (pos 0) }
    {
        self.moves[usize::from(day.weekday().place())]
    }

    /// Returns the holiday for a year, or `None` if there is none. It may be in the year before or
    /// after. New Year, moved from Saturday to Friday, is 2021-12-31 for 2022.
    pub fn holiday_for(self, year: i32) -> Option<Date>
        ensures every { (n : ℕ) → IsHolidayFor self year n → result ≡ Some n }
        ensures value { IfSome result (IsHolidayFor self year) }
    {
        if !self.is_in_force(year) {
            return None;
        }
        match self.day.day_of(year) {
            Some(day) => days_after(day, self.days_moved(day)),
            None => None,
        }
    }

    /// Returns the maximum number of days by which a weekday is moved.
    fn most_moved(self) -> u8
        ensures { AreMovesWithin self.moves result }
    {
        let mut most = 0;
        for days in self.moves {
            most = most.max(days.unsigned_abs());
        }
        most
    }

    /// Returns a number of years, at most 24, within which each holiday is from its year. The
    /// Julian calendar differs by up to 20 years at the ends of the range.
    fn reach(self) -> u32
        ensures value { AreWithinYears self result }
        ensures max { result ≤ 24 }
    {
        // They state that the numbers of days fit in bytes.
        let _moved = self.most_moved();
        let _from_easter = self.day.most_from_easter();
        match self.day {
            HolidayDay::JulianEaster(_) => 24,
            _ => 2,
        }
    }

    /// Returns the numbers of the first year that may have a holiday from one date through another,
    /// and of the year after the last one.
    pub(crate) fn years_between(self, first: Date, last: Date) -> (u32, u32)
        ensures value { AreAmongYears self first last result.0 result.1 }
        ensures max { result.1 ≤ 2_000_200 }
    {
        let reach = self.reach();
        (
            year_number(first.year()) - reach,
            year_number(last.year()) + reach + 1,
        )
    }
}

/// The number of the year 0. The years of the range and 24 years on each side have positive numbers.
const YEAR_ZERO: i32 = 1_000_100;

/// Returns the number of a year of the range.
fn year_number(year: i32) -> u32
    requires { IsYear year }
    ensures value { year_of_number result ≡ year }
    ensures range { (101 ≤ result) × (result ≤ 2_000_099) }
{
    (year + YEAR_ZERO) as u32
}

/// Returns the year with a number.
pub(crate) fn year_of_number(number: u32) -> i32
    requires { number ≤ 2_000_200 }
    ensures { result ≡ year_of_number number }
{
    number as i32 - YEAR_ZERO
}
