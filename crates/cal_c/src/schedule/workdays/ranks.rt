//! Working days by their ranks: the rank of a day is the number of working days before it.
ghost use Rattle.std.specs.Prelude.{◌≡◌, ◌+◌, ◌<◌, ◌≤◌, Ok, Err, length, slice_index, IfSome, pos, neg_ℤ, ◌≤ℤ◌};
ghost use Rattle.cal_time.specs.Date.{last_day, IsDate};
ghost use Rattle.cal_time.specs.IsoWeekDate.{count_before};
ghost use Rattle.cal_schedule.specs.Workdays.{is_workday, nth_workday};
ghost use Rattle.cal_schedule.specs.WorkdaysSplit.{marked_count, HavePassed, IsRanked, IsSplit};
ghost use Rattle.cal_c.specs.CheckedWorkdays.{counted_at, counted_in, week_of, AreCounted, HasLimits, IsValid};
ghost use Rattle.cal_c.specs.Values.{dates_in, max_dates};
ghost use Rattle.cal_c.specs.Weekmasks.{weekmask_in, workdays_between, IsWeekmask};

use crate::day_number::wrapped_number;
use crate::schedule::workdays::checked_workdays::{CheckedWorkdays, MAX};
use crate::schedule::workdays::checking::{have_places, valid_weekmask};
use crate::schedule::workdays::workdays_view::WorkdaysView;
use crate::status::{INVALID_HOLIDAYS, INVALID_WEEKMASK, TOO_MANY_HOLIDAYS};
use cal_schedule::WeekdayMarks;
use std::marker::Model;

/// Working days with the marks of a week counted. Contracts see the weekmask, the holidays and the
/// number for each index.
#[derive(Debug, Drop)]
pub struct RankedWorkdays<'a> {
    weekmask: u32,
    week: WeekdayMarks,
    holidays: &'a [i32],
    marked_before: &'a [u32],
}

impl<'a> Model for RankedWorkdays<'a> {
    ghost use Rattle.std.specs.Prelude.{◌≡◌};
    ghost use Rattle.cal_c.specs.CheckedWorkdays.{counted, CountedHolidays, HasLimits};
    ghost use Rattle.cal_c.specs.Weekmasks.{weekmask_in};

    ghost Value = { CountedHolidays };

    ghost view = { λ r. counted r.weekmask r.holidays.now r.marked_before.now };

    ghost invariant = { λ r. HasLimits (counted r.weekmask r.holidays.now r.marked_before.now)
        × (r.week ≡ weekmask_in r.weekmask) };
}

impl<'a> RankedWorkdays<'a> {
    /// Checks the weekmask and the number of holidays, or returns the status of the first error.
    pub fn new(workdays: &'a CheckedWorkdays) -> Result<Self, i32>
        ensures invalid_weekmask { ¬ IsWeekmask workdays.now.weekmask → result ≡ Err INVALID_WEEKMASK }
        ensures too_many_holidays { IsWeekmask workdays.now.weekmask → max_dates < workdays.now.holidays_length
            → result ≡ Err TOO_MANY_HOLIDAYS }
        ensures value { IsValid workdays.now → result ≡ Ok (counted_in workdays.now) }
    {
        let marks = or_return!(valid_weekmask(workdays.weekmask), Err(INVALID_WEEKMASK));
        let length = workdays.holidays_length as usize;
        if length > MAX {
            return Err(TOO_MANY_HOLIDAYS);
        }
        Ok(RankedWorkdays {
            weekmask: workdays.weekmask,
            week: WeekdayMarks::new(marks),
            holidays: &workdays.holidays[..length],
            marked_before: &workdays.marked_before[..length + 1],
        })
    }

    /// Checks the weekmask and the lengths of a view, or returns the status of the first error.
    pub fn from_view(view: &WorkdaysView<'a>) -> Result<Self, i32>
        ensures invalid_weekmask { ¬ IsWeekmask view.now.weekmask → result ≡ Err INVALID_WEEKMASK }
        ensures invalid_holidays { IsWeekmask view.now.weekmask → ¬ HasLimits (counted_at view.now)
            → result ≡ Err INVALID_HOLIDAYS }
        ensures value { HasLimits (counted_at view.now) → result ≡ Ok (counted_at view.now) }
    {
        let marks = or_return!(valid_weekmask(view.weekmask), Err(INVALID_WEEKMASK));
        let (holidays, marked_before) = (view.holidays, view.marked_before);
        if !have_places(holidays.len(), marked_before.len()) {
            return Err(INVALID_HOLIDAYS);
        }
        Ok(RankedWorkdays {
            weekmask: view.weekmask,
            week: WeekdayMarks::new(marks),
            holidays,
            marked_before,
        })
    }

    /// Returns the marks of the weekmask.
    fn week(&self) -> &WeekdayMarks
        ensures { result.now ≡ weekmask_in self.now.weekmask }
    {
        &self.week
    }

    /// Returns the number of holidays.
    fn holiday_count(&self) -> usize
        ensures value { result ≡ length self.now.holidays }
        ensures length { result ≡ length (dates_in self.now.holidays) }
        ensures max { result ≤ last_day + 1 }
    {
        self.holidays.len()
    }

    /// Returns the number of the holiday at an index.
    fn holiday(&self, index: usize) -> u32
        requires { index < length self.now.holidays }
        ensures { AreCounted self.now → result ≡ slice_index (dates_in self.now.holidays) index }
    {
        let holidays = self.holidays;
        wrapped_number(holidays[index])
    }

    /// Returns the number of holidays with a marked weekday before an index.
    fn marked_holidays(&self, index: usize) -> i64
        requires { index ≤ length self.now.holidays }
        ensures value { AreCounted self.now → result ≡ pos (marked_count (week_of self.now) index) }
        ensures range { (pos 0 ≤ℤ result) × (result ≤ℤ pos (last_day + 1)) }
    {
        let marked_before = self.marked_before;
        // A number that isn't counted can be larger.
        let marked = i64::from(marked_before[index]);
        if marked <= index as i64 {
            marked
        } else {
            index as i64
        }
    }

    /// Returns the number of holidays before a day.
    fn holidays_before(&self, day: u32) -> usize
        ensures split { AreCounted self.now → IsSplit (dates_in self.now.holidays) result day }
        ensures max { result ≤ length self.now.holidays }
    {
        let (mut low, mut high) = (0, self.holiday_count());
        while low < high {
            let middle = low + (high - low) / 2;
            if self.holiday(middle) < day {
                low = middle + 1;
            } else {
                high = middle;
            }
        }
        low
    }

    /// Returns the rank of a day.
    pub(super) fn rank(&self, day: u32) -> i64
        requires { day ≤ last_day + 1 }
        ensures value { AreCounted self.now → result ≡ pos (count_before (is_workday (week_of self.now)) day) }
        ensures min { neg_ℤ (pos (last_day + 1)) ≤ℤ result }
        ensures max { result ≤ℤ pos (last_day + 1) }
    {
        let holidays = self.marked_holidays(self.holidays_before(day));
        i64::from(self.week().marked_before(day)) - holidays
    }

    /// Returns the number of holidays whose rank is at most `rank`.
    fn holidays_passed(&self, rank: i64) -> usize
        requires { (neg_ℤ (pos 4294967296) ≤ℤ rank) × (rank ≤ℤ pos 4294967296) }
        ensures passed { AreCounted self.now → HavePassed (week_of self.now) rank result }
        ensures max { result ≤ length self.now.holidays }
    {
        let (mut low, mut high) = (0, self.holiday_count());
        while low < high {
            let middle = low + (high - low) / 2;
            let marked = i64::from(self.week().marked_before(self.holiday(middle)));
            if marked <= rank + self.marked_holidays(middle) {
                low = middle + 1;
            } else {
                high = middle;
            }
        }
        low
    }

    /// Returns the number of the working day with a rank, or `None` if the range has none.
    pub(super) fn day_of_rank(&self, rank: i64) -> Option<u32>
        requires { (neg_ℤ (pos 4294967296) ≤ℤ rank) × (rank ≤ℤ pos 4294967296) }
        ensures value { AreCounted self.now → IsRanked (is_workday (week_of self.now)) rank result }
        ensures range { IfSome result IsDate }
    {
        let holidays = self.marked_holidays(self.holidays_passed(rank));
        self.week().nth_marked(rank + holidays)
    }

    /// Returns `true` for a working day.
    pub fn contains(&self, day: u32) -> bool
        requires { IsDate day }
        ensures { AreCounted self.now → result ≡ is_workday (week_of self.now) day }
    {
        self.rank(day) < self.rank(day + 1)
    }

    /// Counts the working days from one day on and before the other, negative if that is first.
    pub fn between(&self, from: u32, to: u32) -> i32
        requires { IsDate from × IsDate to }
        ensures { AreCounted self.now → result ≡ workdays_between (week_of self.now) from to }
    {
        (self.rank(to) - self.rank(from)) as i32
    }

    /// Adds working days, or subtracts them if the number is negative.
    pub fn add(&self, day: u32, days: i32) -> Option<u32>
        requires { IsDate day }
        ensures value { AreCounted self.now → result ≡ nth_workday (week_of self.now) days day }
        ensures range { IfSome result IsDate }
    {
        if days > 0 {
            self.day_of_rank(self.rank(day + 1) + i64::from(days - 1))
        } else {
            self.day_of_rank(self.rank(day) + i64::from(days))
        }
    }
}
