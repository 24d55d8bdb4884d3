//! Counting days with a marked weekday by whole weeks.
ghost use Rattle.std.specs.Prelude.{◌≡◌, ◌^◌, ◌<◌, ◌≤◌, pos, ◌≤ℤ◌, true};
ghost use Rattle.cal_time.specs.IsoWeekDate.{count_before};
ghost use Rattle.cal_schedule.specs.Workdays.{is_marked};
ghost use Rattle.cal_schedule.specs.WorkdaysSplit.{IsRanked};

use cal_time::limits::LAST_DAY;
use std::marker::Model;

/// A mark for each weekday, from Monday to Sunday. Contracts see the marks.
#[derive(Debug, Drop)]
pub struct WeekdayMarks {
    marks: [bool; 7],
    /// The number of marks before each index of the week.
    marks_before: [u32; 8],
}

impl Model for WeekdayMarks {
    ghost use Rattle.std.specs.Prelude.{◌≡◌, ℕ, ◌≤◌, Bool, List, get_or};
    ghost use Rattle.cal_time.specs.IsoWeekDate.{count_before};
    ghost use Rattle.cal_schedule.specs.Workdays.{is_marked};

    ghost Value = { List Bool };

    ghost view = { λ w. w.marks };

    ghost invariant = { λ w. (i : ℕ) → i ≤ 7 → get_or w.marks_before i 0 ≡ count_before (is_marked w.marks) i };
}

impl WeekdayMarks {
    /// Counts the marks of a week.
    pub fn new(marks: [bool; 7]) -> Self
        ensures { result ≡ marks }
    {
        let mut marks_before = [0; 8];
        for index in 0..7 {
            marks_before[index + 1] = marks_before[index] + u32::from(marks[index]);
        }
        WeekdayMarks {
            marks,
            marks_before,
        }
    }

    /// Returns `true` if a day has a marked weekday. Day 0 is a Monday.
    pub fn is_marked(&self, day: u32) -> bool
        ensures { result ≡ is_marked self.now day }
    {
        self.marks[(day % 7) as usize]
    }

    /// Returns the number of marks before an index of the week.
    fn marked_in_week(&self, index: usize) -> u32
        requires { index ≤ 7 }
        ensures value { result ≡ count_before (is_marked self.now) index }
        ensures max { result ≤ index }
    {
        self.marks_before[index]
    }

    /// Returns the number of marked days before a day.
    pub fn marked_before(&self, day: u32) -> u32
        ensures value { result ≡ count_before (is_marked self.now) day }
        ensures max { result ≤ day }
    {
        day / 7 * self.marked_in_week(7) + self.marked_in_week((day % 7) as usize)
    }

    /// Returns the index of the marked weekday with n marks before it.
    fn nth_index(&self, n: u32) -> usize
        requires { n < count_before (is_marked self.now) 7 }
        ensures marked { is_marked self.now result ≡ true }
        ensures value { count_before (is_marked self.now) result ≡ n }
        ensures range { result < 7 }
    {
        for index in 0..7 {
            if self.marked_in_week(index + 1) > n {
                return index;
            }
        }
        unreachable!()
    }

    /// Returns the marked day of the range with n marked days before it, or `None`.
    pub fn nth_marked(&self, n: i64) -> Option<u32>
        requires { n ≤ℤ pos (2 ^ 60) }
        ensures { IsRanked (is_marked self.now) n result }
    {
        if n < 0 {
            return None;
        }
        let in_week = u64::from(self.marked_in_week(7));
        if in_week == 0 {
            return None;
        }
        let n = n as u64;
        let day = n / in_week * 7 + self.nth_index((n % in_week) as u32) as u64;
        if day > LAST_DAY as u64 {
            return None;
        }
        Some(day as u32)
    }
}
