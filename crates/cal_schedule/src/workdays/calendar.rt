//! Marked weekdays and holidays.
ghost use Rattle.std.specs.Prelude.{◌≡◌, ◌<◌, length, slice_index, SomeIff};
ghost use Rattle.cal_time.specs.Counted.{IsRising};
ghost use Rattle.cal_time.specs.Date.{julian_day_at, IsDate};

use crate::workdays::WeekdayMarks;
use cal_date::day_number::day_number;
use cal_time::{Date, is_rising};
use std::marker::Model;

/// The working days of a calendar: the days with a marked weekday, except the holidays. Contracts
/// see the marks and the numbers of the holidays.
#[derive(Debug, Drop)]
pub struct Workdays<'a> {
    /// A mark for each weekday, from Monday to Sunday.
    pub(super) marks: [bool; 7],
    /// The holidays, in ascending order.
    pub(super) holidays: &'a [Date],
}

impl<'a> Model for Workdays<'a> {
    ghost use Rattle.cal_schedule.specs.Workdays.{WorkWeek};
    ghost use Rattle.cal_time.specs.Counted.{IsRising};
    ghost use Rattle.cal_time.specs.Date.{julian_day_at};

    ghost Value = { WorkWeek };

    ghost view = { λ w. record { marks = w.marks; holidays = w.holidays.now } };

    ghost invariant = { λ w. IsRising julian_day_at w.holidays.now };
}

impl<'a> Workdays<'a> {
    /// Creates a calendar from a mark for each weekday, from Monday to Sunday, and its holidays.
    /// Marks of `true` five times and `false` twice make Monday to Friday working days.
    ///
    /// Returns `None` if the holidays are not in strictly ascending order. A holiday on a weekday
    /// without a mark changes nothing.
    pub fn new(marks: [bool; 7], holidays: &'a [Date]) -> Option<Self>
        ensures { SomeIff result (IsRising julian_day_at holidays.now)
            (record { marks = marks; holidays = holidays.now }) }
    {
        if is_rising(holidays) {
            Some(Workdays { marks, holidays })
        } else {
            None
        }
    }

    /// Returns the marks, counted.
    pub(super) fn week(&self) -> WeekdayMarks
        ensures value { result ≡ self.now.marks }
        ensures rising { IsRising julian_day_at self.now.holidays }
    {
        WeekdayMarks::new(self.marks)
    }

    /// Returns the number of holidays.
    pub(super) fn holiday_count(&self) -> usize
        ensures value { result ≡ length self.now.holidays }
        ensures rising { IsRising julian_day_at self.now.holidays }
    {
        self.holidays.len()
    }

    /// Returns the number of the holiday at an index.
    pub(super) fn holiday(&self, index: usize) -> u32
        requires { index < length self.now.holidays }
        ensures value { result ≡ slice_index self.now.holidays index }
        ensures range { IsDate result }
    {
        let holidays = self.holidays;
        day_number(holidays[index])
    }
}
