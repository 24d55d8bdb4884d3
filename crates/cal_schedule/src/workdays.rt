//! Working days: the days with a marked weekday, except the holidays.
ghost use Rattle.std.specs.Prelude.{◌≡◌, ◌+◌, ◌-◌, ◌<◌, pos, ◌-ℤ◌, length, slice_get, IfSome, true};
ghost use Rattle.cal_time.specs.Date.{IsDate};
ghost use Rattle.cal_schedule.specs.Workdays.{is_workday, workdays_from, workdays_before, workdays_within, nth_workday};

mod adjust;
mod calendar;
mod convention;
mod search;
mod weekday_marks;

use cal_date::day_number::day_number;
use cal_time::Date;
pub use calendar::Workdays;
pub use convention::Convention;
pub use weekday_marks::WeekdayMarks;

impl Workdays<'_> {
    /// Returns `true` for a working day: its weekday is marked, and it is not a holiday. For Monday
    /// to Friday with the holiday 2024-12-25, it is `false` on 2024-12-25, a Wednesday, and `true`
    /// on 2024-12-26.
    pub fn is_workday(&self, date: Date) -> bool
        ensures value { result ≡ is_workday self.now date }
        ensures in_range { IsDate date }
    {
        let day = day_number(date);
        self.week().is_marked(day) && !self.is_holiday(day)
    }

    /// Returns the first working day after a date, or `None` if the range has none. For Monday to
    /// Friday without holidays, a Friday gives the Monday after it.
    pub fn next_workday(&self, date: Date) -> Option<Date>
        ensures value { result ≡ slice_get (workdays_from self.now (date + 1)) 0 }
        ensures found { IfSome result (λ n.
            (is_workday self.now n ≡ true) × (date < n) × IsDate n) }
        ensures in_range { IsDate date }
    {
        self.nth_from(day_number(date) + 1, 0)
    }

    /// Returns the last working day before a date, or `None` if the range has none. For Monday to
    /// Friday without holidays, a Monday gives the Friday before it.
    pub fn previous_workday(&self, date: Date) -> Option<Date>
        ensures value { result ≡ slice_get (workdays_before self.now date) 0 }
        ensures found { IfSome result (λ n.
            (is_workday self.now n ≡ true) × (n < date) × IsDate n) }
        ensures in_range { IsDate date }
    {
        self.nth_before(day_number(date), 0)
    }

    /// Adds working days, or subtracts them if the number is negative. 1 is the first working day
    /// after the date, and -1 the last one before it. 0 is the date itself, or the first working
    /// day after it.
    ///
    /// Returns `None` if the range has no such day. For Monday to Friday without holidays, 1 and 0
    /// from a Saturday give the Monday, and -1 gives the Friday.
    pub fn checked_add_workdays(&self, date: Date, days: i32) -> Option<Date>
        ensures value { result ≡ nth_workday self.now days date }
        ensures found { IfSome result (λ n. (is_workday self.now n ≡ true) × IsDate n) }
        ensures in_range { IsDate date }
    {
        let day = day_number(date);
        if days > 0 {
            self.nth_from(day + 1, days as u32 - 1)
        } else if days == 0 {
            self.nth_from(day, 0)
        } else {
            self.nth_before(day, days.unsigned_abs() - 1)
        }
    }

    /// Counts the working days from the earlier date on, without the later date. If `to` comes
    /// before `from`, `to` counts, `from` doesn't, and the number is negative or 0.
    ///
    /// For Monday to Friday without holidays, it is 1 from Friday 2024-01-05 to Monday 2024-01-08,
    /// and -1 back, both for the Friday.
    pub fn workdays_between(&self, from: Date, to: Date) -> i32
        ensures value { result ≡ pos (length (workdays_within self.now from to))
            -ℤ pos (length (workdays_within self.now to from)) }
        ensures in_range { IsDate from × IsDate to }
    {
        let first = day_number(from);
        let last = day_number(to);
        if first <= last {
            self.count_workdays(first, last) as i32
        } else {
            -(self.count_workdays(last, first) as i32)
        }
    }
}
