//! The ranks of days among the days of their period that pass.
ghost use Rattle.std.specs.Prelude.{◌≡◌, ◌+◌, ◌≤◌};
ghost use Rattle.cal_time.specs.Date.{last_day, IsDate};
ghost use Rattle.cal_time.specs.IsoWeekDate.{count_before};
ghost use Rattle.cal_schedule.specs.Rule.{passes_with};
ghost use Rattle.cal_schedule.specs.Weekdays.{count_from};

use crate::rule::rule::Rule;
use cal_date::day_number::day_number;
use cal_time::Date;

impl Rule {
    /// Returns the number of days up to a date that pass the lists in its period, and the number
    /// from the date on. Positions count these days (`BYSETPOS`), also before the start. For the
    /// monthly rule of Fridays and 19 January 2024 they are 3 and 2.
    pub fn ranks(&self, date: Date) -> (u32, u32)
        ensures ahead { result.0 ≡ count_before (passes_with self.now date) (date + 1) }
        ensures back { result.1 ≡ count_from (passes_with self.now date) date }
        ensures max { (result.0 ≤ last_day + 1) × (result.1 ≤ last_day + 1) }
        ensures in_range { IsDate date }
    {
        let end = self.period_end(date);
        let ahead = self.count_passing(self.period_start(date), day_number(date) + 1);
        let back = self.count_passing(date, end);
        (ahead, back)
    }
}
