//! Dates moved to working days.
ghost use Rattle.std.specs.Prelude.{◌≡◌, ◌≤◌, IfSome, true};
ghost use Rattle.cal_time.specs.Date.{IsDate};
ghost use Rattle.cal_schedule.specs.Workdays.{is_workday};
ghost use Rattle.cal_schedule.specs.WorkdaysConvention.{adjusted_date, following, preceding, is_in_month_of, first_in_same_month, IsAdjusted};

use crate::workdays::{Convention, Workdays};
use cal_date::day_number::day_number;
use cal_time::Date;

/// Returns `true` if both dates are in the same month of the same year.
fn is_in_month_of(date: Date, other: Date) -> bool
    ensures { result ≡ is_in_month_of date other }
{
    other.year() == date.year() && other.month() == date.month()
}

/// Returns the first date if it is in the month of `date`, else the second.
fn first_in_same_month(date: Date, first: Option<Date>, second: Option<Date>) -> Option<Date>
    ensures { result ≡ first_in_same_month date first second }
{
    match first {
        Some(other) if is_in_month_of(date, other) => Some(other),
        _ => second,
    }
}

impl Workdays<'_> {
    /// Moves a date by a convention, or returns `None` if the range has no such day.
    ///
    /// 31 August 2024 is a Saturday, and the Monday after it is Labor Day in the United States.
    /// With its holidays, `Following` moves it to 3 September, and `ModifiedFollowing` to 30
    /// August.
    pub fn adjust(&self, date: Date, convention: Convention) -> Option<Date>
        ensures value { result ≡ adjusted_date self.now convention date }
        ensures found { IfSome result (λ n. IsAdjusted self.now convention date n × IsDate n) }
        ensures in_range { IsDate date }
    {
        let day = day_number(date);
        match convention {
            Convention::Unadjusted => Some(date),
            Convention::Following => self.nth_from(day, 0),
            Convention::ModifiedFollowing => first_in_same_month(
                date,
                self.nth_from(day, 0),
                self.nth_before(day + 1, 0),
            ),
            Convention::Preceding => self.nth_before(day + 1, 0),
            Convention::ModifiedPreceding => first_in_same_month(
                date,
                self.nth_before(day + 1, 0),
                self.nth_from(day, 0),
            ),
        }
    }
}
