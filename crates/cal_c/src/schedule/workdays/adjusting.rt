//! Days moved to working days by their ranks.
ghost use Rattle.std.specs.Prelude.{◌≡◌, IfSome};
ghost use Rattle.cal_time.specs.Date.{IsDate};
ghost use Rattle.cal_schedule.specs.WorkdaysConvention.{adjusted_date, first_in_same_month, following, is_in_month_of, preceding};
ghost use Rattle.cal_c.specs.CheckedWorkdays.{week_of, AreCounted};

use crate::schedule::workdays::ranks::RankedWorkdays;
use cal_date::day_number::to_date;
use cal_schedule::Convention;

/// Returns `true` if both days are in the same month of the same year.
fn is_in_month_of(day: u32, other: u32) -> bool
    requires { IsDate day × IsDate other }
    ensures { result ≡ is_in_month_of day other }
{
    let (date, other) = (to_date(day), to_date(other));
    other.year() == date.year() && other.month() == date.month()
}

/// Returns the first day if it is in the month of `day`, else the second.
fn first_in_same_month(day: u32, first: Option<u32>, second: Option<u32>) -> Option<u32>
    requires { IsDate day × IfSome first IsDate × IfSome second IsDate }
    ensures value { result ≡ first_in_same_month day first second }
    ensures range { IfSome result IsDate }
{
    match first {
        Some(other) if is_in_month_of(day, other) => Some(other),
        _ => second,
    }
}

impl RankedWorkdays<'_> {
    /// Returns the first working day from a day on.
    fn following(&self, day: u32) -> Option<u32>
        requires { IsDate day }
        ensures value { AreCounted self.now → result ≡ following (week_of self.now) day }
        ensures range { IfSome result IsDate }
    {
        self.day_of_rank(self.rank(day))
    }

    /// Returns the last working day up to a day.
    fn preceding(&self, day: u32) -> Option<u32>
        requires { IsDate day }
        ensures value { AreCounted self.now → result ≡ preceding (week_of self.now) day }
        ensures range { IfSome result IsDate }
    {
        self.day_of_rank(self.rank(day + 1) - 1)
    }

    /// Moves a day by a convention.
    pub fn adjust(&self, day: u32, convention: Convention) -> Option<u32>
        requires { IsDate day }
        ensures value { AreCounted self.now → result ≡ adjusted_date (week_of self.now) convention day }
        ensures range { IfSome result IsDate }
    {
        match convention {
            Convention::Unadjusted => Some(day),
            Convention::Following => self.following(day),
            Convention::ModifiedFollowing => {
                first_in_same_month(day, self.following(day), self.preceding(day))
            }
            Convention::Preceding => self.preceding(day),
            Convention::ModifiedPreceding => {
                first_in_same_month(day, self.preceding(day), self.following(day))
            }
        }
    }
}
