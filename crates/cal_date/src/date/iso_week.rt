//! Weekdays, ISO week dates, and the weeks of a year from Sunday or Monday on.
ghost use Rattle.std.specs.Prelude.{◌≡◌, ℕ, ℤ, ◌+◌, ◌-◌, ◌*◌, ◌/◌, ◌%◌, ◌^◌, ◌<◌, ◌≤◌, pos, ◌-ℤ◌, ◌↔◌, ◌⊎◌, IfOk, IfErr, IsErr, IsTrue, Ok, [], ◌∷◌};
ghost use Rattle.cal_units.specs.ComponentError.{FailsWith};
ghost use Rattle.cal_units.specs.Weekday.{index};
ghost use Rattle.cal_units.specs.Weeks.{first_weekday, weeks_in_year};
ghost use Rattle.cal_date.specs.ClosedForms.{iso_year_of, iso_week_of, year_of_week, ordinal_of_week, IsWeekByClosedForm, IsDayByClosedForm};
ghost use Rattle.cal_date.specs.Date.{first_year, year_at, ordinal_at, weekday_at, IsDate, IsYear, IsOrdinal, NoDate};
ghost use Rattle.cal_date.specs.DateLimits.{years_in_range};
ghost use Rattle.cal_date.specs.IsoWeekDate.{weekday_count, iso_year_at, iso_week_at, IsWeek, HasIsoWeekDate};
ghost use Rattle.cal_date.specs.Order.{IsBefore, iso_week_date_at};
ghost use Rattle.cal_date.specs.DateErrors.{year_out_of_range, week_out_of_range, weekday_out_of_range};

use crate::date::{Date, is_year};
use crate::error::{Component, ComponentRange};
use crate::limits::{MAX_YEAR, MIN_YEAR};
use cal_units::util::{days_in_year, weeks_in_year};
use cal_units::{Cycle, Weekday};

/// 2^32 / 7, rounded up: a number of days times this is its weeks, with 32 fractional bits.
pub(crate) const SEVENTH: u32 = 613_566_757;

impl Date {
    /// Creates a date from an ISO year, a week and a weekday: the week date of ISO 8601.
    ///
    /// A week begins on Monday, and belongs to the year of its Thursday. The year is from -999999
    /// to 999999, and the week from 1 to 52, or 53 in a year with 53 Thursdays. Friday of week 53
    /// of 2020 is 2021-01-01, and Monday of week 1 of 2020 is 2019-12-30.
    ///
    /// Returns the unconditional error `year` if the year is out of range, else the conditional
    /// error `week` if the week is. Returns the conditional error `weekday` if the date is after
    /// [`Self::MAX`]: for Saturday and Sunday of week 52 of 999999.
    pub fn from_iso_week_date(year: i32, week: u8, weekday: Weekday) -> Result<Self, ComponentRange>
        ensures every { (n : ℕ) → IsDate n → HasIsoWeekDate year week (index weekday) n
            → result ≡ Ok n }
        ensures value { IfOk result (λ n. IsDate n × HasIsoWeekDate year week (index weekday) n) }

        // It fails if and only if no day of the range has the ISO week date. The error names the
        // first component that is out of range.
        ensures error { IsErr result ↔ NoDate (HasIsoWeekDate year week (index weekday)) }
        ensures error_kind { IfErr result (λ e.
            (e ≡ year_out_of_range) ⊎ (e ≡ week_out_of_range) ⊎ (e ≡ weekday_out_of_range)) }
        ensures year { FailsWith year_out_of_range result ↔ ¬ IsYear year }
        ensures week { FailsWith week_out_of_range result ↔ IsYear year × ¬ IsWeek year week }
        ensures weekday { FailsWith weekday_out_of_range result
            ↔ IsYear year × IsWeek year week × NoDate (HasIsoWeekDate year week (index weekday)) }
        ensures closed_form { IfOk result (IsDayByClosedForm year week (index weekday + 1)) }
    {
        if !is_year(year) {
            return Err(ComponentRange::unconditional(Component::Year));
        }
        if !has_week(year, week) {
            return Err(ComponentRange::conditional(Component::Week));
        }
        let (calendar_year, ordinal) = ordinal_date_from_week(year, week, weekday);
        if calendar_year > MAX_YEAR {
            return Err(ComponentRange::conditional(Component::Weekday));
        }
        Ok(Date::at_ordinal(calendar_year, ordinal))
    }

    /// Returns the weekday. For 2021-01-01 it is Friday.
    #[tactic(auto, using(crate::proofs::IsoForms::weekdays))]
    pub fn weekday(self) -> Weekday
        ensures value { index result ≡ weekday_at self }
        ensures range { weekday_at self < 7 }
        ensures in_range { IsDate self }
    {
        Weekday::at(weekday_index(self.year_index(), self.ordinal_index()))
    }

    /// Returns the ISO week, from 1 to 53. For 2021-01-01 it is 53, the last week of 2020.
    pub fn iso_week(self) -> u8
        ensures value { result ≡ iso_week_at self }
        ensures range { IsWeek (iso_year_at self) result }
        ensures max { result ≤ 53 }
        ensures in_range { IsDate self }
    {
        let (_, week, _) = self.to_iso_week_date();
        week
    }

    /// Returns the ISO year, from -999999 to 999999, the week and the weekday: the week date of
    /// ISO 8601. For 2021-01-01 it is (2020, 53, Friday).
    pub fn to_iso_week_date(self) -> (i32, u8, Weekday)
        ensures value { HasIsoWeekDate result.0 result.1 (index result.2) self }
        ensures range { IsYear result.0 × IsWeek result.0 result.1 × (result.1 ≤ 53) }
        ensures in_range { IsDate self }
        ensures order { (n : ℕ) → IsDate n
            → (n < self) ↔ IsBefore (iso_week_date_at n)
            (result.0 ∷ pos result.1 ∷ pos (index result.2) ∷ []) }
        ensures closed_form { IsWeekByClosedForm (year_at self) (ordinal_at self)
            (weekday_at self + 1) result.0 result.1 }
    {
        let weekday = self.weekday();
        let (iso_year, week) = iso_year_and_week(self.year(), self.ordinal(), weekday);
        (iso_year, week, weekday)
    }

    /// Returns the number of Sundays of the year up to and including the date, from 0 to 53: its
    /// week if week 1 begins on the first Sunday. For 2019-01-01 it is 0, and for 2020-12-31 it is
    /// 52.
    #[tactic(auto, using(crate::proofs::Weekdays::weeks_begun))]
    pub fn sunday_based_week(self) -> u8
        ensures value { result ≡ weekday_count 6 self }
        ensures max { result ≤ 53 }
        ensures in_range { IsDate self }
    {
        ((self.ordinal() + 6 - u16::from(self.weekday().number_days_from_sunday())) / 7) as u8
    }

    /// Returns the number of Mondays of the year up to and including the date, from 0 to 53: its
    /// week if week 1 begins on the first Monday. For 2019-01-01 it is 0, and for 2020-12-31 it is
    /// 52.
    #[tactic(auto, using(crate::proofs::Weekdays::weeks_begun))]
    pub fn monday_based_week(self) -> u8
        ensures value { result ≡ weekday_count 0 self }
        ensures max { result ≤ 53 }
        ensures in_range { IsDate self }
    {
        ((self.ordinal() + 6 - u16::from(self.weekday().number_days_from_monday())) / 7) as u8
    }
}

/// Returns `true` if the year has the week. Every year has 52 weeks, so only a higher week needs a
/// count.
#[tactic(auto, using(crate::proofs::IsoForms::at_least_52_weeks))]
fn has_week(year: i32, week: u8) -> bool
    ensures { IsTrue result ↔ IsWeek year week }
{
    match week {
        0 => false,
        1..=52 => true,
        _ => week <= weeks_of_year(year),
    }
}

/// Returns the number of weeks of the year. Few dates need it, so it stays out of the common code.
#[cold]
fn weeks_of_year(year: i32) -> u8
    ensures { result ≡ weeks_in_year year }
{
    weeks_in_year(year)
}

/// Returns the index of the weekday, from 0 for Monday, of a day, given the number of years of the
/// range before its year and the number of days of its year before it.
fn weekday_index(years: u32, days: u32) -> u8
    requires years { years < years_in_range }
    requires days { days < 366 }
    ensures { (y : ℤ) → IsYear y → pos years ≡ y -ℤ first_year
        → result ≡ (first_weekday y + days) % 7 }
{
    // The first year of the range begins on a Monday. Each year of 365 days moves the weekday by
    // one, and each leap day by one more.
    rem_7(years + years / 4 - years / 100 + years / 400 + days)
}

/// Returns the whole weeks of a number of days.
pub(crate) fn div_7(days: u16) -> u8
    requires { days < 7 * 256 }
    ensures { result ≡ days / 7 }
{
    // 2^16 / 7, rounded up, is 9363.
    (u32::from(days) * 9363 >> 16) as u8
}

/// Returns the days past the whole weeks of a number of days: the fraction of a week times 7.
fn rem_7(days: u32) -> u8
    requires { days < 2 ^ 30 }
    ensures { result ≡ days % 7 }
{
    (u64::from(days.wrapping_mul(SEVENTH)) * 7 >> 32) as u8
}

/// Returns the ISO year and the week of a day, given its year in the range, its ordinal and its
/// weekday.
#[tactic(auto, using(crate::proofs::IsoForms::years_of_weeks), unfolding(crate::specs::ClosedForms::iso_year_of, crate::specs::ClosedForms::iso_week_of))]
fn iso_year_and_week(year: i32, ordinal: u16, weekday: Weekday) -> (i32, u8)
    requires year { IsYear year }
    requires ordinal { IsOrdinal year ordinal }
    ensures year { result.0 ≡ iso_year_of year ordinal (index weekday + 1) }
    ensures week { result.1 ≡ iso_week_of year ordinal (index weekday + 1) }
{
    let week = div_7(ordinal + 10 - u16::from(weekday.number_from_monday()));
    if week == 0 {
        return (year - 1, weeks_of_year(year - 1));
    }
    if week == 53 && weeks_of_year(year) == 52 {
        return (year + 1, 1);
    }
    (year, week)
}

/// Returns the year and the ordinal of a day, given its ISO year in the range, its week and its
/// weekday.
#[tactic(auto, using(crate::proofs::IsoForms::years_of_weeks), unfolding(crate::specs::ClosedForms::year_of_week, crate::specs::ClosedForms::ordinal_of_week))]
fn ordinal_date_from_week(year: i32, week: u8, weekday: Weekday) -> (i32, u16)
    requires year { IsYear year }
    requires week { IsWeek year week }
    ensures year { result.0 ≡ year_of_week year week (index weekday + 1) }
    ensures ordinal { result.1 ≡ ordinal_of_week year week (index weekday + 1) }
{
    // 4 January is always in week 1.
    let taken = u16::from(weekday_index((year - MIN_YEAR) as u32, 3)) + 1 + 3;
    let days = 7 * u16::from(week) + u16::from(weekday.number_from_monday());
    if days <= taken {
        return (year - 1, days_in_year(year - 1) + days - taken);
    }
    let ordinal = days - taken;
    if ordinal > 365 && ordinal > days_in_year(year) {
        return (year + 1, ordinal - days_in_year(year));
    }
    (year, ordinal)
}
