//! Matching a day against a rule.
ghost use Rattle.std.specs.Prelude.{◌≡◌, ◌<◌, ◌≤◌, ◌&&◌, ◌==◌, if◌then◌else◌, true};
ghost use Rattle.std.specs.List.{list_any};
ghost use Rattle.cal_time.specs.Date.{IsDate, month_at, ordinal_at, year_at};
ghost use Rattle.cal_time.specs.Lengths.{days_in_year};
ghost use Rattle.cal_time.specs.Month.{number as month_number};
ghost use Rattle.cal_schedule.specs.Rule.{allows, matches_start, matches_until, is_empty, matches_months, is_month_day, is_year_day, is_nth, is_nth_weekday, matches_days, matches_by_day, is_yearly, names_no_day, interval_or_1, passes, periods_past, unit_of};
ghost use Rattle.cal_schedule.specs.RuleSearch.{has_number, PassesByWeekday};
ghost use Rattle.cal_schedule.specs.declared.rule.rule.Frequency.TheVariants.{Weekly};

use crate::rule::rule::{ByDay, Frequency, Rule};
use crate::rule::unit::PeriodUnit;
use cal_time::util::{days_in_month, days_in_year};
use cal_time::{Cycle, Date, Month};

/// Returns `true` if an item with this number from the start and this number from the end, both
/// from 1, is the n-th. A negative n counts from the end.
pub(super) fn is_nth(n: i16, ahead: u32, back: u32) -> bool
    ensures { result ≡ is_nth n ahead back }
{
    let n = i64::from(n);
    if n < 0 {
        i64::from(back) == -n
    } else {
        i64::from(ahead) == n
    }
}

/// Returns the number of the month of a date.
fn month_number_of(date: Date) -> u8
    ensures { result ≡ month_at date }
{
    date.month().place() + 1
}

/// Returns `true` if one of the months has this number.
fn any_month(months: &[Month], number: u8) -> bool
    ensures { result ≡ list_any (λ m. month_number m == number) months.now }
{
    months.iter().any(|month| month.place() + 1 == number)
}

/// Returns `true` if the date is this day of its month.
#[tactic(auto, unfolding(crate::specs::Rule::is_month_day))]
fn is_month_day(date: Date, day: i8) -> bool
    ensures { result ≡ is_month_day date day }
{
    let length = days_in_month(date.month(), date.year());
    is_nth(
        i16::from(day),
        u32::from(date.day()),
        u32::from(length + 1 - date.day()),
    )
}

/// Returns `true` if the date is this day of its year.
#[tactic(auto, unfolding(crate::specs::Rule::is_year_day))]
fn is_year_day(date: Date, day: i16) -> bool
    ensures { result ≡ is_year_day date day }
{
    let length = days_in_year(date.year());
    is_nth(
        day,
        u32::from(date.ordinal()),
        u32::from(length + 1 - date.ordinal()),
    )
}

/// Returns `true` if the date is one of these days of its year.
fn any_year_day(days: &[i16], date: Date) -> bool
    ensures { result ≡ list_any (is_year_day date) days.now }
{
    days.iter().any(|day| is_year_day(date, *day))
}

/// Returns `true` if the date is one of these days of its month.
fn any_month_day(days: &[i8], date: Date) -> bool
    ensures { result ≡ list_any (is_month_day date) days.now }
{
    days.iter().any(|day| is_month_day(date, *day))
}

/// Returns `true` if the date is the n-th of its weekday in its year, or in its month.
#[tactic(auto, unfolding(crate::specs::Rule::is_nth_weekday))]
pub(crate) fn is_nth_in_period(of_year: bool, date: Date, n: i8) -> bool
    ensures value { result ≡ is_nth_weekday of_year date n }
    ensures in_range { IsDate date }
{
    let (index, length) = if of_year {
        (
            u32::from(date.ordinal()),
            u32::from(days_in_year(date.year())),
        )
    } else {
        (
            u32::from(date.day()),
            u32::from(days_in_month(date.month(), date.year())),
        )
    };
    is_nth(i16::from(n), (index + 6) / 7, (length - index) / 7 + 1)
}

/// Returns `true` if the date has this weekday, and its number if it has one.
#[tactic(auto, unfolding(crate::specs::Rule::matches_by_day))]
fn matches_by_day(of_year: bool, date: Date, by: ByDay) -> bool
    ensures { result ≡ matches_by_day of_year date by }
{
    match by {
        ByDay::Every(weekday) => date.weekday() == weekday,
        ByDay::Nth(n, weekday) => date.weekday() == weekday && is_nth_in_period(of_year, date, n),
    }
}

/// Returns `true` if the date has one of these weekdays, and its number if it has one.
fn any_weekday(weekdays: &[ByDay], of_year: bool, date: Date) -> bool
    ensures { result ≡ list_any (matches_by_day of_year date) weekdays.now }
{
    weekdays.iter().any(|by| matches_by_day(of_year, date, *by))
}

/// Returns `true` if the weekday has a number.
fn has_number(by: ByDay) -> bool
    ensures { result ≡ has_number by }
{
    matches!(by, ByDay::Nth(_, _))
}

/// Returns `true` if one of the weekdays has a number.
fn any_has_number(weekdays: &[ByDay]) -> bool
    ensures { result ≡ list_any has_number weekdays.now }
{
    weekdays.iter().any(|by| has_number(*by))
}

impl Rule {
    /// Returns `true` if only weekdays without numbers say which days pass.
    #[tactic(auto, using(crate::proofs::WeeklyRules::by_weekday))]
    pub(super) fn has_only_weekdays(&self) -> bool
        ensures { result ≡ true → PassesByWeekday self.now }
    {
        self.pattern.months.is_empty()
            && self.pattern.weeks.is_empty()
            && self.pattern.year_days.is_empty()
            && self.pattern.month_days.is_empty()
            && !self.pattern.weekdays.is_empty()
            && !any_has_number(self.pattern.weekdays.as_slice())
    }

    /// Returns the interval, or 1 if it is 0.
    pub(super) fn interval_or_1(&self) -> u32
        ensures value { result ≡ interval_or_1 self.now }
        ensures min { 1 ≤ result }
    {
        self.pattern.interval.max(1)
    }

    /// Returns `true` if the rule has no days of the year or of the month, and no weekdays.
    fn names_no_day(&self) -> bool
        ensures { result ≡ names_no_day self.now }
    {
        self.pattern.year_days.is_empty()
            && self.pattern.month_days.is_empty()
            && self.pattern.weekdays.is_empty()
    }

    /// Returns the periods that the rule counts.
    #[tactic(auto, unfolding(crate::specs::Rule::unit_of))]
    pub(super) fn unit(&self) -> PeriodUnit
        ensures { result ≡ unit_of self.now }
    {
        match self.pattern.frequency {
            Frequency::Daily => PeriodUnit::Day,
            Frequency::Weekly => PeriodUnit::Week(self.pattern.week_start),
            Frequency::Monthly => PeriodUnit::Month,
            Frequency::Yearly => {
                if self.pattern.weeks.is_empty() {
                    PeriodUnit::Year
                } else {
                    PeriodUnit::WeekYear(self.pattern.week_start)
                }
            }
        }
    }

    /// Returns `true` if the rule is yearly.
    fn is_yearly(&self) -> bool
        ensures { result ≡ is_yearly self.now.pattern.frequency }
    {
        matches!(self.pattern.frequency, Frequency::Yearly)
    }

    /// Returns `true` if the month of the date passes the rule.
    #[tactic(auto, unfolding(crate::specs::Rule::matches_months))]
    pub(super) fn matches_months(&self, date: Date) -> bool
        ensures { result ≡ matches_months self.now date }
    {
        let month = month_number_of(date);
        if self.pattern.months.is_empty() {
            !(self.is_yearly() && self.pattern.weeks.is_empty() && self.names_no_day())
                || month == month_number_of(self.start)
        } else {
            any_month(self.pattern.months.as_slice(), month)
        }
    }

    /// Returns `true` if the date has the day of the start: its weekday in a weekly rule or one
    /// with weeks, its day of the month in another monthly or yearly rule.
    fn matches_start(&self, date: Date) -> bool
        ensures { result ≡ matches_start
            (if is_empty self.now.pattern.weeks then self.now.pattern.frequency else Weekly) self.now.start date }
    {
        if !self.pattern.weeks.is_empty() {
            return date.weekday() == self.start.weekday();
        }
        match self.pattern.frequency {
            Frequency::Daily => true,
            Frequency::Weekly => date.weekday() == self.start.weekday(),
            Frequency::Monthly | Frequency::Yearly => date.day() == self.start.day(),
        }
    }

    /// Returns `true` if the date passes the days of the year and of the month and the weekdays, or
    /// has the day of the start if the rule names no day.
    #[tactic(auto, unfolding(crate::specs::Rule::matches_days))]
    fn matches_days(&self, date: Date) -> bool
        ensures { result ≡ matches_days self.now date }
    {
        if self.names_no_day() {
            return self.matches_start(date);
        }
        let of_year = self.is_yearly() && self.pattern.months.is_empty();
        (self.pattern.year_days.is_empty() || any_year_day(self.pattern.year_days.as_slice(), date))
            && (self.pattern.month_days.is_empty()
                || any_month_day(self.pattern.month_days.as_slice(), date))
            && (self.pattern.weekdays.is_empty()
                || any_weekday(self.pattern.weekdays.as_slice(), of_year, date))
    }

    /// Returns `true` if the date passes the months, the weeks and the days.
    #[tactic(auto, unfolding(crate::specs::Rule::passes))]
    #[inline(always)]
    pub(super) fn passes(&self, date: Date) -> bool
        ensures { result ≡ passes self.now date }
    {
        self.matches_months(date) && self.matches_weeks(date) && self.matches_days(date)
    }

    /// Returns `true` if the date is not after the last day, if there is one.
    pub(super) fn matches_until(&self, date: Date) -> bool
        ensures { result ≡ matches_until self.now.until date }
    {
        match self.until {
            Some(last) => date <= last,
            None => true,
        }
    }

    /// Returns the number of periods since the last selected one, 0 if the period of the date is
    /// selected.
    #[tactic(auto, unfolding(crate::specs::Rule::periods_past))]
    pub(super) fn periods_past(&self, date: Date) -> u32
        requires { self.now.start ≤ date }
        ensures value { result ≡ periods_past self.now date }
        ensures range { result < interval_or_1 self.now }
    {
        (self.period(date) - self.period(self.start)) % self.interval_or_1()
    }
}
