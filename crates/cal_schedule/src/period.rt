//! Periods of years, months, weeks, days and an exact duration.
ghost use Rattle.std.specs.Prelude.{◌≡◌, ◌↔◌, ℤ, pos, ◌*ℤ◌, ◌≤ℤ◌, ◌+ℤ◌, IsTrue, SomeIff, Some};
ghost use Rattle.cal_schedule.specs.Period.{days_of, months_of, parts, IsNotNegative, IsNotPositive, IsOneSign};

use cal_time::SignedDuration;
use std::marker::Model;

/// Years, months, weeks, days and an exact duration: how much later something is by the calendar
/// and by the clock.
///
/// No part is negative if another one is positive. Parts are kept as they are given: 12 months
/// aren't a year, and 7 days aren't a week, although they move a date alike.
#[derive(Clone, Copy, Debug, PartialEq, Eq)]
pub struct Period {
    years: i32,
    months: i32,
    weeks: i32,
    days: i32,
    duration: SignedDuration,
}

impl Model for Period {
    ghost use Rattle.cal_schedule.specs.Period.{IsOneSign, Parts};
    ghost use Rattle.cal_schedule.specs.PeriodFields.{parts_of, fields_of, fields_of-parts_of};

    ghost Value = { Parts };

    ghost view = { parts_of };

    ghost invariant = { λ p. IsOneSign (parts_of p) };

    ghost inverse = { fields_of };

    ghost inverse_ok = { fields_of-parts_of };
}

impl Period {
    /// Creates a period from its parts. Returns `None` if one part is positive and another one
    /// negative. A month and an hour are a period, and a month less an hour isn't.
    pub fn new(
        years: i32,
        months: i32,
        weeks: i32,
        days: i32,
        duration: SignedDuration,
    ) -> Option<Self>
        ensures { SomeIff result (IsOneSign (parts years months weeks days duration))
            (parts years months weeks days duration) }
    {
        if !is_one_sign(years, months, weeks, days, duration) {
            return None;
        }
        Some(Period {
            years,
            months,
            weeks,
            days,
            duration,
        })
    }

    /// Creates a period of years. 4 years after 29 February 2024 is 29 February 2028.
    pub fn from_years(years: i32) -> Self
        ensures { result ≡ parts years (pos 0) (pos 0) (pos 0) (pos 0) }
    {
        Period {
            years,
            months: 0,
            weeks: 0,
            days: 0,
            duration: SignedDuration::ZERO,
        }
    }

    /// Creates a period of months. A month after 31 January 2024 is 29 February.
    pub fn from_months(months: i32) -> Self
        ensures { result ≡ parts (pos 0) months (pos 0) (pos 0) (pos 0) }
    {
        Period {
            years: 0,
            months,
            weeks: 0,
            days: 0,
            duration: SignedDuration::ZERO,
        }
    }

    /// Creates a period of weeks. 2 weeks after 20 February 2024 is 5 March.
    pub fn from_weeks(weeks: i32) -> Self
        ensures { result ≡ parts (pos 0) (pos 0) weeks (pos 0) (pos 0) }
    {
        Period {
            years: 0,
            months: 0,
            weeks,
            days: 0,
            duration: SignedDuration::ZERO,
        }
    }

    /// Creates a period of days. 10 days after 20 February 2024 is 1 March.
    pub fn from_days(days: i32) -> Self
        ensures { result ≡ parts (pos 0) (pos 0) (pos 0) days (pos 0) }
    {
        Period {
            years: 0,
            months: 0,
            weeks: 0,
            days,
            duration: SignedDuration::ZERO,
        }
    }

    /// Creates a period of an exact duration. 24 hours aren't a day: in a zone a day can have 23.
    pub fn from_duration(duration: SignedDuration) -> Self
        ensures { result ≡ parts (pos 0) (pos 0) (pos 0) (pos 0) duration }
    {
        Period {
            years: 0,
            months: 0,
            weeks: 0,
            days: 0,
            duration,
        }
    }

    /// Replaces the exact duration. Returns `None` if it is positive and another part negative, or
    /// the other way round. A month with an hour is a month and an hour.
    pub fn with_duration(self, duration: SignedDuration) -> Option<Self>
        ensures { let p = parts self.years self.months self.weeks self.days duration
            in SomeIff result (IsOneSign p) p }
    {
        Self::new(self.years, self.months, self.weeks, self.days, duration)
    }

    /// Returns the years.
    pub fn years(self) -> i32
        ensures { result ≡ self.years }
    {
        self.years
    }

    /// Returns the months past the years.
    pub fn months(self) -> i32
        ensures { result ≡ self.months }
    {
        self.months
    }

    /// Returns the weeks.
    pub fn weeks(self) -> i32
        ensures { result ≡ self.weeks }
    {
        self.weeks
    }

    /// Returns the days past the weeks.
    pub fn days(self) -> i32
        ensures { result ≡ self.days }
    {
        self.days
    }

    /// Returns the exact duration past the days.
    pub fn duration(self) -> SignedDuration
        ensures { result ≡ self.exact }
    {
        self.duration
    }

    /// Returns the years and the months as months.
    pub fn whole_months(self) -> i64
        ensures value { result ≡ months_of self }
        ensures one_sign { IsOneSign self }
    {
        in_months(self.years, self.months)
    }

    /// Returns the weeks and the days as days.
    pub fn whole_days(self) -> i64
        ensures { result ≡ days_of self }
    {
        in_days(self.weeks, self.days)
    }
}

/// Returns years and months as months.
fn in_months(years: i32, months: i32) -> i64
    ensures { result ≡ pos 12 *ℤ years +ℤ months }
{
    i64::from(years) * 12 + i64::from(months)
}

/// Returns weeks and days as days.
fn in_days(weeks: i32, days: i32) -> i64
    ensures { result ≡ pos 7 *ℤ weeks +ℤ days }
{
    i64::from(weeks) * 7 + i64::from(days)
}

/// Returns `true` if no part has another sign than another part.
fn is_one_sign(years: i32, months: i32, weeks: i32, days: i32, duration: SignedDuration) -> bool
    ensures { IsTrue result ↔ IsOneSign (parts years months weeks days duration) }
{
    rises(years, months, weeks, days, duration) || falls(years, months, weeks, days, duration)
}

/// Returns `true` if no part is negative.
fn rises(years: i32, months: i32, weeks: i32, days: i32, duration: SignedDuration) -> bool
    ensures { IsTrue result ↔ IsNotNegative (parts years months weeks days duration) }
{
    years >= 0 && months >= 0 && rest_rises(weeks, days, duration)
}

/// Returns `true` if no part from weeks on is negative.
fn rest_rises(weeks: i32, days: i32, duration: SignedDuration) -> bool
    ensures { IsTrue result ↔ ((pos 0 ≤ℤ weeks) × (pos 0 ≤ℤ days) × (pos 0 ≤ℤ duration)) }
{
    weeks >= 0 && days >= 0 && !duration.is_negative()
}

/// Returns `true` if no part is positive.
fn falls(years: i32, months: i32, weeks: i32, days: i32, duration: SignedDuration) -> bool
    ensures { IsTrue result ↔ IsNotPositive (parts years months weeks days duration) }
{
    years <= 0 && months <= 0 && rest_falls(weeks, days, duration)
}

/// Returns `true` if no part from weeks on is positive.
fn rest_falls(weeks: i32, days: i32, duration: SignedDuration) -> bool
    ensures { IsTrue result ↔ ((weeks ≤ℤ pos 0) × (days ≤ℤ pos 0) × (duration ≤ℤ pos 0)) }
{
    weeks <= 0 && days <= 0 && !duration.is_positive()
}
