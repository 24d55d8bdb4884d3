//! Dates moved by durations, and the durations between dates.
ghost use Rattle.std.specs.Prelude.{◌≡◌, pos, ◌+ℤ◌, ◌-ℤ◌, ◌*ℤ◌, SomeIff, IfSome, IsSomeAnd};
ghost use Rattle.cal_span.specs.SignedDuration.{day, whole_days};
ghost use Rattle.cal_date.specs.Date.{year_at, ordinal_at, IsDate};
ghost use Rattle.cal_date.specs.Arithmetic.{IsDateNumber, IsOrdinalNumber, clamped_date};

use crate::date::Date;
use cal_span::SignedDuration;
use std::ops::{Add, AddAssign, Sub, SubAssign};

impl Date {
    /// Adds the whole days of the duration, truncated toward zero. Returns `None` if the result is
    /// out of range.
    ///
    /// 2020-12-31 plus 47 hours is 2021-01-01. [`Self::MIN`] plus -23 hours is [`Self::MIN`].
    pub fn checked_add(self, duration: SignedDuration) -> Option<Self>
        ensures value { SomeIff result (IsDateNumber (pos self +ℤ whole_days duration))
            (clamped_date (pos self +ℤ whole_days duration)) }
        ensures found { IfSome result (λ n. pos n ≡ pos self +ℤ whole_days duration) }
        ensures same_year { IsOrdinalNumber (year_at self)
            (pos (ordinal_at self) +ℤ whole_days duration)
            → IsSomeAnd result (λ n. (year_at n ≡ year_at self)
            × (pos (ordinal_at n) ≡ pos (ordinal_at self) +ℤ whole_days duration)) }
        ensures in_range { IsDate self }
    {
        self.checked_add_days(duration.whole_days())
    }

    /// Subtracts the whole days of the duration, truncated toward zero. Returns `None` if the
    /// result is out of range. 2020-12-31 minus 47 hours is 2020-12-30.
    pub fn checked_sub(self, duration: SignedDuration) -> Option<Self>
        ensures value { SomeIff result (IsDateNumber (pos self -ℤ whole_days duration))
            (clamped_date (pos self -ℤ whole_days duration)) }
        ensures found { IfSome result (λ n. pos n ≡ pos self -ℤ whole_days duration) }
        ensures same_year { IsOrdinalNumber (year_at self)
            (pos (ordinal_at self) -ℤ whole_days duration)
            → IsSomeAnd result (λ n. (year_at n ≡ year_at self)
            × (pos (ordinal_at n) ≡ pos (ordinal_at self) -ℤ whole_days duration)) }
        ensures in_range { IsDate self }
    {
        // If the days can't be negated, the date is out of range.
        let days = duration.whole_days().checked_neg()?;
        self.checked_add_days(days)
    }

    /// Adds the whole days of the duration, truncated toward zero, and clamps the result to the
    /// range. [`Self::MAX`] plus one day is [`Self::MAX`].
    pub fn saturating_add(self, duration: SignedDuration) -> Self
        ensures value { result ≡ clamped_date (pos self +ℤ whole_days duration) }
        ensures in_range { IsDate self }
    {
        match self.checked_add(duration) {
            Some(date) => date,
            None if duration.is_negative() => Self::MIN,
            None => Self::MAX,
        }
    }

    /// Subtracts the whole days of the duration, truncated toward zero, and clamps the result to
    /// the range. [`Self::MIN`] minus one day is [`Self::MIN`].
    pub fn saturating_sub(self, duration: SignedDuration) -> Self
        ensures value { result ≡ clamped_date (pos self -ℤ whole_days duration) }
        ensures in_range { IsDate self }
    {
        match self.checked_sub(duration) {
            Some(date) => date,
            None if duration.is_negative() => Self::MAX,
            None => Self::MIN,
        }
    }

    /// Returns the date `days` days later, or earlier if `days` is negative, or `None` if it is out
    /// of range.
    fn checked_add_days(self, days: i64) -> Option<Self>
        ensures value { SomeIff result (IsDateNumber (pos self +ℤ days))
            (clamped_date (pos self +ℤ days)) }
        ensures in_range { IsDate self }
    {
        // Here a negative number becomes 2^64 more. A negative sum is then far above the length of
        // a year and above the number of the last day.
        let days = days.cast_unsigned();
        let index = days.wrapping_add(u64::from(self.ordinal()) - 1);
        if let Some(date) = self.at_index_in_year(index) {
            return Some(date);
        }
        Self::checked_from_number(days.wrapping_add(u64::from(self.day_number())))
    }
}

impl Add<SignedDuration> for Date {
    type Output = Self;

    ghost can_add = { λ n v. IsDateNumber (pos n +ℤ whole_days v) };

    ghost add_gives = { λ n v moved. (pos moved ≡ pos n +ℤ whole_days v) × IsDate n };

    /// Adds the whole days of the duration, truncated toward zero. The result must be in the range.
    /// 2020-12-31 plus 47 hours is 2021-01-01.
    fn add(self, duration: SignedDuration) -> Self {
        self.checked_add(duration).unwrap()
    }
}

impl AddAssign<SignedDuration> for Date {
    ghost can_add_assign = { λ n v. IsDateNumber (pos n +ℤ whole_days v) };

    ghost add_assign_gives = { λ n v moved. (pos moved ≡ pos n +ℤ whole_days v) × IsDate n };

    fn add_assign(&mut self, duration: SignedDuration) {
        *self = *self + duration;
    }
}

impl Sub<SignedDuration> for Date {
    type Output = Self;

    ghost can_sub = { λ n v. IsDateNumber (pos n -ℤ whole_days v) };

    ghost sub_gives = { λ n v moved. (pos moved ≡ pos n -ℤ whole_days v) × IsDate n };

    /// Subtracts the whole days of the duration, truncated toward zero. The result must be in the
    /// range. 2020-12-31 minus 47 hours is 2020-12-30.
    fn sub(self, duration: SignedDuration) -> Self {
        self.checked_sub(duration).unwrap()
    }
}

impl SubAssign<SignedDuration> for Date {
    ghost can_sub_assign = { λ n v. IsDateNumber (pos n -ℤ whole_days v) };

    ghost sub_assign_gives = { λ n v moved. (pos moved ≡ pos n -ℤ whole_days v) × IsDate n };

    fn sub_assign(&mut self, duration: SignedDuration) {
        *self = *self - duration;
    }
}

impl Sub for Date {
    type Output = SignedDuration;

    ghost sub_gives = { λ m n v. (v ≡ (pos m -ℤ pos n) *ℤ pos day) × IsDate m × IsDate n };

    /// Returns the difference, negative if `other` is later: 1 day for 2020-01-01 minus 2019-12-31.
    fn sub(self, other: Self) -> SignedDuration {
        let days = self.to_julian_day() - other.to_julian_day();
        SignedDuration::days(i64::from(days))
    }
}
