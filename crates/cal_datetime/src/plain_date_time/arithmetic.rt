//! Date-times plus and minus durations, and the durations between them.
ghost use Rattle.std.specs.Prelude.{◌≡◌, ℤ, ◌+ℤ◌, ◌-ℤ◌, Some, SomeIff};
ghost use Rattle.cal_time.specs.SignedDuration.{IsDuration};
ghost use Rattle.cal_datetime.specs.DateTime.{IsDateTime, clamped_date_time};

use crate::PlainDateTime;
use crate::laws::{max_date_time, min_date_time};
use cal_time::{SignedDuration, add_to_pair, sub_from_pair};
use std::ops::{Add, AddAssign, Sub, SubAssign};

impl PlainDateTime {
    /// Adds a duration, or returns `None` if the result is out of range. 2020-12-31 23:00 plus two
    /// hours is 2021-01-01 1:00.
    pub fn checked_add(self, duration: SignedDuration) -> Option<Self>
        ensures value { SomeIff result (IsDateTime (self +ℤ duration)) (self +ℤ duration) }
        ensures every { (to : ℤ) → IsDateTime to → duration ≡ to -ℤ self → result ≡ Some to }
        ensures in_range { IsDateTime self }
    {
        match add_to_pair(self.date, self.time, duration) {
            Some((date, time)) => Some(Self::new(date, time)),
            None => None,
        }
    }

    /// Subtracts a duration, or returns `None` if the result is out of range. 2021-01-01 1:00 minus
    /// two hours is 2020-12-31 23:00.
    pub fn checked_sub(self, duration: SignedDuration) -> Option<Self>
        ensures value { SomeIff result (IsDateTime (self -ℤ duration)) (self -ℤ duration) }
        ensures every { (to : ℤ) → IsDateTime to → duration ≡ self -ℤ to → result ≡ Some to }
        ensures in_range { IsDateTime self }
    {
        match sub_from_pair(self.date, self.time, duration) {
            Some((date, time)) => Some(Self::new(date, time)),
            None => None,
        }
    }

    /// Adds a duration. A result out of range is clamped to the first or the last date-time.
    /// [`Self::MAX`] plus one nanosecond is [`Self::MAX`].
    pub fn saturating_add(self, duration: SignedDuration) -> Self
        ensures { result ≡ clamped_date_time (self +ℤ duration) }
    {
        match self.checked_add(duration) {
            Some(moved) => moved,
            None if duration.is_negative() => min_date_time(),
            None => max_date_time(),
        }
    }

    /// Subtracts a duration. A result out of range is clamped to the first or the last date-time.
    /// [`Self::MIN`] minus one nanosecond is [`Self::MIN`].
    pub fn saturating_sub(self, duration: SignedDuration) -> Self
        ensures { result ≡ clamped_date_time (self -ℤ duration) }
    {
        match self.checked_sub(duration) {
            Some(moved) => moved,
            None if duration.is_negative() => max_date_time(),
            None => min_date_time(),
        }
    }
}

impl Add<SignedDuration> for PlainDateTime {
    type Output = Self;

    ghost can_add = { λ m v. IsDateTime (m +ℤ v) };

    ghost add_gives = { λ m v moved. moved ≡ m +ℤ v };

    /// Adds a duration. The result must be in range.
    fn add(self, duration: SignedDuration) -> Self {
        self.checked_add(duration).unwrap()
    }
}

impl AddAssign<SignedDuration> for PlainDateTime {
    ghost can_add_assign = { λ m v. IsDateTime (m +ℤ v) };

    ghost add_assign_gives = { λ m v moved. moved ≡ m +ℤ v };

    fn add_assign(&mut self, duration: SignedDuration) {
        *self = *self + duration;
    }
}

impl Sub<SignedDuration> for PlainDateTime {
    type Output = Self;

    ghost can_sub = { λ m v. IsDateTime (m -ℤ v) };

    ghost sub_gives = { λ m v moved. moved ≡ m -ℤ v };

    /// Subtracts a duration. The result must be in range.
    fn sub(self, duration: SignedDuration) -> Self {
        self.checked_sub(duration).unwrap()
    }
}

impl SubAssign<SignedDuration> for PlainDateTime {
    ghost can_sub_assign = { λ m v. IsDateTime (m -ℤ v) };

    ghost sub_assign_gives = { λ m v moved. moved ≡ m -ℤ v };

    fn sub_assign(&mut self, duration: SignedDuration) {
        *self = *self - duration;
    }
}

impl Sub for PlainDateTime {
    type Output = SignedDuration;

    ghost sub_gives = { λ a b v. (v ≡ a -ℤ b) × IsDateTime a × IsDateTime b × IsDuration v };

    /// Returns the duration from `other` to this date-time, negative if `other` is later.
    /// 2021-01-01 1:00 minus 2020-12-31 23:00 is two hours.
    fn sub(self, other: Self) -> SignedDuration {
        (self.date - other.date) + (self.time - other.time)
    }
}
