//! Date-times at an offset plus and minus durations, and the durations between them.
ghost use Rattle.std.specs.Prelude.{◌≡◌, ◌+ℤ◌, ◌-ℤ◌, Some, IfSome, SomeIff};
ghost use Rattle.cal_time.specs.SignedDuration.{IsDuration};
ghost use Rattle.cal_datetime.specs.DateTime.{IsDateTime, clamped_date_time};
ghost use Rattle.cal_datetime.specs.OffsetDateTime.{LocalAndOffset, instant};

use crate::OffsetDateTime;
use crate::offset_date_time::offset_difference;
use cal_time::SignedDuration;
use std::ops::{Add, AddAssign, Sub, SubAssign};

impl OffsetDateTime {
    /// Adds a duration and keeps the offset. Returns `None` if the local result is out of range.
    /// 2020-12-31 23:00 +01:00:00 plus two hours is 2021-01-01 1:00 +01:00:00.
    #[tactic(auto, unfolding(crate::specs::OffsetDateTime::instant))]
    pub fn checked_add(self, duration: SignedDuration) -> Option<Self>
        ensures value { let local = self.local +ℤ duration
            in SomeIff result (IsDateTime local) (record { local = local; offset = self.offset }) }
        ensures every { (to : LocalAndOffset) → IsDateTime to.local → to.offset ≡ self.offset
            → duration ≡ instant to -ℤ instant self
            → result ≡ Some to }
        ensures instant { IfSome result (λ later. instant later ≡ instant self +ℤ duration) }
    {
        match self.local().checked_add(duration) {
            Some(local) => Some(local.assume_offset(self.offset())),
            None => None,
        }
    }

    /// Subtracts a duration and keeps the offset. Returns `None` if the local result is out of
    /// range. 2021-01-01 1:00 +01:00:00 minus two hours is 2020-12-31 23:00 +01:00:00.
    #[tactic(auto, unfolding(crate::specs::OffsetDateTime::instant))]
    pub fn checked_sub(self, duration: SignedDuration) -> Option<Self>
        ensures value { let local = self.local -ℤ duration
            in SomeIff result (IsDateTime local) (record { local = local; offset = self.offset }) }
        ensures every { (to : LocalAndOffset) → IsDateTime to.local → to.offset ≡ self.offset
            → duration ≡ instant self -ℤ instant to
            → result ≡ Some to }
        ensures instant { IfSome result (λ earlier. instant earlier ≡ instant self -ℤ duration) }
    {
        match self.local().checked_sub(duration) {
            Some(local) => Some(local.assume_offset(self.offset())),
            None => None,
        }
    }

    /// Adds a duration and keeps the offset. A local result out of range is clamped to the first or
    /// the last date-time. 999999-12-31 23:00 +01:00:00 plus two hours is 999999-12-31
    /// 23:59:59.999999999 +01:00:00.
    pub fn saturating_add(self, duration: SignedDuration) -> Self
        ensures { result ≡ record {
          local = clamped_date_time (self.local +ℤ duration);
          offset = self.offset;
        } }
    {
        self.local()
            .saturating_add(duration)
            .assume_offset(self.offset())
    }

    /// Subtracts a duration and keeps the offset. A local result out of range is clamped to the
    /// first or the last date-time. -999999-01-01 1:00 +01:00:00 minus two hours is -999999-01-01
    /// 0:00 +01:00:00.
    pub fn saturating_sub(self, duration: SignedDuration) -> Self
        ensures { result ≡ record {
          local = clamped_date_time (self.local -ℤ duration);
          offset = self.offset;
        } }
    {
        self.local()
            .saturating_sub(duration)
            .assume_offset(self.offset())
    }
}

impl Add<SignedDuration> for OffsetDateTime {
    type Output = Self;

    ghost can_add = { λ m v. IsDateTime (m.local +ℤ v) };

    ghost add_gives = { λ m v moved.
        (moved ≡ record { local = m.local +ℤ v; offset = m.offset })
        × (instant moved ≡ instant m +ℤ v) };

    /// Adds a duration and keeps the offset. The local result must be in range.
    fn add(self, duration: SignedDuration) -> Self {
        self.checked_add(duration).unwrap()
    }
}

impl AddAssign<SignedDuration> for OffsetDateTime {
    ghost can_add_assign = { λ m v. IsDateTime (m.local +ℤ v) };

    ghost add_assign_gives = { λ m v moved.
        (moved ≡ record { local = m.local +ℤ v; offset = m.offset })
        × (instant moved ≡ instant m +ℤ v) };

    fn add_assign(&mut self, duration: SignedDuration) {
        *self = *self + duration;
    }
}

impl Sub<SignedDuration> for OffsetDateTime {
    type Output = Self;

    ghost can_sub = { λ m v. IsDateTime (m.local -ℤ v) };

    ghost sub_gives = { λ m v moved.
        (moved ≡ record { local = m.local -ℤ v; offset = m.offset })
        × (instant moved ≡ instant m -ℤ v) };

    /// Subtracts a duration and keeps the offset. The local result must be in range.
    fn sub(self, duration: SignedDuration) -> Self {
        self.checked_sub(duration).unwrap()
    }
}

impl SubAssign<SignedDuration> for OffsetDateTime {
    ghost can_sub_assign = { λ m v. IsDateTime (m.local -ℤ v) };

    ghost sub_assign_gives = { λ m v moved.
        (moved ≡ record { local = m.local -ℤ v; offset = m.offset })
        × (instant moved ≡ instant m -ℤ v) };

    fn sub_assign(&mut self, duration: SignedDuration) {
        *self = *self - duration;
    }
}

impl Sub for OffsetDateTime {
    type Output = SignedDuration;

    ghost sub_gives = { λ a b v. (v ≡ instant a -ℤ instant b) × IsDateTime a.local
        × IsDateTime b.local × IsDuration v };

    /// Returns the duration from the instant of `other` to this one, negative if `other` is later.
    /// 2024-02-29 8:00 +01:00:00 minus 2024-02-29 8:00 +02:00:00 is one hour.
    #[tactic(auto, unfolding(crate::specs::OffsetDateTime::instant))]
    fn sub(self, other: Self) -> SignedDuration {
        self.local() - other.local() + offset_difference(other.offset(), self.offset())
    }
}
