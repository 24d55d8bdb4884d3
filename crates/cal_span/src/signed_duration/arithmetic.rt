//! Exact sums, differences, products and quotients of durations.

ghost use Rattle.std.specs.Prelude.{◌≡◌, ◌+◌, ◌*◌, ◌<◌, ◌≤◌, pos, neg_ℤ, ◌+ℤ◌, ◌-ℤ◌, ◌*ℤ◌, ◌≤ℤ◌, ◌<ℤ◌, unsigned_abs, FitsSigned, SomeIff};
ghost use Rattle.std.specs.Int.{w64};
ghost use Rattle.cal_span.specs.SignedDuration.{second, IsDuration, IsMagnitudeWithin, HasQuotient, HasSum, clamp, cut, subsec_nanoseconds, sum_of, with_sign};
ghost use Rattle.cal_span.specs.Fields.{CanCarry, IsCarry};

use crate::signed_duration::{NANOSECONDS_PER_SECOND, SignedDuration};

/// The maximum magnitude of a factor or a divisor: `u32::MAX`.
pub(super) const MAX_OPERAND: u64 = 4_294_967_295;

impl SignedDuration {
    /// Computes `self + rhs`. Returns `None` if the sum is out of range. [`Self::MAX`] plus
    /// [`Self::MIN`] is -1 s, and [`Self::MAX`] plus 1 ns is `None`.
    pub fn checked_add(self, rhs: Self) -> Option<Self>
        ensures { SomeIff result (IsDuration (self +ℤ rhs)) (self +ℤ rhs) }
    {
        let seconds = self.seconds.checked_add(rhs.seconds)?;
        Self::checked_new(seconds, self.nanoseconds + rhs.nanoseconds)
    }

    /// Computes `self - rhs`. Returns `None` if the difference is out of range. For example,
    /// `nanoseconds(-1)` minus `seconds(i64::MIN)` is [`Self::MAX`].
    pub fn checked_sub(self, rhs: Self) -> Option<Self>
        ensures { SomeIff result (IsDuration (self -ℤ rhs)) (self -ℤ rhs) }
    {
        let nanoseconds = self.nanoseconds - rhs.nanoseconds;
        match self.seconds.checked_sub(rhs.seconds) {
            Some(seconds) => Self::checked_new(seconds, nanoseconds),
            // The seconds are one above `i64::MAX`, so one second moves to the negative
            // nanoseconds.
            None if self.seconds == 0 && nanoseconds < 0 => Some(Self {
                seconds: i64::MAX,
                nanoseconds: nanoseconds + NANOSECONDS_PER_SECOND,
            }),
            None => None,
        }
    }

    /// Creates a duration from seconds and nanoseconds. Returns `None` if it is out of range.
    ///
    /// The nanoseconds are less than two seconds, or less than one second if they and the seconds
    /// have opposite signs.
    pub(super) fn checked_new(seconds: i64, nanoseconds: i32) -> Option<Self>
        requires { CanCarry seconds nanoseconds }
        ensures { SomeIff result (IsDuration (seconds *ℤ pos second +ℤ nanoseconds))
            (seconds *ℤ pos second +ℤ nanoseconds) }
    {
        let carry = carry_from_nanoseconds(seconds, nanoseconds);
        Some(Self {
            seconds: seconds.checked_add(i64::from(carry))?,
            nanoseconds: nanoseconds - carry * NANOSECONDS_PER_SECOND,
        })
    }

    /// Computes `self * rhs`. Returns `None` if the product is out of range. 2 s times -3 is -6 s,
    /// and [`Self::MIN`] times -1 is `None`.
    pub fn checked_mul(self, rhs: i32) -> Option<Self>
        ensures { SomeIff result (IsDuration (self *ℤ rhs)) (self *ℤ rhs) }
    {
        self.checked_product(i64::from(rhs))
    }

    /// Computes `self * factor`. Returns `None` if the product is out of range. The magnitude of
    /// the factor fits in a `u32`.
    pub(super) fn checked_product(self, factor: i64) -> Option<Self>
        requires { IsMagnitudeWithin MAX_OPERAND factor }
        ensures { SomeIff result (IsDuration (self *ℤ factor)) (self *ℤ factor) }
    {
        let past = self.subsec_nanoseconds_times(factor);
        Some(Self {
            seconds: checked_mul_add(self.seconds, factor, past.seconds)?,
            nanoseconds: past.nanoseconds,
        })
    }

    /// Computes the nanoseconds past the whole seconds, times `factor`, whose magnitude fits in a
    /// `u32`.
    fn subsec_nanoseconds_times(self, factor: i64) -> Self
        requires { IsMagnitudeWithin MAX_OPERAND factor }
        ensures { result ≡ subsec_nanoseconds self *ℤ factor }
    {
        Self::nanoseconds(i64::from(self.subsec_nanoseconds()) * factor)
    }

    /// Computes `self / rhs`, truncated toward zero. Returns `None` if `rhs` is zero or the
    /// quotient is out of range. -7.5 s divided by 2 is -3.75 s, and -1 ns divided by 2 is zero.
    pub fn checked_div(self, rhs: i32) -> Option<Self>
        ensures { SomeIff result (HasQuotient self rhs) (cut self rhs) }
    {
        self.checked_quotient(i64::from(rhs))
    }

    /// Computes `self / divisor`, truncated toward zero. Returns `None` if `divisor` is zero or the
    /// quotient is out of range. The magnitude of the divisor fits in a `u32`.
    pub(super) fn checked_quotient(self, divisor: i64) -> Option<Self>
        requires { IsMagnitudeWithin MAX_OPERAND divisor }
        ensures { SomeIff result (HasQuotient self divisor) (cut self divisor) }
    {
        if divisor == 0 {
            return None;
        }
        let size = divisor.unsigned_abs();
        let (seconds, nanoseconds) = self.unsigned_abs();
        let rest = seconds % size * NANOSECONDS_PER_SECOND as u64 + u64::from(nanoseconds);
        let is_negative = self.is_negative() != (divisor < 0);
        Self::checked_from_magnitude(is_negative, seconds / size, (rest / size) as u32)
    }

    /// Creates a duration from a sign and a magnitude. Returns `None` if it is out of range.
    fn checked_from_magnitude(is_negative: bool, seconds: u64, nanoseconds: u32) -> Option<Self>
        requires { nanoseconds < second }
        ensures { SomeIff result (IsDuration
            (with_sign is_negative (seconds * second + nanoseconds))) (with_sign is_negative
            (seconds * second + nanoseconds)) }
    {
        if seconds > i64::MAX as u64 + u64::from(is_negative) {
            return None;
        }
        let seconds = seconds.cast_signed();
        let nanoseconds = nanoseconds as i32;
        Some(if is_negative {
            Self {
                seconds: seconds.wrapping_neg(),
                nanoseconds: -nanoseconds,
            }
        } else {
            Self {
                seconds,
                nanoseconds,
            }
        })
    }

    /// Computes `-self`. Returns `None` if the result is out of range. For 1 s it is -1 s, and for
    /// [`Self::MIN`] it is `None`.
    pub fn checked_neg(self) -> Option<Self>
        ensures { SomeIff result (IsDuration (neg_ℤ self)) (neg_ℤ self) }
    {
        Some(Self {
            seconds: self.seconds.checked_neg()?,
            nanoseconds: -self.nanoseconds,
        })
    }

    /// Computes `self + rhs`, clamped to the range. [`Self::MAX`] plus 1 ns is [`Self::MAX`].
    pub fn saturating_add(self, rhs: Self) -> Self
        ensures { result ≡ clamp (self +ℤ rhs) }
    {
        match self.checked_add(rhs) {
            Some(sum) => sum,
            None if self.seconds.min(rhs.seconds) < 0 => Self::MIN,
            None => Self::MAX,
        }
    }

    /// Computes `self - rhs`, clamped to the range. Zero minus [`Self::MIN`] is [`Self::MAX`].
    pub fn saturating_sub(self, rhs: Self) -> Self
        ensures { result ≡ clamp (self -ℤ rhs) }
    {
        if let Some(difference) = self.checked_sub(rhs) {
            return difference;
        }
        if self < rhs { Self::MIN } else { Self::MAX }
    }

    /// Computes `self * rhs`, clamped to the range. [`Self::MIN`] times -2 is [`Self::MAX`].
    pub fn saturating_mul(self, rhs: i32) -> Self
        ensures { result ≡ clamp (self *ℤ rhs) }
    {
        match self.checked_mul(rhs) {
            Some(product) => product,
            None if self.is_negative() == (rhs < 0) => Self::MAX,
            None => Self::MIN,
        }
    }

    /// Returns the sum of the durations, or `None` if a partial sum is out of range. The sum of no
    /// durations is [`Self::ZERO`].
    ///
    /// The order matters near the limits: `MAX`, -1 ns and 1 ns have the sum `MAX`, and `MAX`, 1 ns
    /// and -1 ns have none.
    pub fn try_sum(durations: &[Self]) -> Option<Self>
        ensures { SomeIff result (HasSum durations.now) (sum_of durations.now) }
    {
        let mut total = Self::ZERO;
        for duration in durations {
            total = total.checked_add(*duration)?;
        }
        Some(total)
    }
}

/// Returns the seconds to carry from the nanoseconds to the seconds: -1, 0 or 1. Then the
/// nanoseconds are less than a second, and the two don't have opposite signs.
///
/// Two comparisons replace a branch, because a branch on a random sign is mispredicted half of the
/// time.
fn carry_from_nanoseconds(seconds: i64, nanoseconds: i32) -> i32
    requires { CanCarry seconds nanoseconds }
    ensures { IsCarry seconds nanoseconds result }
{
    let most = if seconds < 0 { 0 } else { 999_999_999 };
    let least = if seconds > 0 { 0 } else { -999_999_999 };
    i32::from(nanoseconds > most) - i32::from(nanoseconds < least)
}

/// Computes `seconds * factor + carry`. Returns `None` if the result doesn't fit in an `i64`.
///
/// For two factors of 32 bits nothing can overflow, and testing for this is cheaper than the
/// checked operations.
fn checked_mul_add(seconds: i64, factor: i64, carry: i64) -> Option<i64>
    requires small { unsigned_abs carry ≤ unsigned_abs factor }
    requires positive { pos 0 <ℤ (seconds *ℤ factor) → pos 0 ≤ℤ carry }
    requires negative { (seconds *ℤ factor) <ℤ pos 0 → carry ≤ℤ pos 0 }
    ensures { SomeIff result (FitsSigned w64 (seconds *ℤ factor +ℤ carry))
        (seconds *ℤ factor +ℤ carry) }
{
    if seconds.unsigned_abs() < MAX_OPERAND && factor.unsigned_abs() <= 1 << 31 {
        return Some(seconds * factor + carry);
    }
    seconds.checked_mul(factor)?.checked_add(carry)
}
