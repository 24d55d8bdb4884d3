//! Times moved by durations, and the durations between times.

ghost use Rattle.std.specs.Prelude.{◌≡◌, ◌*◌, ◌<◌, pos, negsuc, neg_ℤ, ◌+ℤ◌, ◌-ℤ◌, ◌*ℤ◌, ◌<ℤ◌, ◌≤ℤ◌, unsigned_abs};
ghost use Rattle.cal_span.specs.SignedDuration.{day, whole_days};
ghost use Rattle.cal_clock.specs.Time.{IsSubdayPart, modulo_day, carry};

use crate::Time;
use crate::units::{NANOSECONDS_PER_DAY, NANOSECONDS_PER_SECOND, SECONDS_PER_DAY};
use cal_span::SignedDuration;
use cal_units::util::DateAdjustment;
use std::ops::{Add, AddAssign, Sub, SubAssign};

impl Time {
    /// Returns the duration from this time forward to `other`, from zero to less than a day. From
    /// 23:00 until 1:00 it is two hours.
    pub fn duration_until(self, other: Self) -> SignedDuration
        ensures { result ≡ pos (modulo_day (pos other -ℤ pos self)) }
    {
        let nanoseconds = if self.nanoseconds <= other.nanoseconds {
            other.nanoseconds - self.nanoseconds
        } else {
            other.nanoseconds + NANOSECONDS_PER_DAY - self.nanoseconds
        };
        SignedDuration::nanoseconds(nanoseconds as i64)
    }

    /// Returns the duration from `other` forward to this time, from zero to less than a day. At
    /// 1:00 it is two hours since 23:00.
    pub fn duration_since(self, other: Self) -> SignedDuration
        ensures { result ≡ pos (modulo_day (pos self -ℤ pos other)) }
    {
        other.duration_until(self)
    }

    /// Adds the duration. Returns the change of day, without the duration's whole days, and the
    /// time.
    ///
    /// 23:00 plus 26 hours is 1:00, two days later: one whole day in the duration, and the
    /// adjustment `Next`. The whole days are truncated toward zero. The adjustment is not
    /// `Previous` for a positive duration, and not `Next` for a negative one.
    pub fn adjusting_add(self, duration: SignedDuration) -> (DateAdjustment, Self)
        ensures value { pos self +ℤ duration
            ≡ (whole_days duration +ℤ carry result.0) *ℤ pos day +ℤ pos result.1 }
        ensures range { result.1 < day }
        ensures forward { pos 0 ≤ℤ duration → pos 0 ≤ℤ carry result.0 }
        ensures backward { duration ≤ℤ pos 0 → carry result.0 ≤ℤ pos 0 }
    {
        adjusted_time(self.nanoseconds as i64 + subday_nanoseconds(duration))
    }

    /// Subtracts the duration. Returns the change of day, without the duration's whole days, and
    /// the time.
    ///
    /// 1:00 minus 26 hours is 23:00, two days earlier: one whole day in the duration, and the
    /// adjustment `Previous`. The whole days are truncated toward zero. The adjustment is not
    /// `Next` for a positive duration, and not `Previous` for a negative one.
    pub fn adjusting_sub(self, duration: SignedDuration) -> (DateAdjustment, Self)
        ensures value { pos self -ℤ duration
            ≡ (carry result.0 -ℤ whole_days duration) *ℤ pos day +ℤ pos result.1 }
        ensures range { result.1 < day }
        ensures backward { pos 0 ≤ℤ duration → carry result.0 ≤ℤ pos 0 }
        ensures forward { duration ≤ℤ pos 0 → pos 0 ≤ℤ carry result.0 }
    {
        adjusted_time(self.nanoseconds as i64 - subday_nanoseconds(duration))
    }
}

/// Returns the nanoseconds of the duration past its whole days, with the sign of the duration.
fn subday_nanoseconds(duration: SignedDuration) -> i64
    ensures { IsSubdayPart duration result }
{
    let seconds = duration.whole_seconds() % SECONDS_PER_DAY;
    seconds * NANOSECONDS_PER_SECOND as i64 + i64::from(duration.subsec_nanoseconds())
}

/// Returns the day of nanoseconds since midnight, relative to today: -1, 0 or 1. The sign of a step
/// is often random, so the comparisons are subtracted, which needs no branch.
fn day_carry(nanoseconds: i64) -> i64
    ensures previous_day { nanoseconds <ℤ pos 0 → result ≡ negsuc 0 }
    ensures same_day { pos 0 ≤ℤ nanoseconds → nanoseconds <ℤ pos day → result ≡ pos 0 }
    ensures next_day { pos day ≤ℤ nanoseconds → result ≡ pos 1 }
{
    i64::from(nanoseconds >= NANOSECONDS_PER_DAY as i64) - i64::from(nanoseconds < 0)
}

/// Returns the adjustment that adds -1, 0 or 1 days.
fn adjustment_from_days(days: i64) -> DateAdjustment
    requires min { negsuc 0 ≤ℤ days }
    requires max { days ≤ℤ pos 1 }
    ensures { carry result ≡ days }
{
    match days {
        0 => DateAdjustment::None,
        1 => DateAdjustment::Next,
        _ => DateAdjustment::Previous,
    }
}

/// Splits nanoseconds since midnight, which may be in the day before or the day after, into the
/// adjustment and the time.
fn adjusted_time(nanoseconds: i64) -> (DateAdjustment, Time)
    requires min { neg_ℤ (pos day) <ℤ nanoseconds }
    requires max { nanoseconds <ℤ pos (2 * day) }
    ensures value { nanoseconds ≡ carry result.0 *ℤ pos day +ℤ pos result.1 }
    ensures range { result.1 < day }
{
    let days = day_carry(nanoseconds);

    // Midnight comes from the number of days: from a `match` it would be a branch on a random sign.
    let nanoseconds = (nanoseconds - days * NANOSECONDS_PER_DAY as i64) as u64;
    (adjustment_from_days(days), Time { nanoseconds })
}

impl Add<SignedDuration> for Time {
    type Output = Self;

    ghost add_gives = { λ t v u. u ≡ modulo_day (pos t +ℤ v) };

    /// Adds the duration, modulo a day. 23:00 plus 26 hours is 1:00.
    fn add(self, duration: SignedDuration) -> Self {
        self.adjusting_add(duration).1
    }
}

impl AddAssign<SignedDuration> for Time {
    ghost add_assign_gives = { λ t v u. u ≡ modulo_day (pos t +ℤ v) };

    fn add_assign(&mut self, duration: SignedDuration) {
        *self = *self + duration;
    }
}

impl Sub<SignedDuration> for Time {
    type Output = Self;

    ghost sub_gives = { λ t v u. u ≡ modulo_day (pos t -ℤ v) };

    /// Subtracts the duration, modulo a day. 1:00 minus 26 hours is 23:00.
    fn sub(self, duration: SignedDuration) -> Self {
        self.adjusting_sub(duration).1
    }
}

impl SubAssign<SignedDuration> for Time {
    ghost sub_assign_gives = { λ t v u. u ≡ modulo_day (pos t -ℤ v) };

    fn sub_assign(&mut self, duration: SignedDuration) {
        *self = *self - duration;
    }
}

impl Sub for Time {
    type Output = SignedDuration;

    ghost sub_gives = { λ t u v. v ≡ pos t -ℤ pos u };

    /// Returns the difference, negative if `other` is later: -23 hours for 0:00 minus 23:00.
    fn sub(self, other: Self) -> SignedDuration {
        SignedDuration::nanoseconds(self.nanoseconds as i64 - other.nanoseconds as i64)
    }
}
