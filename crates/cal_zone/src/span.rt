//! Instants at which the offset of a zone is the same.
ghost use Rattle.std.specs.Prelude.{◌≡◌, ◌↔◌, ℤ, pos, ◌+ℤ◌, ◌-ℤ◌, ◌<ℤ◌, ◌≤ℤ◌, IsTrue, IfSome, SomeIff};
ghost use Rattle.cal_zone.specs.Span.{HasAround, IsNear, IsSpan};
ghost use Rattle.cal_zone.specs.Timeline.{Timeline, local_at, InOrder, IsMoment};

/// The maximum difference of two offsets, in seconds.
const MAX_DIFFERENCE: i64 = 187_198;

/// Half a year, in seconds.
const HALF_YEAR: u64 = 15_778_476;

/// A span of instants at which clocks have the same offset, from the first to the last. It is empty
/// if the last one is before the first.
#[derive(Clone, Copy, Debug, PartialEq, Eq)]
pub struct Span {
    /// The Unix time of the first instant, in seconds.
    pub first: i64,
    /// The Unix time of the last instant, in seconds.
    pub last: i64,
    /// The seconds by which clocks are ahead of UTC.
    pub offset: i32,
}

/// Checks that an instant is less than half a year after another, or the same.
#[inline(always)]
fn is_short(from: i64, to: i64) -> bool
    ensures { IsTrue result ↔ ((from ≤ℤ to) × (to <ℤ (from +ℤ pos 15_778_476))) }
{
    from <= to && to.abs_diff(from) < HALF_YEAR
}

impl Span {
    /// Creates an empty span.
    pub fn empty() -> Self
        ensures { (zone : Timeline) → IsSpan zone result }
    {
        Span {
            first: 0,
            last: -1,
            offset: 0,
        }
    }

    /// Checks that an instant is one of the span.
    #[inline(always)]
    pub fn contains(self, instant: i64) -> bool
        ensures { IsTrue result ↔ ((self.first ≤ℤ instant) × (instant ≤ℤ self.last)) }
    {
        self.first <= instant && instant <= self.last
    }

    /// Checks that an instant is less than half a year after the last instant of the span, or
    /// before the first one.
    #[inline(always)]
    pub(crate) fn is_near(self, instant: i64) -> bool
        ensures { IsTrue result ↔ IsNear self instant }
    {
        let after = instant.wrapping_sub(self.last).cast_unsigned();
        let before = self.first.wrapping_sub(instant).cast_unsigned();
        // One test without a branch rejects nearly all instants that are not near.
        if HALF_YEAR <= after.min(before) {
            return false;
        }
        is_short(self.last, instant) || is_short(instant, self.first)
    }

    /// Returns the Unix time of the only instant at which clocks show a reading. The reading is its
    /// seconds since 1970-01-01 0:00 by the clock, from -2^60 to 2^60.
    ///
    /// Returns `None`, which says nothing about the reading, unless the span has each instant up to
    /// 187198 seconds before and after the result. No two offsets differ by more.
    #[inline(always)]
    pub fn single(self, reading: i64) -> Option<i64>
        requires { IsMoment reading }
        ensures value { let instant = reading -ℤ self.offset
            in SomeIff result (HasAround self instant) instant }
        ensures only { (zone : Timeline) → InOrder zone → IsSpan zone self
            → IfSome result (λ instant. (i : ℤ) → (i ≡ instant) ↔ (local_at zone i ≡ reading)) }
    {
        let instant = reading - i64::from(self.offset);
        if self.contains(instant - MAX_DIFFERENCE) && self.contains(instant + MAX_DIFFERENCE) {
            Some(instant)
        } else {
            None
        }
    }
}
