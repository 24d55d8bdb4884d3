//! Units that divide a day.
ghost use Rattle.std.specs.Prelude.{◌≡◌, ◌↔◌, pos, ◌<ℤ◌, unsigned_abs, IsTrue, SomeIff};
ghost use Rattle.cal_time.specs.SignedDuration.{day};
ghost use Rattle.cal_rounding.specs.Rounding.{IsRoundingUnit};

use cal_time::SignedDuration;
use std::marker::Model;

const NANOSECONDS_PER_DAY: u64 = 86_400_000_000_000;

/// A unit to whose multiples a time of day or a date-time is rounded. It divides a day, so the
/// multiples are the same on each day.
///
/// Contracts see its nanoseconds.
#[derive(Clone, Copy, Debug, PartialEq, Eq, Hash)]
pub struct RoundingUnit {
    nanoseconds: u64,
}

impl Model for RoundingUnit {
    ghost use Rattle.std.specs.Prelude.{ℕ};
    ghost use Rattle.cal_rounding.specs.Rounding.{IsRoundingUnit};

    ghost Value = { ℕ };

    ghost view = { λ unit. unit.nanoseconds };

    ghost invariant = { λ unit. IsRoundingUnit unit.nanoseconds };

    ghost inverse = { λ n. record { nanoseconds = n } };
}

impl RoundingUnit {
    /// One microsecond.
    pub const MICROSECOND: Self = Self { nanoseconds: 1_000 };

    /// One millisecond.
    pub const MILLISECOND: Self = Self {
        nanoseconds: 1_000_000,
    };

    /// One second.
    pub const SECOND: Self = Self {
        nanoseconds: 1_000_000_000,
    };

    /// One minute.
    pub const MINUTE: Self = Self {
        nanoseconds: 60_000_000_000,
    };

    /// One hour.
    pub const HOUR: Self = Self {
        nanoseconds: 3_600_000_000_000,
    };

    /// A whole day.
    pub const DAY: Self = Self {
        nanoseconds: NANOSECONDS_PER_DAY,
    };

    /// Creates a unit from its length. Returns `None` if it isn't positive or doesn't divide a day
    /// of 24 hours. 15 minutes and 8 hours are units, and 7 minutes and 9 hours aren't.
    pub fn new(length: SignedDuration) -> Option<Self>
        ensures { SomeIff result ((pos 0 <ℤ length) × IsRoundingUnit (unsigned_abs length))
            (unsigned_abs length) }
    {
        if !length.is_positive() {
            return None;
        }
        if length > SignedDuration::DAY {
            return None;
        }
        let nanoseconds = length.whole_nanoseconds() as u64;
        if NANOSECONDS_PER_DAY % nanoseconds == 0 {
            Some(Self { nanoseconds })
        } else {
            None
        }
    }

    /// Returns the length, from 1 nanosecond to a day. For [`Self::HOUR`] it is 3600 s.
    pub fn length(self) -> SignedDuration
        ensures value { result ≡ pos self }
        ensures range { IsRoundingUnit self }
    {
        SignedDuration::nanoseconds(self.nanoseconds as i64)
    }

    /// Returns `true` if the unit is a whole day.
    pub(crate) fn is_day(self) -> bool
        ensures { IsTrue result ↔ (self ≡ day) }
    {
        self.nanoseconds == NANOSECONDS_PER_DAY
    }

    /// Returns the nanoseconds.
    pub(crate) fn nanoseconds(self) -> u64
        ensures value { result ≡ self }
        ensures range { IsRoundingUnit self }
    {
        self.nanoseconds
    }
}
