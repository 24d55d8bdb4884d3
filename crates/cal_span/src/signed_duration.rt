//! Durations: constructors and parts.
ghost use Rattle.std.specs.Prelude.{◌≡◌, ◌↔◌, pos, ◌+ℤ◌, ◌*ℤ◌, ◌<ℤ◌, ◌/◌, ◌%◌, unsigned_abs, FitsSigned, IsTrue};
ghost use Rattle.std.specs.Int.{w64};
ghost use Rattle.cal_span.specs.SignedDuration.{microsecond, millisecond, second, minute, hour, day, week, IsDuration, clamp, cut, subsec_nanoseconds};

use std::marker::Model;

mod arithmetic;
mod display;
mod operators;
mod order;

const NANOSECONDS_PER_SECOND: i32 = 1_000_000_000;

const NANOSECONDS_PER_MILLISECOND: i32 = 1_000_000;

const NANOSECONDS_PER_MICROSECOND: i32 = 1_000;

const MILLISECONDS_PER_SECOND: i64 = 1_000;

const MICROSECONDS_PER_SECOND: i64 = 1_000_000;

const SECONDS_PER_MINUTE: i64 = 60;

const SECONDS_PER_HOUR: i64 = 3_600;

const SECONDS_PER_DAY: i64 = 86_400;

const SECONDS_PER_WEEK: i64 = 604_800;

/// A signed duration with nanosecond precision.
///
/// It is a whole number of nanoseconds from [`Self::MIN`] to [`Self::MAX`], and each number between
/// them is a duration. Durations compare and hash by this number. A day has 24 hours, and a week 7
/// days. A duration prints its parts with units, such as `-1d3h250ms`.
///
/// The operators `+`, `-` and `*` return the exact result, and `/` truncates toward zero. For
/// example, `SECOND * 200u8` is 200 s, and `nanoseconds(-7) / 2i8` is -3 ns. The result must be in
/// the range, and the divisor must not be zero.
///
/// The fields are whole seconds and the nanoseconds past them, which never have opposite signs.
#[derive(Clone, Copy, Debug)]
pub struct SignedDuration {
    seconds: i64,
    nanoseconds: i32,
}

impl Model for SignedDuration {
    ghost use Rattle.std.specs.Prelude.{ℤ};

    ghost Value = { ℤ };

    ghost use Rattle.cal_span.specs.Fields.{nanoseconds_of_fields, IsNormal, fields_of};
    ghost use Rattle.cal_span.specs.FieldsLaws.{fields_of-nanoseconds_of_fields};

    ghost view = { nanoseconds_of_fields };

    ghost invariant = { IsNormal };

    ghost inverse = { fields_of };

    ghost inverse_ok = { fields_of-nanoseconds_of_fields };
}

impl SignedDuration {
    /// The zero duration.
    pub const ZERO: Self = Self {
        seconds: 0,
        nanoseconds: 0,
    };

    /// One nanosecond.
    pub const NANOSECOND: Self = Self {
        seconds: 0,
        nanoseconds: 1,
    };

    /// One microsecond, 1000 nanoseconds.
    pub const MICROSECOND: Self = Self {
        seconds: 0,
        nanoseconds: 1_000,
    };

    /// One millisecond, 1000 microseconds.
    pub const MILLISECOND: Self = Self {
        seconds: 0,
        nanoseconds: 1_000_000,
    };

    /// One second, 1000 milliseconds.
    pub const SECOND: Self = Self {
        seconds: 1,
        nanoseconds: 0,
    };

    /// One minute, 60 seconds.
    pub const MINUTE: Self = Self {
        seconds: 60,
        nanoseconds: 0,
    };

    /// One hour, 3600 seconds.
    pub const HOUR: Self = Self {
        seconds: 3_600,
        nanoseconds: 0,
    };

    /// One day of 24 hours, 86400 seconds.
    pub const DAY: Self = Self {
        seconds: 86_400,
        nanoseconds: 0,
    };

    /// One week, 7 days.
    pub const WEEK: Self = Self {
        seconds: 604_800,
        nanoseconds: 0,
    };

    /// The minimum duration, -9223372036854775808.999999999 seconds.
    pub const MIN: Self = Self {
        seconds: -9_223_372_036_854_775_808,
        nanoseconds: -999_999_999,
    };

    /// The maximum duration, 9223372036854775807.999999999 seconds.
    pub const MAX: Self = Self {
        seconds: 9_223_372_036_854_775_807,
        nanoseconds: 999_999_999,
    };

    /// Creates a duration from seconds and nanoseconds, which may have opposite signs. The
    /// nanoseconds may make up more than a second.
    ///
    /// `new(-1, 1)` is -999999999 ns, and `new(1, 2_000_000_000)` is 3 s. The sum of `seconds` and
    /// the whole seconds of `nanoseconds`, truncated toward zero, must fit in an `i64`.
    pub fn new(seconds: i64, nanoseconds: i32) -> Self
        requires { FitsSigned w64 (seconds +ℤ cut nanoseconds (pos second)) }
        ensures { result ≡ seconds *ℤ pos second +ℤ nanoseconds }
    {
        let carry = i64::from(nanoseconds / NANOSECONDS_PER_SECOND);
        Self::checked_new(seconds + carry, nanoseconds % NANOSECONDS_PER_SECOND).unwrap()
    }

    /// Creates a duration from weeks of 7 days, from -15250284452471 to 15250284452471. `weeks(2)`
    /// is 1209600 s.
    pub fn weeks(weeks: i64) -> Self
        requires { IsDuration (weeks *ℤ pos week) }
        ensures { result ≡ weeks *ℤ pos week }
    {
        Self::seconds(weeks * SECONDS_PER_WEEK)
    }

    /// Creates a duration from days of 24 hours, from -106751991167300 to 106751991167300.
    /// `days(-3)` is -259200 s.
    pub fn days(days: i64) -> Self
        requires { IsDuration (days *ℤ pos day) }
        ensures { result ≡ days *ℤ pos day }
    {
        Self::seconds(days * SECONDS_PER_DAY)
    }

    /// Creates a duration from hours, from -2562047788015215 to 2562047788015215. `hours(36)` is
    /// 129600 s.
    pub fn hours(hours: i64) -> Self
        requires { IsDuration (hours *ℤ pos hour) }
        ensures { result ≡ hours *ℤ pos hour }
    {
        Self::seconds(hours * SECONDS_PER_HOUR)
    }

    /// Creates a duration from minutes, from -153722867280912930 to 153722867280912930.
    /// `minutes(90)` is 5400 s.
    pub fn minutes(minutes: i64) -> Self
        requires { IsDuration (minutes *ℤ pos minute) }
        ensures { result ≡ minutes *ℤ pos minute }
    {
        Self::seconds(minutes * SECONDS_PER_MINUTE)
    }

    /// Creates a duration from any number of seconds. `seconds(-5)` is -5000000000 ns.
    pub fn seconds(seconds: i64) -> Self
        ensures { result ≡ seconds *ℤ pos second }
    {
        Self {
            seconds,
            nanoseconds: 0,
        }
    }

    /// Creates a duration from any number of milliseconds. `milliseconds(-1_500)` is -1.5 s.
    pub fn milliseconds(milliseconds: i64) -> Self
        ensures { result ≡ milliseconds *ℤ pos millisecond }
    {
        let past = (milliseconds % MILLISECONDS_PER_SECOND) as i32;
        Self {
            seconds: milliseconds / MILLISECONDS_PER_SECOND,
            nanoseconds: past * NANOSECONDS_PER_MILLISECOND,
        }
    }

    /// Creates a duration from any number of microseconds. `microseconds(1_500_000)` is 1.5 s.
    pub fn microseconds(microseconds: i64) -> Self
        ensures { result ≡ microseconds *ℤ pos microsecond }
    {
        let past = (microseconds % MICROSECONDS_PER_SECOND) as i32;
        Self {
            seconds: microseconds / MICROSECONDS_PER_SECOND,
            nanoseconds: past * NANOSECONDS_PER_MICROSECOND,
        }
    }

    /// Creates a duration from any number of nanoseconds. `nanoseconds(-1)` is -1 ns.
    pub fn nanoseconds(nanoseconds: i64) -> Self
        ensures { result ≡ nanoseconds }
    {
        Self {
            seconds: nanoseconds / NANOSECONDS_PER_SECOND as i64,
            nanoseconds: (nanoseconds % NANOSECONDS_PER_SECOND as i64) as i32,
        }
    }

    /// Creates a duration from nanoseconds in 128 bits. The duration must be from [`Self::MIN`] to
    /// [`Self::MAX`]. `nanoseconds_i128(1_000_000_001)` is 1 s and 1 ns.
    pub fn nanoseconds_i128(nanoseconds: i128) -> Self
        requires { IsDuration nanoseconds }
        ensures { result ≡ nanoseconds }
    {
        Self {
            seconds: (nanoseconds / NANOSECONDS_PER_SECOND as i128) as i64,
            nanoseconds: (nanoseconds % NANOSECONDS_PER_SECOND as i128) as i32,
        }
    }

    /// Returns `true` if the duration is zero.
    pub fn is_zero(self) -> bool
        ensures { IsTrue result ↔ (self ≡ pos 0) }
    {
        self.seconds == 0 && self.nanoseconds == 0
    }

    /// Returns `true` if the duration is negative. -1 ns is negative, and zero isn't.
    pub fn is_negative(self) -> bool
        ensures { IsTrue result ↔ (self <ℤ pos 0) }
    {
        self.seconds < 0 || self.nanoseconds < 0
    }

    /// Returns `true` if the duration is positive. 1 ns is positive, and zero isn't.
    pub fn is_positive(self) -> bool
        ensures { IsTrue result ↔ (pos 0 <ℤ self) }
    {
        self.seconds > 0 || self.nanoseconds > 0
    }

    /// Returns the absolute value, clamped to [`Self::MAX`]. For -5 s it is 5 s, and for
    /// [`Self::MIN`] it is [`Self::MAX`].
    pub fn abs(self) -> Self
        ensures { result ≡ clamp (pos (unsigned_abs self)) }
    {
        match self.seconds.checked_abs() {
            Some(seconds) => Self {
                seconds,
                nanoseconds: self.nanoseconds.abs(),
            },
            None => Self::MAX,
        }
    }

    /// Returns the absolute value as whole seconds and the nanoseconds past them, from 0 to
    /// 999999999. For -1.5 s they are 1 and 500000000, and for [`Self::MIN`] they are
    /// 9223372036854775808 and 999999999.
    pub fn unsigned_abs(self) -> (u64, u32)
        ensures seconds { result.0 ≡ unsigned_abs self / second }
        ensures nanoseconds { result.1 ≡ unsigned_abs self % second }
    {
        (self.seconds.unsigned_abs(), self.nanoseconds.unsigned_abs())
    }

    /// Returns the number of whole weeks, truncated toward zero. For -6 days it is 0.
    pub fn whole_weeks(self) -> i64
        ensures { result ≡ cut self (pos week) }
    {
        self.seconds / SECONDS_PER_WEEK
    }

    /// Returns the number of whole days, truncated toward zero. For -47 hours it is -1.
    pub fn whole_days(self) -> i64
        ensures { result ≡ cut self (pos day) }
    {
        self.seconds / SECONDS_PER_DAY
    }

    /// Returns the number of whole hours, truncated toward zero. For -90 minutes it is -1.
    pub fn whole_hours(self) -> i64
        ensures { result ≡ cut self (pos hour) }
    {
        self.seconds / SECONDS_PER_HOUR
    }

    /// Returns the number of whole minutes, truncated toward zero. For 90 s it is 1.
    pub fn whole_minutes(self) -> i64
        ensures { result ≡ cut self (pos minute) }
    {
        self.seconds / SECONDS_PER_MINUTE
    }

    /// Returns the number of whole seconds, truncated toward zero. For -1.5 s it is -1.
    pub fn whole_seconds(self) -> i64
        ensures { result ≡ cut self (pos second) }
    {
        self.seconds
    }

    /// Returns the number of whole milliseconds, truncated toward zero. For -1.5 s it is -1500.
    pub fn whole_milliseconds(self) -> i128
        ensures { result ≡ cut self (pos millisecond) }
    {
        let past = self.nanoseconds / NANOSECONDS_PER_MILLISECOND;
        i128::from(self.seconds) * MILLISECONDS_PER_SECOND as i128 + i128::from(past)
    }

    /// Returns the number of whole microseconds, truncated toward zero. For 2500 ns it is 2.
    pub fn whole_microseconds(self) -> i128
        ensures { result ≡ cut self (pos microsecond) }
    {
        let past = self.nanoseconds / NANOSECONDS_PER_MICROSECOND;
        i128::from(self.seconds) * MICROSECONDS_PER_SECOND as i128 + i128::from(past)
    }

    /// Returns the number of nanoseconds. For -1.5 s it is -1500000000.
    pub fn whole_nanoseconds(self) -> i128
        ensures value { result ≡ self }
        ensures range { IsDuration self }
    {
        i128::from(self.seconds) * NANOSECONDS_PER_SECOND as i128 + i128::from(self.nanoseconds)
    }

    /// Returns the milliseconds past the whole seconds, truncated toward zero, from -999 to 999.
    /// They have the sign of the duration: for -1.5 s they are -500.
    pub fn subsec_milliseconds(self) -> i16
        ensures { result ≡ cut (subsec_nanoseconds self) (pos millisecond) }
    {
        (self.nanoseconds / NANOSECONDS_PER_MILLISECOND) as i16
    }

    /// Returns the microseconds past the whole seconds, truncated toward zero, from -999999 to
    /// 999999. They have the sign of the duration: for 1 s and 2500 ns they are 2.
    pub fn subsec_microseconds(self) -> i32
        ensures { result ≡ cut (subsec_nanoseconds self) (pos microsecond) }
    {
        self.nanoseconds / NANOSECONDS_PER_MICROSECOND
    }

    /// Returns the nanoseconds past the whole seconds, from -999999999 to 999999999. They have the
    /// sign of the duration: for -1.5 s they are -500000000.
    pub fn subsec_nanoseconds(self) -> i32
        ensures { result ≡ subsec_nanoseconds self }
    {
        self.nanoseconds
    }
}

impl Default for SignedDuration {
    ghost is_default = { λ duration. duration ≡ pos 0 };

    /// Returns [`Self::ZERO`], a duration of 0 ns.
    fn default() -> Self {
        Self::ZERO
    }
}
