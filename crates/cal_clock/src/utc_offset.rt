//! Offsets from UTC.
ghost use Rattle.std.specs.Prelude.{length, ◌≡◌, ◌↔◌, ◌<◌, ◌≤◌, pos, neg_ℤ, ◌<ℤ◌, unsigned_abs, Some, IsTrue};
ghost use Rattle.std.specs.Fmt.{WritesOnOk, WritesStyledOnOk, formatter_spec, padded};
ghost use Rattle.std.specs.Str.{IsAscii};
ghost use Rattle.cal_units.specs.ComponentError.{FailsWith};
ghost use Rattle.cal_clock.specs.UtcOffset.{IsOffset, max_offset_seconds, offset_hour_out_of_range, offset_minute_out_of_range, offset_second_out_of_range, seconds_out_of_range, leading_component, offset_of, whole_hours, whole_minutes, minutes_past_hour, seconds_past_minute, text};

use crate::units::{SECONDS_PER_HOUR, SECONDS_PER_MINUTE};
use cal_units::error::{Component, ComponentRange};
use cal_units::{Counted, ShortText};
use std::fmt;
use std::marker::Model;
use std::ops::Neg;

/// An offset from UTC with second precision, from -25:59:59 to +25:59:59.
///
/// Offsets east of Greenwich are positive, and offsets are ordered from west to east. An offset
/// prints its sign, `+` for zero too, and two digits each for hours, minutes and seconds:
/// `-05:30:00`. A width pads the whole text. `Debug` prints the same.
#[derive(Clone, Copy, PartialEq, Eq, PartialOrd, Ord, Hash)]
pub struct UtcOffset {
    seconds: i32,
}

impl Model for UtcOffset {
    ghost use Rattle.std.specs.Prelude.{ℤ};
    ghost use Rattle.cal_clock.specs.UtcOffset.{IsOffset};

    ghost Value = { ℤ };

    ghost view = { λ o. o.seconds };

    ghost invariant = { λ o. IsOffset o.seconds };

    ghost inverse = { λ seconds. record { seconds = seconds } };
}

impl UtcOffset {
    /// UTC itself, the offset of 0 seconds.
    pub const UTC: Self = Self { seconds: 0 };

    /// Creates an offset from hours, minutes and seconds.
    ///
    /// The first component that isn't zero gives the sign; the signs of the others are ignored.
    /// `from_hms(1, -2, -3)` is +01:02:03, and `from_hms(0, -30, 15)` is -00:30:15.
    ///
    /// Returns the unconditional error of the first component that is out of range: `offset hour`
    /// outside -25 to 25, `offset minute` outside -59 to 59, or `offset second` outside -59 to 59.
    pub fn from_hms(hours: i8, minutes: i8, seconds: i8) -> Result<Self, ComponentRange>
        ensures hour { FailsWith offset_hour_out_of_range result ↔ (25 < unsigned_abs hours) }
        ensures minute { FailsWith offset_minute_out_of_range result
            ↔ (unsigned_abs hours ≤ 25) × (59 < unsigned_abs minutes) }
        ensures second { FailsWith offset_second_out_of_range result
            ↔ (unsigned_abs hours ≤ 25) × (unsigned_abs minutes ≤ 59)
            × (59 < unsigned_abs seconds) }
        ensures value { unsigned_abs hours ≤ 25 → unsigned_abs minutes ≤ 59
            → unsigned_abs seconds ≤ 59
            → result ≡ Ok (offset_of hours minutes seconds) }
    {
        if hours.unsigned_abs() > 25 {
            return Err(ComponentRange::unconditional(Component::OffsetHour));
        }
        if minutes.unsigned_abs() > 59 {
            return Err(ComponentRange::unconditional(Component::OffsetMinute));
        }
        if seconds.unsigned_abs() > 59 {
            return Err(ComponentRange::unconditional(Component::OffsetSecond));
        }
        Ok(Self::from_components(hours, minutes, seconds))
    }

    /// Creates an offset from components that are in range, like [`Self::from_hms`].
    fn from_components(hours: i8, minutes: i8, seconds: i8) -> Self
        requires hour { unsigned_abs hours ≤ 25 }
        requires minute { unsigned_abs minutes ≤ 59 }
        requires second { unsigned_abs seconds ≤ 59 }
        ensures { result ≡ offset_of hours minutes seconds }
    {
        let magnitude = u32::from(hours.unsigned_abs()) * SECONDS_PER_HOUR
            + u32::from(minutes.unsigned_abs()) * SECONDS_PER_MINUTE
            + u32::from(seconds.unsigned_abs());
        let magnitude = magnitude as i32;
        if leading_component(hours, minutes, seconds) < 0 {
            Self {
                seconds: -magnitude,
            }
        } else {
            Self { seconds: magnitude }
        }
    }

    /// Creates an offset from its total seconds. `from_whole_seconds(3_723)` is +01:02:03. Returns
    /// the unconditional error `seconds` if they are outside -93599 to 93599.
    pub fn from_whole_seconds(seconds: i32) -> Result<Self, ComponentRange>
        ensures error { FailsWith seconds_out_of_range result
            ↔ (max_offset_seconds < unsigned_abs seconds) }
        ensures value { unsigned_abs seconds ≤ max_offset_seconds → result ≡ Ok seconds }
    {
        if seconds.unsigned_abs() > 93_599 {
            return Err(ComponentRange::unconditional(Component::Seconds));
        }
        Ok(Self { seconds })
    }

    /// Returns the whole hours, the minutes past them and the seconds past the minutes, all with
    /// the sign of the offset. For -01:30:00 they are -1, -30 and 0.
    pub fn as_hms(self) -> (i8, i8, i8)
        ensures hours { result.0 ≡ whole_hours self }
        ensures minutes { result.1 ≡ minutes_past_hour self }
        ensures seconds { result.2 ≡ seconds_past_minute self }
    {
        let minutes = self.whole_minutes();
        (
            (minutes / 60) as i8,
            (minutes % 60) as i8,
            self.seconds_past_minute(),
        )
    }

    /// Returns the whole hours, truncated toward zero, from -25 to 25. For -01:30:00 they are -1.
    pub fn whole_hours(self) -> i8
        ensures { result ≡ whole_hours self }
    {
        (self.seconds / SECONDS_PER_HOUR as i32) as i8
    }

    /// Returns the whole minutes, truncated toward zero, from -1559 to 1559. For -01:30:00 they are
    /// -90.
    pub fn whole_minutes(self) -> i16
        ensures { result ≡ whole_minutes self }
    {
        (self.seconds / SECONDS_PER_MINUTE as i32) as i16
    }

    /// Returns the minutes past the whole hours, from -59 to 59, with the sign of the offset. For
    /// -01:30:00 they are -30.
    pub fn minutes_past_hour(self) -> i8
        ensures { result ≡ minutes_past_hour self }
    {
        (self.seconds % SECONDS_PER_HOUR as i32 / SECONDS_PER_MINUTE as i32) as i8
    }

    /// Returns the total seconds, from -93599 to 93599. For -01:30:00 they are -5400.
    pub fn whole_seconds(self) -> i32
        ensures value { result ≡ self }
        ensures range { IsOffset self }
    {
        self.seconds
    }

    /// Returns the seconds past the whole minutes, from -59 to 59, with the sign of the offset. For
    /// -01:02:03 they are -3.
    pub fn seconds_past_minute(self) -> i8
        ensures { result ≡ seconds_past_minute self }
    {
        (self.seconds % SECONDS_PER_MINUTE as i32) as i8
    }

    /// Returns the text that the offset prints, such as `-05:30:00`. It has the sign, `+` for zero
    /// too, and two digits each for hours, minutes and seconds: 9 bytes, all ASCII.
    pub fn text(self) -> ShortText
        ensures value { result ≡ text self }
        ensures max_length { length result ≤ 9 }
        ensures ascii { IsAscii result }
    {
        let seconds = self.seconds.unsigned_abs();
        let mut text = ShortText::new();
        text.push(if self.seconds < 0 { "-" } else { "+" });
        text.push_two_digits(seconds / SECONDS_PER_HOUR);
        text.push(":");
        text.push_two_digits(seconds / SECONDS_PER_MINUTE % 60);
        text.push(":");
        text.push_two_digits(seconds % SECONDS_PER_MINUTE);
        text
    }

    /// Returns `true` if the offset is zero, [`Self::UTC`].
    pub fn is_utc(self) -> bool
        ensures { IsTrue result ↔ (self ≡ pos 0) }
    {
        self == Self::UTC
    }

    /// Returns `true` if the offset is positive, east of UTC. +00:00:01 is positive, and UTC isn't.
    pub fn is_positive(self) -> bool
        ensures { IsTrue result ↔ (pos 0 <ℤ self) }
    {
        self.seconds > 0
    }

    /// Returns `true` if the offset is negative, west of UTC. -00:00:01 is negative, and UTC isn't.
    pub fn is_negative(self) -> bool
        ensures { IsTrue result ↔ (self <ℤ pos 0) }
    {
        self.seconds < 0
    }
}

/// Returns the first component that isn't zero, or zero.
fn leading_component(hours: i8, minutes: i8, seconds: i8) -> i8
    ensures { result ≡ leading_component hours minutes seconds }
{
    if hours != 0 {
        hours
    } else if minutes != 0 {
        minutes
    } else {
        seconds
    }
}

impl Neg for UtcOffset {
    type Output = Self;

    ghost neg_gives = { λ o opposite. opposite ≡ neg_ℤ o };

    /// Returns the offset with the opposite sign. For -05:30:00 it is +05:30:00.
    fn neg(self) -> Self {
        Self {
            seconds: -self.seconds,
        }
    }
}

impl Counted for UtcOffset {
    ghost use Rattle.std.specs.Prelude.{refl};
    ghost use Rattle.std.specs.Hash as fed;
    ghost use Rattle.std.proofs.Common.{rules, ap};

    ghost number_of = { λ o. o };

    ghost cmp_by_number = { λ x y. refl };

    ghost eq_by_number = { λ x y. Prim.search rules };

    ghost hash_by_number = { λ x y e. ap fed.i32 e };

    /// Returns the total seconds, from -93599 to 93599. For -01:30:00 they are -5400.
    fn number(self) -> i128 {
        self.seconds as i128
    }
}

impl fmt::Display for UtcOffset {
    ghost output = { λ o. Some (text o) };

    ghost styled_output = { λ o spec. Some (padded spec (text o)) };

    fn fmt<W: fmt::Write>(&self, f: &mut fmt::Formatter<W>) -> fmt::Result {
        f.pad(self.text().as_str())
    }
}

impl fmt::Debug for UtcOffset {
    ghost debug_output = { λ o. Some (text o) };

    fn fmt<W: fmt::Write>(&self, f: &mut fmt::Formatter<W>) -> fmt::Result
        ensures value { WritesOnOk W.write_str_gives f.old result (text self.now) f.new }
        ensures styled { WritesStyledOnOk W.write_str_gives f.old result
            (padded (formatter_spec f.old) (text self.now)) f.new }
    {
        fmt::Display::fmt(self, f)
    }
}
