//! Times of day.
ghost use Rattle.std.specs.Prelude.{◌≡◌, ◌↔◌, ◌*◌, ◌<◌, ◌≤◌};
ghost use Rattle.cal_units.specs.ComponentError.{FailsWith};
ghost use Rattle.cal_clock.specs.Time.{millisecond_out_of_range, microsecond_out_of_range, nanosecond_out_of_range, time_of, ChecksHms};

use crate::units::{NANOSECONDS_PER_HOUR, NANOSECONDS_PER_MINUTE, NANOSECONDS_PER_SECOND};
use cal_units::error::{Component, ComponentRange};
use std::marker::Model;

mod arithmetic;
mod components;
mod display;
mod order;

/// A time of day with nanosecond precision, without leap seconds: 0:00:00.0 to 23:59:59.999999999.
///
/// It prints the hour without padding, two digits each for the minute and the second, and the
/// decimals without trailing zeros: `9:05:00.12`, or `9:05:00.0` for a whole second. A width pads
/// the whole text. `Debug` prints the same.
#[derive(Clone, Copy, PartialEq, Eq, PartialOrd, Ord, Hash)]
pub struct Time {
    nanoseconds: u64,
}

impl Model for Time {
    ghost use Rattle.std.specs.Prelude.{ℕ};
    ghost use Rattle.cal_clock.specs.Time.{IsTime};

    ghost Value = { ℕ };

    ghost view = { λ time. time.nanoseconds };

    ghost invariant = { λ time. IsTime time.nanoseconds };

    ghost inverse = { λ t. record { nanoseconds = t } };
}

impl Time {
    /// The minimum time, 0:00:00.0.
    pub const MIDNIGHT: Self = Self { nanoseconds: 0 };

    /// The maximum time, 23:59:59.999999999.
    pub const MAX: Self = Self {
        nanoseconds: 86_399_999_999_999,
    };

    /// Creates a time from an hour, a minute and a second. `from_hms(9, 5, 0)` is 9:05:00.0.
    ///
    /// Returns the unconditional error of the first component that is out of range: `hour` above
    /// 23, `minute` above 59 or `second` above 59.
    pub fn from_hms(hour: u8, minute: u8, second: u8) -> Result<Self, ComponentRange>
        ensures error { ChecksHms hour minute second result }
        ensures value { hour ≤ 23 → minute ≤ 59 → second ≤ 59
            → result ≡ Ok (time_of hour minute second 0) }
    {
        if hour > 23 {
            return Err(ComponentRange::unconditional(Component::Hour));
        }
        if minute > 59 {
            return Err(ComponentRange::unconditional(Component::Minute));
        }
        if second > 59 {
            return Err(ComponentRange::unconditional(Component::Second));
        }
        Ok(Self {
            nanoseconds: u64::from(hour) * NANOSECONDS_PER_HOUR
                + u64::from(minute) * NANOSECONDS_PER_MINUTE
                + u64::from(second) * NANOSECONDS_PER_SECOND,
        })
    }

    /// Creates a time from an hour, a minute, a second and a millisecond.
    /// `from_hms_milli(1, 2, 3, 4)` is 1:02:03.004.
    ///
    /// Returns the errors of [`Self::from_hms`], and then the unconditional error `millisecond` if
    /// it is above 999.
    pub fn from_hms_milli(
        hour: u8,
        minute: u8,
        second: u8,
        millisecond: u16,
    ) -> Result<Self, ComponentRange>
        ensures error { ChecksHms hour minute second result }
        ensures millisecond { FailsWith millisecond_out_of_range result
            ↔ (hour ≤ 23) × (minute ≤ 59) × (second ≤ 59) × (999 < millisecond) }
        ensures value { hour ≤ 23 → minute ≤ 59 → second ≤ 59 → millisecond ≤ 999
            → result ≡ Ok (time_of hour minute second (millisecond * 1_000_000)) }
    {
        Self::from_hms(hour, minute, second)?.replace_millisecond(millisecond)
    }

    /// Creates a time from an hour, a minute, a second and a microsecond.
    /// `from_hms_micro(1, 2, 3, 4_005)` is 1:02:03.004005.
    ///
    /// Returns the errors of [`Self::from_hms`], and then the unconditional error `microsecond` if
    /// it is above 999999.
    pub fn from_hms_micro(
        hour: u8,
        minute: u8,
        second: u8,
        microsecond: u32,
    ) -> Result<Self, ComponentRange>
        ensures error { ChecksHms hour minute second result }
        ensures microsecond { FailsWith microsecond_out_of_range result
            ↔ (hour ≤ 23) × (minute ≤ 59) × (second ≤ 59) × (999_999 < microsecond) }
        ensures value { hour ≤ 23 → minute ≤ 59 → second ≤ 59 → microsecond ≤ 999_999
            → result ≡ Ok (time_of hour minute second (microsecond * 1_000)) }
    {
        Self::from_hms(hour, minute, second)?.replace_microsecond(microsecond)
    }

    /// Creates a time from an hour, a minute, a second and a nanosecond.
    /// `from_hms_nano(1, 2, 3, 4_005_006)` is 1:02:03.004005006.
    ///
    /// Returns the errors of [`Self::from_hms`], and then the unconditional error `nanosecond` if
    /// it is above 999999999.
    pub fn from_hms_nano(
        hour: u8,
        minute: u8,
        second: u8,
        nanosecond: u32,
    ) -> Result<Self, ComponentRange>
        ensures error { ChecksHms hour minute second result }
        ensures nanosecond { FailsWith nanosecond_out_of_range result
            ↔ (hour ≤ 23) × (minute ≤ 59) × (second ≤ 59) × (999_999_999 < nanosecond) }
        ensures value { hour ≤ 23 → minute ≤ 59 → second ≤ 59 → nanosecond ≤ 999_999_999
            → result ≡ Ok (time_of hour minute second nanosecond) }
    {
        let time = Self::from_hms(hour, minute, second)?;
        if nanosecond > 999_999_999 {
            return Err(ComponentRange::unconditional(Component::Nanosecond));
        }
        Ok(Self {
            nanoseconds: time.nanoseconds + u64::from(nanosecond),
        })
    }
}
