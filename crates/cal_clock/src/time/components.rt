//! The parts of times: returned, replaced and truncated.

ghost use Rattle.std.specs.Prelude.{◌≡◌, ◌*◌, ◌/◌};
ghost use Rattle.cal_span.specs.SignedDuration.{second};
ghost use Rattle.cal_clock.specs.Time.{hour_out_of_range, minute_out_of_range, second_out_of_range, millisecond_out_of_range, microsecond_out_of_range, nanosecond_out_of_range, time_of, IsTime, ReplacesComponent, with_hour, with_minute, with_second, with_nanoseconds, hour_of, minute_of, second_of, millisecond_of, microsecond_of, nanosecond_of, hms_of, hms_milli_of, hms_micro_of, hms_nano_of};

use crate::Time;
use crate::units::{
    NANOSECONDS_PER_HOUR, NANOSECONDS_PER_MICROSECOND, NANOSECONDS_PER_MILLISECOND,
    NANOSECONDS_PER_MINUTE, NANOSECONDS_PER_SECOND,
};
use cal_units::error::{Component, ComponentRange};

impl Time {
    /// Returns the hour, minute and second: 1, 2 and 3 for 1:02:03.004005006.
    pub fn as_hms(self) -> (u8, u8, u8)
        ensures { result ≡ hms_of self }
    {
        let seconds = self.seconds_since_midnight();
        let minutes = seconds / 60;
        (
            (minutes / 60) as u8,
            (minutes % 60) as u8,
            (seconds % 60) as u8,
        )
    }

    /// Returns the hour, minute, second and millisecond: 1, 2, 3 and 4 for 1:02:03.0049.
    pub fn as_hms_milli(self) -> (u8, u8, u8, u16)
        ensures { result ≡ hms_milli_of self }
    {
        let (hour, minute, second) = self.as_hms();
        (hour, minute, second, self.millisecond())
    }

    /// Returns the hour, minute, second and microsecond: 1, 2, 3 and 4005 for 1:02:03.004005.
    pub fn as_hms_micro(self) -> (u8, u8, u8, u32)
        ensures { result ≡ hms_micro_of self }
    {
        let (hour, minute, second) = self.as_hms();
        (hour, minute, second, self.microsecond())
    }

    /// Returns the hour, minute, second and nanosecond: 1, 2, 3 and 4005006 for 1:02:03.004005006.
    pub fn as_hms_nano(self) -> (u8, u8, u8, u32)
        ensures { result ≡ hms_nano_of self }
    {
        let (hour, minute, second) = self.as_hms();
        (hour, minute, second, self.nanosecond())
    }

    /// Returns the whole seconds since midnight in 32 bits, which makes the next divisions cheap.
    fn seconds_since_midnight(self) -> u32
        ensures { result ≡ self / second }
    {
        (self.nanoseconds / NANOSECONDS_PER_SECOND) as u32
    }

    /// Returns the hour, from 0 to 23. For 1:02:03.004005006 it is 1.
    pub fn hour(self) -> u8
        ensures value { result ≡ hour_of self }
        ensures in_range { IsTime self }
    {
        (self.nanoseconds / NANOSECONDS_PER_HOUR) as u8
    }

    /// Returns the minute of the hour, from 0 to 59. For 1:02:03.004005006 it is 2.
    pub fn minute(self) -> u8
        ensures { result ≡ minute_of self }
    {
        (self.seconds_since_midnight() / 60 % 60) as u8
    }

    /// Returns the second of the minute, from 0 to 59. For 1:02:03.004005006 it is 3.
    pub fn second(self) -> u8
        ensures { result ≡ second_of self }
    {
        (self.seconds_since_midnight() % 60) as u8
    }

    /// Returns the whole milliseconds of the second, from 0 to 999. For 1:02:03.0049 they are 4.
    pub fn millisecond(self) -> u16
        ensures { result ≡ millisecond_of self }
    {
        (self.nanoseconds / NANOSECONDS_PER_MILLISECOND % 1_000) as u16
    }

    /// Returns the whole microseconds of the second, from 0 to 999999: 500000 for 1:02:03.5.
    pub fn microsecond(self) -> u32
        ensures { result ≡ microsecond_of self }
    {
        (self.nanoseconds / NANOSECONDS_PER_MICROSECOND % 1_000_000) as u32
    }

    /// Returns the nanoseconds of the second, from 0 to 999999999: 500000000 for 1:02:03.5.
    pub fn nanosecond(self) -> u32
        ensures { result ≡ nanosecond_of self }
    {
        (self.nanoseconds % NANOSECONDS_PER_SECOND) as u32
    }

    /// Replaces the hour. 1:02:03.5 with the hour 7 is 7:02:03.5. Returns the unconditional error
    /// `hour` if it is above 23.
    pub fn replace_hour(self, hour: u8) -> Result<Self, ComponentRange>
        ensures { ReplacesComponent hour 23 hour_out_of_range (with_hour self hour) result }
    {
        if hour > 23 {
            return Err(ComponentRange::unconditional(Component::Hour));
        }
        let past_hour = self.nanoseconds % NANOSECONDS_PER_HOUR;
        Ok(Self {
            nanoseconds: u64::from(hour) * NANOSECONDS_PER_HOUR + past_hour,
        })
    }

    /// Replaces the minute. 1:02:03.5 with the minute 7 is 1:07:03.5. Returns the unconditional
    /// error `minute` if it is above 59.
    pub fn replace_minute(self, minute: u8) -> Result<Self, ComponentRange>
        ensures { ReplacesComponent minute 59 minute_out_of_range (with_minute self minute) result }
    {
        if minute > 59 {
            return Err(ComponentRange::unconditional(Component::Minute));
        }
        let hours = self.truncate_to_hour().nanoseconds;
        let past_minute = self.nanoseconds % NANOSECONDS_PER_MINUTE;
        Ok(Self {
            nanoseconds: hours + u64::from(minute) * NANOSECONDS_PER_MINUTE + past_minute,
        })
    }

    /// Replaces the second. 1:02:03.5 with the second 7 is 1:02:07.5. Returns the unconditional
    /// error `second` if it is above 59.
    pub fn replace_second(self, second: u8) -> Result<Self, ComponentRange>
        ensures { ReplacesComponent second 59 second_out_of_range (with_second self second) result }
    {
        if second > 59 {
            return Err(ComponentRange::unconditional(Component::Second));
        }
        let minutes = self.truncate_to_minute().nanoseconds;
        let past_second = self.nanoseconds % NANOSECONDS_PER_SECOND;
        Ok(Self {
            nanoseconds: minutes + u64::from(second) * NANOSECONDS_PER_SECOND + past_second,
        })
    }

    /// Replaces the decimals of the second by milliseconds. 1:02:03.5 with 7 milliseconds is
    /// 1:02:03.007. Returns the unconditional error `millisecond` if it is above 999.
    pub fn replace_millisecond(self, millisecond: u16) -> Result<Self, ComponentRange>
        ensures { ReplacesComponent millisecond 999 millisecond_out_of_range
            (with_nanoseconds self (millisecond * 1_000_000)) result }
    {
        if millisecond > 999 {
            return Err(ComponentRange::unconditional(Component::Millisecond));
        }
        let seconds = self.truncate_to_second().nanoseconds;
        Ok(Self {
            nanoseconds: seconds + u64::from(millisecond) * NANOSECONDS_PER_MILLISECOND,
        })
    }

    /// Replaces the decimals of the second by microseconds. 1:02:03.5 with 7008 microseconds is
    /// 1:02:03.007008. Returns the unconditional error `microsecond` if it is above 999999.
    pub fn replace_microsecond(self, microsecond: u32) -> Result<Self, ComponentRange>
        ensures { ReplacesComponent microsecond 999_999 microsecond_out_of_range
            (with_nanoseconds self (microsecond * 1_000)) result }
    {
        if microsecond > 999_999 {
            return Err(ComponentRange::unconditional(Component::Microsecond));
        }
        let seconds = self.truncate_to_second().nanoseconds;
        Ok(Self {
            nanoseconds: seconds + u64::from(microsecond) * NANOSECONDS_PER_MICROSECOND,
        })
    }

    /// Replaces the decimals of the second by nanoseconds. 1:02:03.5 with 7 nanoseconds is
    /// 1:02:03.000000007. Returns the unconditional error `nanosecond` if it is above 999999999.
    pub fn replace_nanosecond(self, nanosecond: u32) -> Result<Self, ComponentRange>
        ensures { ReplacesComponent nanosecond 999_999_999 nanosecond_out_of_range
            (with_nanoseconds self nanosecond) result }
    {
        if nanosecond > 999_999_999 {
            return Err(ComponentRange::unconditional(Component::Nanosecond));
        }
        let seconds = self.truncate_to_second().nanoseconds;
        Ok(Self {
            nanoseconds: seconds + u64::from(nanosecond),
        })
    }

    /// Truncates the time to the hour. 1:02:03.004005006 becomes 1:00:00.0.
    pub fn truncate_to_hour(self) -> Self
        ensures { result ≡ time_of (hour_of self) 0 0 0 }
    {
        Self {
            nanoseconds: self.nanoseconds - self.nanoseconds % NANOSECONDS_PER_HOUR,
        }
    }

    /// Truncates the time to the minute. 1:02:03.004005006 becomes 1:02:00.0.
    pub fn truncate_to_minute(self) -> Self
        ensures { result ≡ time_of (hour_of self) (minute_of self) 0 0 }
    {
        Self {
            nanoseconds: self.nanoseconds - self.nanoseconds % NANOSECONDS_PER_MINUTE,
        }
    }

    /// Truncates the time to the second. 1:02:03.004005006 becomes 1:02:03.0.
    pub fn truncate_to_second(self) -> Self
        ensures { result ≡ with_nanoseconds self 0 }
    {
        Self {
            nanoseconds: self.nanoseconds - self.nanoseconds % NANOSECONDS_PER_SECOND,
        }
    }

    /// Truncates the time to the millisecond. 1:02:03.004005006 becomes 1:02:03.004.
    pub fn truncate_to_millisecond(self) -> Self
        ensures { result ≡ with_nanoseconds self (millisecond_of self * 1_000_000) }
    {
        Self {
            nanoseconds: self.nanoseconds - self.nanoseconds % NANOSECONDS_PER_MILLISECOND,
        }
    }

    /// Truncates the time to the microsecond. 1:02:03.004005006 becomes 1:02:03.004005.
    pub fn truncate_to_microsecond(self) -> Self
        ensures { result ≡ with_nanoseconds self (microsecond_of self * 1_000) }
    {
        Self {
            nanoseconds: self.nanoseconds - self.nanoseconds % NANOSECONDS_PER_MICROSECOND,
        }
    }
}
