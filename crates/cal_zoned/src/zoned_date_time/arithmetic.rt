//! Durations between date-times in zones.
ghost use Rattle.std.specs.Prelude.{◌≡◌, ◌+ℤ◌, ◌-ℤ◌, SomeIff};
ghost use Rattle.cal_datetime.specs.DateTime.{IsDateTime};
ghost use Rattle.cal_zoned.specs.Zoned.{at_instant, instant_in, reading_at};

use crate::ZonedDateTime;
use cal_time::SignedDuration;

impl<'z> ZonedDateTime<'z> {
    /// Adds a duration to the instant. Returns `None` if what the clocks show then is out of range.
    /// In Berlin an hour after 2024-03-31 1:30 +01:00:00 is 3:30 +02:00:00.
    pub fn checked_add(&self, duration: SignedDuration) -> Option<Self>
        ensures { let z = instant_in self.now +ℤ duration
            in SomeIff result (IsDateTime (reading_at self.now.zone z)) (at_instant self.now.zone z) }
    {
        Self::from_unix_timestamp_nanos(
            self.unix_timestamp_nanos() + duration.whole_nanoseconds(),
            self.zone,
        )
    }

    /// Subtracts a duration from the instant. Returns `None` if what the clocks show then is out of
    /// range. In Berlin an hour before 2024-03-31 3:30 +02:00:00 is 1:30 +01:00:00.
    pub fn checked_sub(&self, duration: SignedDuration) -> Option<Self>
        ensures { let z = instant_in self.now -ℤ duration
            in SomeIff result (IsDateTime (reading_at self.now.zone z)) (at_instant self.now.zone z) }
    {
        Self::from_unix_timestamp_nanos(
            self.unix_timestamp_nanos() - duration.whole_nanoseconds(),
            self.zone,
        )
    }

    /// Returns the duration since another instant, in any zone. In Berlin it is an hour from
    /// 2024-03-31 1:30 +01:00:00 to 3:30 +02:00:00.
    pub fn duration_since(&self, earlier: &ZonedDateTime<'_>) -> SignedDuration
        ensures { result ≡ instant_in self.now -ℤ instant_in earlier.now }
    {
        SignedDuration::nanoseconds_i128(
            self.unix_timestamp_nanos() - earlier.unix_timestamp_nanos(),
        )
    }
}
