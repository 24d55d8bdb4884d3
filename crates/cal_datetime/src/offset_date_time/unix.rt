//! Unix times: the time since 1970-01-01 0:00 UTC, with 86400 seconds in each day.
ghost use Rattle.std.specs.Prelude.{◌≡◌, ◌↔◌, ◌/◌, ◌^◌, ◌<◌, ◌<ℤ◌, ◌≤ℤ◌, unsigned_abs, ℤ, pos, neg_ℤ, ◌+ℤ◌, ◌-ℤ◌, ◌*ℤ◌, Ok, IfOk, IfErr, IsSome, IfSome};
ghost use Rattle.cal_time.specs.Date.{first_julian_day};
ghost use Rattle.cal_time.specs.Arithmetic.{IsDateNumber};
ghost use Rattle.cal_time.specs.ComponentError.{FailsWith};
ghost use Rattle.cal_time.specs.SignedDuration.{second};
ghost use Rattle.cal_time.specs.UtcOffset.{max_offset_seconds};
ghost use Rattle.cal_datetime.specs.DateTime.{IsDateTime};
ghost use Rattle.cal_datetime.specs.OffsetDateTime.{instant, IsInstant, epoch_day, unix_epoch, unix_nanoseconds, unix_seconds, timestamp_out_of_range};

use crate::OffsetDateTime;
use cal_time::error::{Component, ComponentRange};
use cal_time::{Counted, Date, SignedDuration, Time, UtcOffset};

/// The Julian day of 1970-01-01.
const EPOCH_DAY: i64 = 2_440_588;

const SECONDS_PER_DAY: i64 = 86_400;

const NANOSECONDS_PER_SECOND: i128 = 1_000_000_000;

/// The instant of 1970-01-01 0:00 UTC.
const EPOCH: i128 = 31_619_087_596_800_000_000_000;

impl OffsetDateTime {
    /// Returns 1970-01-01 0:00 UTC, whose Unix time is 0.
    pub fn unix_epoch() -> Self
        ensures value { result ≡ record { local = unix_epoch; offset = pos 0 } }
        ensures instant { instant result ≡ unix_epoch }
    {
        Self::new_utc(date_from_days(0).unwrap(), Time::MIDNIGHT)
    }

    /// Creates a date-time at UTC from a Unix timestamp in seconds, negative before 1970. Returns
    /// the error `timestamp` if the result is out of range. 1000000000 is 2001-09-09 1:46:40.
    pub fn from_unix_timestamp(timestamp: i64) -> Result<Self, ComponentRange>
        ensures value { let local = unix_epoch +ℤ timestamp *ℤ pos second
            in IsDateTime local → result ≡ Ok (record { local = local; offset = pos 0 }) }
        ensures instant { IfOk result (λ m. instant m ≡ unix_epoch +ℤ timestamp *ℤ pos second) }
        ensures error { FailsWith timestamp_out_of_range result
            ↔ ¬ IsDateTime (unix_epoch +ℤ timestamp *ℤ pos second) }
        ensures error_kind { IfErr result (λ e. e ≡ timestamp_out_of_range) }
    {
        date_time_at_utc(timestamp, 0)
    }

    /// Creates a date-time at UTC from a Unix timestamp in nanoseconds, negative before 1970.
    /// Returns the error `timestamp` if the result is out of range. -1 is 1969-12-31
    /// 23:59:59.999999999.
    pub fn from_unix_timestamp_nanos(timestamp: i128) -> Result<Self, ComponentRange>
        ensures value { let local = unix_epoch +ℤ timestamp
            in IsDateTime local → result ≡ Ok (record { local = local; offset = pos 0 }) }
        ensures instant { IfOk result (λ m. instant m ≡ unix_epoch +ℤ timestamp) }
        ensures error { FailsWith timestamp_out_of_range result
            ↔ ¬ IsDateTime (unix_epoch +ℤ timestamp) }
        ensures error_kind { IfErr result (λ e. e ≡ timestamp_out_of_range) }
    {
        let nanoseconds = timestamp.rem_euclid(NANOSECONDS_PER_SECOND) as i32;
        match i64::try_from(timestamp.div_euclid(NANOSECONDS_PER_SECOND)) {
            Ok(seconds) => date_time_at_utc(seconds, nanoseconds),
            Err(_) => Err(ComponentRange::unconditional(Component::Timestamp)),
        }
    }

    /// Returns the Unix timestamp in seconds, rounded down. Half a second before 1970 it is -1.
    pub fn unix_timestamp(self) -> i64
        ensures value { result ≡ unix_seconds (instant self) }
        ensures every { (seconds : ℤ) → instant self ≡ unix_epoch +ℤ seconds *ℤ pos second
            → result ≡ seconds }
    {
        let seconds = days_since_epoch(self.date()) * SECONDS_PER_DAY
            + seconds_since_midnight(self.time());
        seconds - offset_seconds(self.offset())
    }

    /// Returns the Unix timestamp in nanoseconds, negative before 1970. For 1970-01-01 1:00
    /// +00:00:00 it is 3600000000000.
    pub fn unix_timestamp_nanos(self) -> i128
        ensures { result ≡ unix_nanoseconds (instant self) }
    {
        self.instant() - EPOCH
    }

    /// Returns the nanoseconds at UTC since the first date-time of the range. It needs no division.
    #[tactic(auto, using(crate::proofs::Instants::instants), unfolding(crate::specs::OffsetDateTime::instant))]
    pub(super) fn instant(self) -> i128
        ensures value { result ≡ instant self }
        ensures parts { result ≡ self.local -ℤ self.offset *ℤ pos second }
        ensures range { IsInstant result }
    {
        let local = self.local().number();
        local - i128::from(self.offset().whole_seconds()) * NANOSECONDS_PER_SECOND
    }
}

/// Returns the date of a Julian day, or `None` if it is out of range.
fn checked_date_of_julian_day(julian_day: i32) -> Option<Date>
    ensures some { IsSome result ↔ IsDateNumber (julian_day -ℤ first_julian_day) }
    ensures value { IfSome result (λ n. pos n ≡ julian_day -ℤ first_julian_day) }
{
    match Date::from_julian_day(julian_day) {
        Ok(date) => Some(date),
        Err(_) => None,
    }
}

/// Returns the date some days after 1970-01-01, or `None` if it is out of range.
fn date_from_days(days: i64) -> Option<Date>
    requires { unsigned_abs days < 2 ^ 62 }
    ensures some { IsSome result ↔ IsDateNumber (epoch_day +ℤ days) }
    ensures value { IfSome result (λ n. pos n ≡ epoch_day +ℤ days) }
{
    match i32::try_from(days + EPOCH_DAY) {
        Ok(julian_day) => checked_date_of_julian_day(julian_day),
        Err(_) => None,
    }
}

/// Returns the days from 1970-01-01 to the date, negative before it.
fn days_since_epoch(date: Date) -> i64
    ensures value { result ≡ pos date -ℤ epoch_day }
    ensures range { (neg_ℤ (pos 400_000_000) ≤ℤ result) × (result ≤ℤ pos 400_000_000) }
{
    i64::from(date.to_julian_day()) - EPOCH_DAY
}

/// Returns the whole seconds since midnight.
fn seconds_since_midnight(time: Time) -> i64
    ensures value { result ≡ pos (time / second) }
    ensures range { (pos 0 ≤ℤ result) × (result <ℤ pos 86_400) }
{
    let _ = time.hour();
    (time.number() as u64 / 1_000_000_000) as i64
}

/// Returns the total seconds of an offset.
fn offset_seconds(offset: UtcOffset) -> i64
    ensures value { result ≡ offset }
    ensures min { neg_ℤ (pos max_offset_seconds) ≤ℤ result }
    ensures max { result ≤ℤ pos max_offset_seconds }
{
    i64::from(offset.whole_seconds())
}

/// Creates a time of day from seconds since midnight and nanoseconds.
fn time_from_seconds(seconds: i64, nanoseconds: i32) -> Time
    requires not_before { pos 0 ≤ℤ seconds × pos 0 ≤ℤ nanoseconds }
    requires within_day { seconds <ℤ pos 86_400 }
    requires within_second { nanoseconds <ℤ pos second }
    ensures { pos result ≡ seconds *ℤ pos second +ℤ nanoseconds }
{
    Time::MIDNIGHT + SignedDuration::new(seconds, nanoseconds)
}

/// Creates the date-time at UTC some seconds and nanoseconds after 1970-01-01 0:00.
fn date_time_at_utc(seconds: i64, nanoseconds: i32) -> Result<OffsetDateTime, ComponentRange>
    requires { pos 0 ≤ℤ nanoseconds × nanoseconds <ℤ pos second }
    ensures value { let local = unix_epoch +ℤ (seconds *ℤ pos second +ℤ nanoseconds)
        in IsDateTime local → result ≡ Ok (record { local = local; offset = pos 0 }) }
    ensures instant { IfOk result (λ m.
        instant m ≡ unix_epoch +ℤ (seconds *ℤ pos second +ℤ nanoseconds)) }
    ensures error { FailsWith timestamp_out_of_range result
        ↔ ¬ IsDateTime (unix_epoch +ℤ (seconds *ℤ pos second +ℤ nanoseconds)) }
    ensures error_kind { IfErr result (λ e. e ≡ timestamp_out_of_range) }
{
    let time = time_from_seconds(seconds.rem_euclid(SECONDS_PER_DAY), nanoseconds);
    match date_from_days(seconds.div_euclid(SECONDS_PER_DAY)) {
        Some(date) => Ok(OffsetDateTime::new_utc(date, time)),
        None => Err(ComponentRange::unconditional(Component::Timestamp)),
    }
}
