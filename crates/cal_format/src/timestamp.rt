//! Moments from Unix times.
ghost use Rattle.std.specs.Prelude.{◌≡◌, ◌+◌, ◌*◌, ◌<◌, ◌≤◌, Some, IfSome, IfNone, unsigned_abs, pos};
ghost use Rattle.cal_time.specs.Date.{IsDate};
ghost use Rattle.cal_time.specs.SignedDuration.{second};
ghost use Rattle.cal_time.specs.Time.{IsTime, nanosecond_of};
ghost use Rattle.cal_format.specs.declared.moment.Moment.{Moment};
ghost use Rattle.cal_format.specs.Moment.{IsMoment, timestamp_of};
ghost use Rattle.cal_format.specs.Scanning.{signed_seconds};

use crate::moment::Moment;
use cal_time::{Date, Time, UtcOffset};

/// The seconds from the first day of the range to 1970-01-01.
const EPOCH: i64 = 31_619_087_596_800;

/// The Julian day of the first day of the range.
const FIRST_JULIAN_DAY: i32 = -363_521_074;

/// Returns the seconds, negative if the sign is 1.
pub(crate) fn signed(sign: u64, seconds: u64) -> i64
    requires { seconds < 100_000_000_000_000 }
    ensures value { result ≡ signed_seconds sign seconds }
    ensures magnitude { unsigned_abs result ≡ seconds }
{
    if sign == 1 {
        -(seconds as i64)
    } else {
        seconds as i64
    }
}

/// Returns the moment with a Unix time of these seconds, which are negative if the sign is 1, these
/// nanoseconds of the second and this offset.
pub(crate) fn moment_at(
    sign: u64,
    seconds: u64,
    nanosecond: u32,
    offset: UtcOffset,
) -> Option<Moment>
    requires seconds { seconds < 100_000_000_000_000 }
    requires nanosecond { nanosecond < 1_000_000_000 }
    ensures every { (v : Moment) → IsMoment v → v.offset ≡ offset → timestamp_of v ≡ signed_seconds sign seconds
        → nanosecond_of v.time ≡ nanosecond
        → result ≡ Some v }
    ensures value { IfSome result (λ v. IsMoment v × (v.offset ≡ offset)
        × (timestamp_of v ≡ signed_seconds sign seconds) × (nanosecond_of v.time ≡ nanosecond)) }
{
    let timestamp = signed(sign, seconds);
    let local = timestamp + i64::from(offset.whole_seconds()) + EPOCH;
    if local < 0 {
        return None;
    }
    let local = local as u64;
    let date = date_at(local / 86_400)?;
    let time = time_at((local % 86_400) as u32, nanosecond)?;
    Some(Moment { date, time, offset })
}

/// Returns the date with this number of days after the first date of the range.
fn date_at(days: u64) -> Option<Date>
    ensures every { IsDate days → result ≡ Some days }
    ensures value { IfSome result (λ n. IsDate n × (n ≡ days)) }
{
    if days > 730_484_633 {
        return None;
    }
    Date::from_julian_day(days as i32 + FIRST_JULIAN_DAY).ok()
}

/// Returns the time of day with these seconds after midnight.
fn time_at(seconds: u32, nanosecond: u32) -> Option<Time>
    requires seconds { seconds < 86_400 }
    requires nanosecond { nanosecond < 1_000_000_000 }
    ensures { result ≡ Some (seconds * second + nanosecond) }
{
    let hour = (seconds / 3_600) as u8;
    let minute = (seconds / 60 % 60) as u8;
    Time::from_hms_nano(hour, minute, (seconds % 60) as u8, nanosecond).ok()
}
