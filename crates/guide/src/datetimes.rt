//! Date-times with and without an offset, and the properties that follow from their clauses.
ghost use Rattle.std.specs.Prelude.{◌≡◌, ◌↔◌, ◌≤◌, ◌+ℤ◌, ◌<ℤ◌, IfSome, IsSome, IsTrue, Some, Ok};
ghost use Rattle.cal_time.specs.Date.{IsDate, IsYear};
ghost use Rattle.cal_time.specs.Time.{IsTime};
ghost use Rattle.cal_time.specs.UtcOffset.{IsOffset};
ghost use Rattle.cal_datetime.specs.DateTime.{IsDateTime};
ghost use Rattle.cal_datetime.specs.OffsetDateTime.{instant, local_at, unix_nanoseconds};

use cal_datetime::{OffsetDateTime, PlainDateTime, with_hms, with_hms_nano};
use cal_time::error::ComponentRange;
use cal_time::{Date, Month, SignedDuration, Time, UtcOffset};
use std::io;

/// Returns the date and the time that a date-time was made from.
fn components_round_trip(date: Date, time: Time) -> (Date, Time)
    ensures { result ≡ (date, time) }
{
    let plain = PlainDateTime::new(date, time);
    (plain.date(), plain.time())
}

/// Creates a date-time from its own parts.
fn from_own_components(plain: PlainDateTime) -> PlainDateTime
    ensures { result ≡ plain }
{
    PlainDateTime::new(plain.date(), plain.time())
}

/// Creates a date-time from its own calendar date and time.
fn from_own_numbers(plain: PlainDateTime) -> Result<PlainDateTime, ComponentRange>
    ensures { result ≡ Ok plain }
{
    let (year, month, day) = plain.to_calendar_date();
    let (hour, minute, second, nanosecond) = plain.as_hms_nano();
    let date = Date::from_calendar_date(year, month, day)?;
    with_hms_nano(date, hour, minute, second, nanosecond)
}

/// Returns the date, the hour and the minute that a date-time was made from.
fn hms_round_trip(date: Date, hour: u8, minute: u8) -> Option<(Date, u8, u8)>
    ensures some { IsSome result ↔ (hour ≤ 23) × (minute ≤ 59) }
    ensures value { IfSome result (λ same. same ≡ (date, hour, minute)) }
{
    let plain = with_hms(date, hour, minute, 0).ok()?;
    Some((plain.date(), plain.hour(), plain.minute()))
}

/// Returns the year, the date and the time of day, which are in range.
fn ranges(plain: PlainDateTime) -> (i32, Date, Time)
    ensures year { IsYear result.0 }
    ensures date { IsDate result.1 }
    ensures time { IsTime result.2 }
{
    (plain.year(), plain.date(), plain.time())
}

/// Returns the components of the date, within their ranges.
fn date_ranges(plain: PlainDateTime) -> (u8, u16, u8, u8, u8)
    ensures day { result.0 ≤ 31 }
    ensures ordinal { result.1 ≤ 366 }
    ensures weeks { (result.2 ≤ 53) × (result.3 ≤ 53) × (result.4 ≤ 53) }
{
    (
        plain.day(),
        plain.ordinal(),
        plain.iso_week(),
        plain.sunday_based_week(),
        plain.monday_based_week(),
    )
}

/// Returns the components of the time of day, within their ranges.
fn clock_ranges(plain: PlainDateTime) -> (u8, u8, u8, u16, u32, u32)
    ensures clock { (result.0 ≤ 23) × (result.1 ≤ 59) × (result.2 ≤ 59) }
    ensures below { (result.3 ≤ 999) × (result.4 ≤ 999_999) × (result.5 ≤ 999_999_999) }
{
    (
        plain.hour(),
        plain.minute(),
        plain.second(),
        plain.millisecond(),
        plain.microsecond(),
        plain.nanosecond(),
    )
}

/// Returns the local date-time, its date and time, and the offset, which are in range.
fn local_ranges(moment: OffsetDateTime) -> (PlainDateTime, Date, Time, UtcOffset)
    ensures local { IsDateTime result.0 }
    ensures date { IsDate result.1 }
    ensures time { IsTime result.2 }
    ensures offset { IsOffset result.3 }
{
    (
        moment.local(),
        moment.date(),
        moment.time(),
        moment.offset(),
    )
}

/// Adds a duration and subtracts it again, which gives the same date-time.
fn add_then_sub(plain: PlainDateTime, duration: SignedDuration) -> Option<PlainDateTime>
    ensures some { IsSome result ↔ IsDateTime (plain +ℤ duration) }
    ensures value { IfSome result (λ same. same ≡ plain) }
{
    plain.checked_add(duration)?.checked_sub(duration)
}

/// Adds the difference of two date-times to the first, which gives the second.
fn add_difference(from: PlainDateTime, to: PlainDateTime) -> Option<PlainDateTime>
    ensures { result ≡ Some to }
{
    from.checked_add(to - from)
}

/// Subtracts the difference from the second, which gives the first.
fn sub_difference(from: PlainDateTime, to: PlainDateTime) -> Option<PlainDateTime>
    ensures { result ≡ Some from }
{
    to.checked_sub(to - from)
}

/// Returns the parts that a date-time at an offset was made from.
fn offset_round_trip(plain: PlainDateTime, offset: UtcOffset) -> (PlainDateTime, UtcOffset)
    ensures { result ≡ (plain, offset) }
{
    let moment = plain.assume_offset(offset);
    (moment.local(), moment.offset())
}

/// Compares a moment with the same instant at another offset. They are equal.
fn is_same_elsewhere(moment: OffsetDateTime, offset: UtcOffset) -> Option<bool>
    ensures some { IsSome result ↔ IsDateTime (local_at (instant moment) offset) }
    ensures equal { IfSome result (λ same. IsTrue same) }
{
    Some(moment.checked_to_offset(offset)? == moment)
}

/// Returns the later of two moments, or the second if they are the same instant.
fn later_moment(a: OffsetDateTime, b: OffsetDateTime) -> OffsetDateTime
    ensures tie { instant a ≡ instant b → result ≡ b }
    ensures from_a { ¬ (instant result <ℤ instant a) }
    ensures from_b { ¬ (instant result <ℤ instant b) }
{
    if b < a { a } else { b }
}

/// Adds the difference of two moments to the first, which gives the instant of the second.
fn moved_to(from: OffsetDateTime, to: OffsetDateTime) -> Option<OffsetDateTime>
    ensures instant { IfSome result (λ moved. instant moved ≡ instant to) }
    ensures offset { IfSome result (λ moved. moved.offset ≡ from.offset) }
    ensures same_offset { to.offset ≡ from.offset → result ≡ Some to }
{
    from.checked_add(to - from)
}

/// Converts a Unix time in seconds to a moment at an offset and back.
fn unix_seconds_round_trip(timestamp: i64, offset: UtcOffset) -> Option<i64>
    ensures { IfSome result (λ same. same ≡ timestamp) }
{
    let moment = OffsetDateTime::from_unix_timestamp(timestamp).ok()?;
    Some(moment.checked_to_offset(offset)?.unix_timestamp())
}

/// Converts a Unix time in nanoseconds to a moment at an offset and back.
#[tactic(auto, using(std::proofs::lemmas::Int::ints))]
fn unix_nanoseconds_round_trip(timestamp: i128, offset: UtcOffset) -> Option<i128>
    ensures { IfSome result (λ same. same ≡ timestamp) }
{
    let Ok(moment) = OffsetDateTime::from_unix_timestamp_nanos(timestamp) else {
        return None;
    };
    let shown = moment.checked_to_offset(offset)?;
    Some(shown.unix_timestamp_nanos())
}

/// Converts a moment to a Unix time and back, which gives the same instant at UTC.
#[tactic(auto, using(std::proofs::lemmas::Int::ints))]
fn through_unix_time(moment: OffsetDateTime) -> Option<OffsetDateTime>
    ensures { IfSome result (λ utc. instant utc ≡ instant moment) }
{
    let Ok(utc) = OffsetDateTime::from_unix_timestamp_nanos(moment.unix_timestamp_nanos()) else {
        return None;
    };
    Some(utc)
}

/// Converts a moment to a Unix time, back, and to its own offset, which gives the same value.
fn moment_round_trip(moment: OffsetDateTime) -> Option<OffsetDateTime>
    ensures { IfSome result (λ same. same ≡ moment) }
{
    // This call states that the local date-time is in range.
    let _ = moment.local();
    through_unix_time(moment)?.checked_to_offset(moment.offset())
}

/// Returns the Unix time of a moment at another offset, which is the same.
fn unix_time_elsewhere(moment: OffsetDateTime, offset: UtcOffset) -> Option<i128>
    ensures { IfSome result (λ time. time ≡ unix_nanoseconds (instant moment)) }
{
    Some(moment.checked_to_offset(offset)?.unix_timestamp_nanos())
}

pub fn show(rt: &impl Print) -> io::Result<()> {
    let (Ok(date), Ok(paris)) = (
        Date::from_calendar_date(2024, Month::February, 29),
        UtcOffset::from_hms(1, 0, 0),
    ) else {
        return Ok(());
    };
    let Ok(night) = with_hms(date, 23, 59, 59) else {
        return Ok(());
    };
    let night = night + SignedDuration::milliseconds(250);
    let moment = night.assume_offset(paris);
    println!(rt; "{night}")?;
    println!(rt; "{moment} {}", moment.unix_timestamp())?;
    println!(rt; "{:?}", moment.checked_to_utc())?;
    println!(rt; "{:?}", moment.checked_add(SignedDuration::HOUR))
}
