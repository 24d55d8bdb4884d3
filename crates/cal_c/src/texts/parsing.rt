//! Parsing dates, moments and Unix times.
//!
//! A string in another form is an unexpected byte or end at a position. A string that has the form
//! is the error of its first component out of range.
ghost use Rattle.std.specs.Prelude.{◌≡◌, ◌+ℤ◌, ℕ};
ghost use Rattle.cal_time.specs.Date.{IsDate};
ghost use Rattle.cal_time.specs.Time.{IsTime};
ghost use Rattle.cal_time.specs.UtcOffset.{IsOffset};
ghost use Rattle.cal_time.specs.declared.error.ComponentRange.{ComponentRange};
ghost use Rattle.cal_datetime.specs.DateTime.{IsDateTime};
ghost use Rattle.cal_datetime.specs.OffsetDateTime.{LocalAndOffset, instant, local_at, unix_epoch, unix_nanoseconds};
ghost use Rattle.cal_text.specs.DateForms.{IsDateText};
ghost use Rattle.cal_text.specs.JulianForm.{julian_text, IsJulianForm, IsJulianDayError};
ghost use Rattle.cal_text.specs.Position.{HasSome};
ghost use Rattle.cal_text.specs.Parsing.{HasError};
ghost use Rattle.cal_text.specs.Rfc3339Form.{IsMomentText};
ghost use Rattle.cal_text.specs.UnixText.{HasUnixForm, IsUnixText, IsUnixTimeError};
ghost use Rattle.cal_c.specs.Results.{duration_ok, duration_error, pair_at_local, pair_error};
ghost use Rattle.cal_c.specs.Statuses.{component_status};
ghost use Rattle.cal_c.specs.Texts.{parsed_date_ok, parsed_date_error, parsed_date_error_at, parsed_moment_ok, parsed_moment_error, parsed_moment_error_at, HasDateSyntax, HasMomentSyntax, HasDateError, HasMomentError, IsSyntaxError};
ghost use Rattle.cal_c.specs.Values.{need◌else◌then◌, IsDurationPair, IsJulianDay, moment_of, nanoseconds_in};

use crate::results::{Duration, DurationResult, PairResult};
use crate::status::{
    INVALID_DATE, INVALID_DURATION, INVALID_OFFSET, INVALID_TIME, RESULT_OUT_OF_RANGE,
};
use crate::texts::{ParseDateResult, ParseMomentResult};
use crate::values::{valid_date, valid_duration, valid_offset, valid_time};
use cal_datetime::OffsetDateTime;
use cal_text::{date, julian_day, rfc3339, unix};
use cal_time::UtcOffset;

/// Parses a calendar, ordinal or week date: `2024-02-29`, `2024-060` or `2024-W09-4`.
#[unsafe(no_mangle)]
pub extern "C" fn fots_date_parse(text: &[u8]) -> ParseDateResult
    ensures value { (n : ℕ) → IsDate n → IsDateText text.now n → result ≡ parsed_date_ok n }
    ensures syntax_error { ¬ HasDateSyntax text.now → IsSyntaxError HasDateSyntax text.now parsed_date_error_at result }
    ensures out_of_range { (why : ComponentRange) → HasDateError text.now why
        → result ≡ parsed_date_error (component_status why.component) }
{
    let date = or_return!(date::parse(text), error => ParseDateResult::error(error));
    ParseDateResult::ok(date)
}

/// Parses the letter J and a Julian day, such as `J2460370`. Returns the error `julian_day` if it
/// is out of range.
#[unsafe(no_mangle)]
pub extern "C" fn fots_julian_day_parse(text: &[u8]) -> ParseDateResult
    ensures value { (n : ℕ) → IsDate n → text.now ≡ julian_text n → result ≡ parsed_date_ok n }
    ensures syntax_error { ¬ HasSome IsJulianForm text.now
        → IsSyntaxError (HasSome IsJulianForm) text.now parsed_date_error_at result }
    ensures out_of_range { (why : ComponentRange) → HasError IsJulianForm IsJulianDayError text.now why
        → result ≡ parsed_date_error (component_status why.component) }
{
    let date = or_return!(julian_day::parse(text), error => ParseDateResult::error(error));
    ParseDateResult::ok(date)
}

/// Parses a date, a time and an offset in RFC 3339, such as `2024-02-29T23:59:59.25+01:00`.
#[unsafe(no_mangle)]
pub extern "C" fn fots_moment_parse(text: &[u8]) -> ParseMomentResult
    ensures value { (m : LocalAndOffset) → IsMomentText text.now m → result ≡ parsed_moment_ok m }
    ensures syntax_error { ¬ HasMomentSyntax text.now → IsSyntaxError HasMomentSyntax text.now parsed_moment_error_at result }
    ensures out_of_range { (why : ComponentRange) → HasMomentError text.now why
        → result ≡ parsed_moment_error (component_status why.component) }
{
    let moment = or_return!(rfc3339::parse(text), error => ParseMomentResult::error(error));
    ParseMomentResult::ok(moment)
}

/// Parses a Unix time, such as `@1709164800.5`, to a date and a time at UTC. Returns the error
/// `timestamp` if no moment at UTC has this time.
#[unsafe(no_mangle)]
pub extern "C" fn fots_unix_parse(text: &[u8]) -> ParseMomentResult
    ensures value { (m : LocalAndOffset) → IsUnixText text.now m → result ≡ parsed_moment_ok m }
    ensures syntax_error { ¬ HasSome HasUnixForm text.now
        → IsSyntaxError (HasSome HasUnixForm) text.now parsed_moment_error_at result }
    ensures out_of_range { (why : ComponentRange) → HasError HasUnixForm IsUnixTimeError text.now why
        → result ≡ parsed_moment_error (component_status why.component) }
{
    let moment = or_return!(unix::parse(text), error => ParseMomentResult::error(error));
    ParseMomentResult::ok(moment)
}

/// Returns the Unix time of a local date and time at an offset. For 2024-02-29 0:00:00.5 at UTC it
/// is 1709164800 seconds and 500000000 nanoseconds.
#[unsafe(no_mangle)]
pub extern "C" fn fots_unix_time(date: i32, time: u64, offset: i32) -> DurationResult
    ensures invalid_date { ¬ IsJulianDay date → result ≡ duration_error INVALID_DATE }
    ensures invalid_time { IsJulianDay date → ¬ IsTime time → result ≡ duration_error INVALID_TIME }
    ensures invalid_offset { IsJulianDay date → IsTime time → ¬ IsOffset offset
        → result ≡ duration_error INVALID_OFFSET }
    ensures value { IsJulianDay date → IsTime time → IsOffset offset
        → result ≡ duration_ok (unix_nanoseconds (instant (moment_of date time offset))) }
{
    let date = or_error!(DurationResult, valid_date(date), INVALID_DATE);
    let time = or_error!(DurationResult, valid_time(time), INVALID_TIME);
    let offset = or_error!(DurationResult, valid_offset(offset), INVALID_OFFSET);
    let moment = OffsetDateTime::new_in_offset(date, time, offset);
    DurationResult::ok(moment - OffsetDateTime::unix_epoch())
}

/// Returns the local date and time of a Unix time at an offset. Fails if they are out of range.
/// 1709164800 seconds at the offset 3600 are 2024-02-29 1:00.
#[unsafe(no_mangle)]
pub extern "C" fn fots_unix_pair(duration: Duration, offset: i32) -> PairResult
    ensures { let local = local_at unix_epoch offset +ℤ nanoseconds_in duration in
        need IsDurationPair duration else result ≡ pair_error INVALID_DURATION then
        need IsOffset offset else result ≡ pair_error INVALID_OFFSET then
        need IsDateTime local else result ≡ pair_error RESULT_OUT_OF_RANGE then
        result ≡ pair_at_local local }
{
    let duration = or_error!(PairResult, valid_duration(duration), INVALID_DURATION);
    let offset = or_error!(PairResult, valid_offset(offset), INVALID_OFFSET);
    let moment = or_return!(
        epoch_at_offset(offset).checked_add(duration),
        PairResult::error(RESULT_OUT_OF_RANGE)
    );
    PairResult::from_option(Some((moment.date(), moment.time())))
}

/// Returns 1970-01-01 0:00 UTC at an offset.
fn epoch_at_offset(offset: UtcOffset) -> OffsetDateTime
    ensures { result ≡ record { local = local_at unix_epoch offset; offset = offset } }
{
    // This call states that the offset is in its range. It costs nothing.
    let _ = offset.whole_seconds();
    let epoch = OffsetDateTime::unix_epoch();
    match epoch.checked_to_offset(offset) {
        Some(shown) => shown,
        None => epoch,
    }
}
