//! Durations and periods in text (ISO 8601), with errors of parsing as for a date.
ghost use Rattle.std.specs.Prelude.{◌≡◌, ◌≤◌, ℤ, length};
ghost use Rattle.cal_duration.specs.declared.error.DurationComponent.{DurationComponent};
ghost use Rattle.cal_duration.specs.DurationText.{duration_text, period_text};
ghost use Rattle.cal_duration.specs.Form.{HasDurationForm, HasPeriodForm};
ghost use Rattle.cal_duration.specs.Parsing.{HasError};
ghost use Rattle.cal_duration.specs.Values.{IsDurationError, IsDurationText, IsPeriodError, IsPeriodText};
ghost use Rattle.cal_schedule.specs.Period.{Parts};
ghost use Rattle.cal_text.specs.Position.{HasSome};
ghost use Rattle.cal_c.specs.DurationTexts.{duration_part_status, of_duration_error, parsed_duration_error_at, parsed_duration_ok, parsed_period_error_at, parsed_period_ok, period_text_error, period_text_ok};
ghost use Rattle.cal_c.specs.Periods.{parts_in, IsPeriod};
ghost use Rattle.cal_c.specs.Texts.{IsSyntaxError, no_position, text_error, text_ok};
ghost use Rattle.cal_c.specs.Values.{need◌else◌then◌, nanoseconds_in, IsDurationPair};

use crate::results::{Duration, DurationResult};
use crate::schedule::pair_periods::ExactPeriodResult;
use crate::schedule::periods::{PeriodParts, valid_period};
use crate::status::{
    DAYS_OUT_OF_RANGE, HOURS_OUT_OF_RANGE, INVALID_DURATION, INVALID_PERIOD, MINUTES_OUT_OF_RANGE,
    MONTHS_OUT_OF_RANGE, OK, SECONDS_OUT_OF_RANGE, UNEXPECTED_BYTE, UNEXPECTED_END,
    WEEKS_OUT_OF_RANGE, YEARS_OUT_OF_RANGE,
};
use crate::texts::TextResult;
use crate::values::valid_duration;
use cal_duration::{DurationComponent, ParseDurationError, duration, period};
use cal_schedule::Period;
use cal_time::SignedDuration;

/// The bytes of the string of a period: enough for the longest one and a zero byte.
const PERIOD_CAPACITY: usize = 88;

/// The string of a period in ASCII, followed by zero bytes.
#[repr(C)]
#[derive(Clone, Copy, Debug)]
pub struct PeriodTextResult {
    pub status: i32,
    pub length: u32,
    pub bytes: [u8; PERIOD_CAPACITY],
}

/// A parsed duration, or a position as for a date. After an error its seconds are `i64::MIN`.
#[repr(C)]
#[derive(Clone, Copy, Debug)]
pub struct ParseDurationResult {
    pub status: i32,
    /// 0, in place of padding.
    pub unused: u32,
    pub duration: Duration,
    pub position: usize,
}

/// A parsed period, or a position as for a date. After an error each part is the minimum.
#[repr(C)]
#[derive(Clone, Copy, Debug)]
pub struct ParsePeriodResult {
    pub status: i32,
    /// 0, in place of padding.
    pub unused: u32,
    pub period: PeriodParts,
    pub position: usize,
}

/// Returns the status of a part of a duration that is out of range.
pub fn part_status(part: DurationComponent) -> i32
    ensures { result ≡ duration_part_status part }
{
    match part {
        DurationComponent::Years => YEARS_OUT_OF_RANGE,
        DurationComponent::Months => MONTHS_OUT_OF_RANGE,
        DurationComponent::Weeks => WEEKS_OUT_OF_RANGE,
        DurationComponent::Days => DAYS_OUT_OF_RANGE,
        DurationComponent::Hours => HOURS_OUT_OF_RANGE,
        DurationComponent::Minutes => MINUTES_OUT_OF_RANGE,
        DurationComponent::Seconds => SECONDS_OUT_OF_RANGE,
    }
}

impl PeriodTextResult {
    fn ok(text: &[u8]) -> Self
        requires { length text.now ≤ 80 }
        ensures { result ≡ period_text_ok text.now }
    {
        let mut bytes = [0; PERIOD_CAPACITY];
        bytes[..text.len()].copy_from_slice(text);
        PeriodTextResult {
            status: OK,
            length: text.len() as u32,
            bytes,
        }
    }

    fn error(status: i32) -> Self
        ensures { result ≡ period_text_error status }
    {
        PeriodTextResult {
            status,
            length: 0,
            bytes: [0; PERIOD_CAPACITY],
        }
    }
}

impl ParseDurationResult {
    fn ok(duration: SignedDuration) -> Self
        ensures { result ≡ parsed_duration_ok duration }
    {
        ParseDurationResult {
            status: OK,
            unused: 0,
            duration: DurationResult::ok(duration).duration,
            position: usize::MAX,
        }
    }

    fn error(error: ParseDurationError) -> Self
        ensures { result ≡ of_duration_error parsed_duration_error_at error }
    {
        match error {
            ParseDurationError::UnexpectedByte(position) => {
                Self::error_at(UNEXPECTED_BYTE, position)
            }
            ParseDurationError::UnexpectedEnd(position) => Self::error_at(UNEXPECTED_END, position),
            ParseDurationError::OutOfRange(part) => Self::error_at(part_status(part), usize::MAX),
        }
    }

    fn error_at(status: i32, position: usize) -> Self
        ensures { result ≡ parsed_duration_error_at status position }
    {
        ParseDurationResult {
            status,
            unused: 0,
            duration: DurationResult::error(status).duration,
            position,
        }
    }
}

impl ParsePeriodResult {
    fn ok(period: Period) -> Self
        ensures { result ≡ parsed_period_ok period }
    {
        ParsePeriodResult {
            status: OK,
            unused: 0,
            period: ExactPeriodResult::ok(period).period,
            position: usize::MAX,
        }
    }

    fn error(error: ParseDurationError) -> Self
        ensures { result ≡ of_duration_error parsed_period_error_at error }
    {
        match error {
            ParseDurationError::UnexpectedByte(position) => {
                Self::error_at(UNEXPECTED_BYTE, position)
            }
            ParseDurationError::UnexpectedEnd(position) => Self::error_at(UNEXPECTED_END, position),
            ParseDurationError::OutOfRange(part) => Self::error_at(part_status(part), usize::MAX),
        }
    }

    fn error_at(status: i32, position: usize) -> Self
        ensures { result ≡ parsed_period_error_at status position }
    {
        ParsePeriodResult {
            status,
            unused: 0,
            period: ExactPeriodResult::error(status).period,
            position,
        }
    }
}

/// Parses a duration in hours, minutes and seconds, such as `PT2H30M` or `-PT0.5S`. Days and longer
/// units are an unexpected byte. Returns the error `hours`, `minutes` or `seconds` if it is out of
/// range.
#[unsafe(no_mangle)]
pub extern "C" fn fots_duration_parse(text: &[u8]) -> ParseDurationResult
    ensures value { (v : ℤ) → IsDurationText text.now v → result ≡ parsed_duration_ok v }
    ensures syntax_error { ¬ HasSome HasDurationForm text.now
        → IsSyntaxError (HasSome HasDurationForm) text.now parsed_duration_error_at result }
    ensures out_of_range { (why : DurationComponent)
        → HasError HasDurationForm IsDurationError text.now why
        → result ≡ parsed_duration_error_at (duration_part_status why) no_position }
{
    let duration = or_return!(duration::parse(text), error => ParseDurationResult::error(error));
    ParseDurationResult::ok(duration)
}

/// Parses a period, such as `P1Y2M10DT2H30M`, `-P1D` or `P2W`. Returns the error of its first part
/// that is out of range: `years`, `months`, `weeks`, `days`, `hours`, `minutes` or `seconds`.
#[unsafe(no_mangle)]
pub extern "C" fn fots_period_parse(text: &[u8]) -> ParsePeriodResult
    ensures value { (p : Parts) → IsPeriodText text.now p → result ≡ parsed_period_ok p }
    ensures syntax_error { ¬ HasSome HasPeriodForm text.now
        → IsSyntaxError (HasSome HasPeriodForm) text.now parsed_period_error_at result }
    ensures out_of_range { (why : DurationComponent)
        → HasError HasPeriodForm IsPeriodError text.now why
        → result ≡ parsed_period_error_at (duration_part_status why) no_position }
{
    let period = or_return!(period::parse(text), error => ParsePeriodResult::error(error));
    ParsePeriodResult::ok(period)
}

/// Returns a duration in text, in hours, minutes and seconds without parts that are zero, such as
/// `PT2H30M`. Zero is `PT0S`.
#[unsafe(no_mangle)]
pub extern "C" fn fots_duration_text(duration: Duration) -> TextResult
    ensures { need IsDurationPair duration else result ≡ text_error INVALID_DURATION then
        result ≡ text_ok (duration_text (nanoseconds_in duration)) }
{
    let duration = or_error!(TextResult, valid_duration(duration), INVALID_DURATION);
    TextResult::ok(duration::text(duration).as_bytes())
}

/// Returns a period in text, without parts that are zero, such as `P1Y2M10DT2H30M` or `-P1D`. Zero
/// is `PT0S`.
#[unsafe(no_mangle)]
pub extern "C" fn fots_period_text(period: PeriodParts) -> PeriodTextResult
    ensures { need IsPeriod period else result ≡ period_text_error INVALID_PERIOD then
        result ≡ period_text_ok (period_text (parts_in period)) }
{
    let period = or_error!(PeriodTextResult, valid_period(period), INVALID_PERIOD);
    PeriodTextResult::ok(period::Text::new(period).as_bytes())
}
