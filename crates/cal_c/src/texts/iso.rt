//! Parsing dates, times of day and date-times in all formats of ISO 8601, with errors as for a date.
ghost use Rattle.std.specs.Prelude.{◌≡◌, ℕ, ℤ};
ghost use Rattle.cal_time.specs.declared.error.ComponentRange.{ComponentRange};
ghost use Rattle.cal_datetime.specs.OffsetDateTime.{LocalAndOffset};
ghost use Rattle.cal_text.specs.OffsetDateTimeForm.{IsOffsetDateTimeError};
ghost use Rattle.cal_text.specs.PlainForm.{IsPlainError};
ghost use Rattle.cal_text.specs.Position.{HasSome};
ghost use Rattle.cal_text.specs.Parsing.{HasError, IsDateError};
ghost use Rattle.cal_text.specs.TimeForm.{IsTimeError};
ghost use Rattle.cal_iso.specs.DateForm.{HasIsoDate, IsIsoDateText};
ghost use Rattle.cal_iso.specs.MomentForm.{HasIsoMoment, HasIsoPlain, IsIsoMomentText, IsIsoPlainText};
ghost use Rattle.cal_iso.specs.TimeForm.{HasIsoTime, IsIsoTimeText};
ghost use Rattle.cal_c.specs.FormatParsing.{parsed_time_ok, parsed_time_error_at, parsed_pair_ok};
ghost use Rattle.cal_c.specs.Statuses.{component_status};
ghost use Rattle.cal_c.specs.Texts.{IsSyntaxError, no_position, parsed_date_ok, parsed_date_error_at, parsed_moment_ok, parsed_moment_error_at};

use crate::formats::parse_results::ParseTimeResult;
use crate::texts::{ParseDateResult, ParseMomentResult};
use cal_iso::{date, offset_date_time, plain, time};

/// Parses a date in any format of ISO 8601, such as `20240229`, `2024060` or `2024W094`.
#[unsafe(no_mangle)]
pub extern "C" fn fots_date_parse_iso(text: &[u8]) -> ParseDateResult
    ensures value { (n : ℕ) → IsIsoDateText text.now n → result ≡ parsed_date_ok n }
    ensures syntax_error { ¬ HasSome HasIsoDate text.now
        → IsSyntaxError (HasSome HasIsoDate) text.now parsed_date_error_at result }
    ensures out_of_range { (why : ComponentRange) → HasError HasIsoDate IsDateError text.now why
        → result ≡ parsed_date_error_at (component_status why.component) no_position }
{
    let date = or_return!(date::parse(text), error => ParseDateResult::error(error));
    ParseDateResult::ok(date)
}

/// Parses a time of day in any format of ISO 8601, such as `225959,25` or `T22`.
#[unsafe(no_mangle)]
pub extern "C" fn fots_time_parse_iso(text: &[u8]) -> ParseTimeResult
    ensures value { (t : ℕ) → IsIsoTimeText text.now t → result ≡ parsed_time_ok t }
    ensures syntax_error { ¬ HasSome HasIsoTime text.now
        → IsSyntaxError (HasSome HasIsoTime) text.now parsed_time_error_at result }
    ensures out_of_range { (why : ComponentRange) → HasError HasIsoTime IsTimeError text.now why
        → result ≡ parsed_time_error_at (component_status why.component) no_position }
{
    let time = or_return!(time::parse(text), error => ParseTimeResult::error(error));
    ParseTimeResult::ok(time)
}

/// Parses a date and a time of day in any format of ISO 8601, such as `20240229T2259`. A date alone
/// is its midnight. The offset is 0.
#[unsafe(no_mangle)]
pub extern "C" fn fots_pair_parse_iso(text: &[u8]) -> ParseMomentResult
    ensures value { (p : ℤ) → IsIsoPlainText text.now p → result ≡ parsed_pair_ok p }
    ensures syntax_error { ¬ HasSome HasIsoPlain text.now
        → IsSyntaxError (HasSome HasIsoPlain) text.now parsed_moment_error_at result }
    ensures out_of_range { (why : ComponentRange) → HasError HasIsoPlain IsPlainError text.now why
        → result ≡ parsed_moment_error_at (component_status why.component) no_position }
{
    let date_time = or_return!(plain::parse(text), error => ParseMomentResult::error(error));
    ParseMomentResult::ok(date_time.assume_utc())
}

/// Parses a date, a time of day and an offset in any format of ISO 8601, such as
/// `2024-02-29 22:59:59.25+00` or `20240229T225959Z`.
#[unsafe(no_mangle)]
pub extern "C" fn fots_moment_parse_iso(text: &[u8]) -> ParseMomentResult
    ensures value { (m : LocalAndOffset) → IsIsoMomentText text.now m
        → result ≡ parsed_moment_ok m }
    ensures syntax_error { ¬ HasSome HasIsoMoment text.now
        → IsSyntaxError (HasSome HasIsoMoment) text.now parsed_moment_error_at result }
    ensures out_of_range { (why : ComponentRange)
        → HasError HasIsoMoment IsOffsetDateTimeError text.now why
        → result ≡ parsed_moment_error_at (component_status why.component) no_position }
{
    let moment =
        or_return!(offset_date_time::parse(text), error => ParseMomentResult::error(error));
    ParseMomentResult::ok(moment)
}
