//! Parsing times of day, offsets and date-times, with errors as for a date.
ghost use Rattle.std.specs.Prelude.{◌≡◌, ℕ, ℤ};
ghost use Rattle.cal_time.specs.declared.error.ComponentRange.{ComponentRange};
ghost use Rattle.cal_datetime.specs.OffsetDateTime.{LocalAndOffset};
ghost use Rattle.cal_text.specs.OffsetDateTimeForm.{HasOffsetDateTimeForm, IsOffsetDateTimeError, IsOffsetDateTimeText};
ghost use Rattle.cal_text.specs.OffsetForm.{HasOffsetForm, IsOffsetError, IsOffsetText};
ghost use Rattle.cal_text.specs.PlainForm.{HasPlainForm, IsPlainError, IsPlainText};
ghost use Rattle.cal_text.specs.Position.{HasSome};
ghost use Rattle.cal_text.specs.Parsing.{HasError};
ghost use Rattle.cal_text.specs.TimeForm.{HasTimeForm, IsTimeError, IsTimeText};
ghost use Rattle.cal_c.specs.FormatParsing.{parsed_time_ok, parsed_time_error_at, parsed_offset_ok, parsed_offset_error_at, parsed_pair_ok};
ghost use Rattle.cal_c.specs.Statuses.{component_status};
ghost use Rattle.cal_c.specs.Texts.{IsSyntaxError, no_position, parsed_moment_ok, parsed_moment_error_at};

use crate::formats::parse_results::{ParseOffsetResult, ParseTimeResult};
use crate::texts::ParseMomentResult;
use cal_text::{offset, offset_date_time, plain, time};

/// Parses a time of day, such as `9:05` or `23:59:59.25`.
#[unsafe(no_mangle)]
pub extern "C" fn fots_time_parse(text: &[u8]) -> ParseTimeResult
    ensures value { (t : ℕ) → IsTimeText text.now t → result ≡ parsed_time_ok t }
    ensures syntax_error { ¬ HasSome HasTimeForm text.now
        → IsSyntaxError (HasSome HasTimeForm) text.now parsed_time_error_at result }
    ensures out_of_range { (why : ComponentRange) → HasError HasTimeForm IsTimeError text.now why
        → result ≡ parsed_time_error_at (component_status why.component) no_position }
{
    let time = or_return!(time::parse(text), error => ParseTimeResult::error(error));
    ParseTimeResult::ok(time)
}

/// Parses an offset from UTC, such as `Z`, `+05:30` or `-01:00:15`.
#[unsafe(no_mangle)]
pub extern "C" fn fots_offset_parse(text: &[u8]) -> ParseOffsetResult
    ensures value { (o : ℤ) → IsOffsetText text.now o → result ≡ parsed_offset_ok o }
    ensures syntax_error { ¬ HasSome HasOffsetForm text.now
        → IsSyntaxError (HasSome HasOffsetForm) text.now parsed_offset_error_at result }
    ensures out_of_range { (why : ComponentRange) → HasError HasOffsetForm IsOffsetError text.now why
        → result ≡ parsed_offset_error_at (component_status why.component) no_position }
{
    let offset = or_return!(offset::parse(text), error => ParseOffsetResult::error(error));
    ParseOffsetResult::ok(offset)
}

/// Parses a date and a time of day, such as `2024-02-29 23:59:59.25`. The offset is 0.
#[unsafe(no_mangle)]
pub extern "C" fn fots_pair_parse(text: &[u8]) -> ParseMomentResult
    ensures value { (p : ℤ) → IsPlainText text.now p → result ≡ parsed_pair_ok p }
    ensures syntax_error { ¬ HasSome HasPlainForm text.now
        → IsSyntaxError (HasSome HasPlainForm) text.now parsed_moment_error_at result }
    ensures out_of_range { (why : ComponentRange) → HasError HasPlainForm IsPlainError text.now why
        → result ≡ parsed_moment_error_at (component_status why.component) no_position }
{
    let date_time = or_return!(plain::parse(text), error => ParseMomentResult::error(error));
    ParseMomentResult::ok(date_time.assume_utc())
}

/// Parses a date, a time of day and an offset, such as `2024-02-29 23:59:59.25 +01:00`.
#[unsafe(no_mangle)]
pub extern "C" fn fots_offset_date_time_parse(text: &[u8]) -> ParseMomentResult
    ensures value { (m : LocalAndOffset) → IsOffsetDateTimeText text.now m
        → result ≡ parsed_moment_ok m }
    ensures syntax_error { ¬ HasSome HasOffsetDateTimeForm text.now
        → IsSyntaxError (HasSome HasOffsetDateTimeForm) text.now parsed_moment_error_at result }
    ensures out_of_range { (why : ComponentRange)
        → HasError HasOffsetDateTimeForm IsOffsetDateTimeError text.now why
        → result ≡ parsed_moment_error_at (component_status why.component) no_position }
{
    let moment =
        or_return!(offset_date_time::parse(text), error => ParseMomentResult::error(error));
    ParseMomentResult::ok(moment)
}
