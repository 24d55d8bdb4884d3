//! Values from strings of a format.
//!
//! A call fails for numbers that are not a format, and for a format that doesn't determine such a
//! value. Otherwise it returns the errors of the parser in `cal_format`.
ghost use Rattle.std.specs.Prelude.{◌≡◌, List};
ghost use Rattle.cal_format.specs.declared.item.Item.{Item};
ghost use Rattle.cal_format.specs.Reading.{DeterminesDate, DeterminesTime, DeterminesOffset, DeterminesDateTime, DeterminesOffsetDateTime};
ghost use Rattle.cal_format.specs.Rejection.{IsRejection};
ghost use Rattle.cal_c.specs.Formats.{HasItems, IsFormat};
ghost use Rattle.cal_c.specs.FormatParsing.{IsParsed, IsTextOfDate, IsTextOfTime, IsTextOfOffset, IsTextOfPair, IsTextOfMoment, parsed_time_ok, parsed_time_error_at, parsed_offset_ok, parsed_offset_error_at, parsed_pair_ok};
ghost use Rattle.cal_c.specs.Texts.{no_position, parsed_date_ok, parsed_date_error_at, parsed_moment_ok, parsed_moment_error_at};

use super::format_parts::FormatParts;
use super::one_pass::{parse_date_at_once, parse_pair_at_once, parse_time_at_once};
use super::parse_results::{ParseOffsetResult, ParseTimeResult, status_and_position};
use crate::status::{INSUFFICIENT_FORMAT, INVALID_FORMAT};
use crate::texts::{ParseDateResult, ParseMomentResult};
use cal_format::{DateFormat, DateTimeFormat, OffsetDateTimeFormat, OffsetFormat, TimeFormat};

/// The position of an error that has none.
const NO_POSITION: usize = usize::MAX;

/// Parses a value of one type, or returns the error of numbers that are not a format or of a format
/// that doesn't determine such a value.
macro_rules! parse_by_format {
    ($text:ident, $format:ident, $for_values:ident, $parse:ident, $result:ident) => {{
        let format = or_return!(
            $format.to_format(),
            $result::error_at(INVALID_FORMAT, NO_POSITION)
        );
        let format = or_return!(
            format.$for_values(),
            $result::error_at(INSUFFICIENT_FORMAT, NO_POSITION)
        );
        $parse($text, &format)
    }};
}

/// Returns the result of a parsed value, or of an error.
macro_rules! result_of {
    ($parsed:expr, $value:ident => $ok:expr, $result:ident) => {
        match $parsed {
            Ok($value) => $ok,
            Err(error) => {
                let (status, position) = status_and_position(error);
                $result::error_at(status, position)
            }
        }
    };
}

/// Parses a date in the string of a format, such as `29/02/2024` by `%d/%m/%Y`.
#[unsafe(no_mangle)]
pub extern "C" fn fots_date_parse_format(text: &[u8], format: &FormatParts) -> ParseDateResult
    ensures invalid_format { ¬ IsFormat format.now
        → result ≡ parsed_date_error_at INVALID_FORMAT no_position }
    ensures insufficient_format { (items : List Item) → HasItems format.now items
        → ¬ DeterminesDate items → result ≡ parsed_date_error_at INSUFFICIENT_FORMAT no_position }
    ensures value { (items : List Item) → HasItems format.now items → DeterminesDate items
        → IsParsed (IsTextOfDate items text.now) (IsRejection items text.now) parsed_date_ok parsed_date_error_at result }
{
    if let Some(date) = parse_date_at_once(text, format) {
        return ParseDateResult::ok(date);
    }
    parse_by_format!(text, format, for_dates, parse_date, ParseDateResult)
}

fn parse_date(text: &[u8], format: &DateFormat) -> ParseDateResult
    ensures { IsParsed (IsTextOfDate format.now text.now) (IsRejection format.now text.now) parsed_date_ok parsed_date_error_at result }
{
    result_of!(format.parse(text), date => ParseDateResult::ok(date), ParseDateResult)
}

/// Parses a time of day in the string of a format, such as `23:59` by `%H:%M`.
#[unsafe(no_mangle)]
pub extern "C" fn fots_time_parse_format(text: &[u8], format: &FormatParts) -> ParseTimeResult
    ensures invalid_format { ¬ IsFormat format.now
        → result ≡ parsed_time_error_at INVALID_FORMAT no_position }
    ensures insufficient_format { (items : List Item) → HasItems format.now items
        → ¬ DeterminesTime items → result ≡ parsed_time_error_at INSUFFICIENT_FORMAT no_position }
    ensures value { (items : List Item) → HasItems format.now items → DeterminesTime items
        → IsParsed (IsTextOfTime items text.now) (IsRejection items text.now) parsed_time_ok parsed_time_error_at result }
{
    if let Some(time) = parse_time_at_once(text, format) {
        return ParseTimeResult::ok(time);
    }
    parse_by_format!(text, format, for_times, parse_time, ParseTimeResult)
}

fn parse_time(text: &[u8], format: &TimeFormat) -> ParseTimeResult
    ensures { IsParsed (IsTextOfTime format.now text.now) (IsRejection format.now text.now) parsed_time_ok parsed_time_error_at result }
{
    result_of!(format.parse(text), time => ParseTimeResult::ok(time), ParseTimeResult)
}

/// Parses an offset in the string of a format, such as `+05:30` by `%:z`.
#[unsafe(no_mangle)]
pub extern "C" fn fots_offset_parse_format(text: &[u8], format: &FormatParts) -> ParseOffsetResult
    ensures invalid_format { ¬ IsFormat format.now
        → result ≡ parsed_offset_error_at INVALID_FORMAT no_position }
    ensures insufficient_format { (items : List Item) → HasItems format.now items
        → ¬ DeterminesOffset items → result ≡ parsed_offset_error_at INSUFFICIENT_FORMAT no_position }
    ensures value { (items : List Item) → HasItems format.now items → DeterminesOffset items
        → IsParsed (IsTextOfOffset items text.now) (IsRejection items text.now) parsed_offset_ok parsed_offset_error_at result }
{
    parse_by_format!(text, format, for_offsets, parse_offset, ParseOffsetResult)
}

fn parse_offset(text: &[u8], format: &OffsetFormat) -> ParseOffsetResult
    ensures { IsParsed (IsTextOfOffset format.now text.now) (IsRejection format.now text.now) parsed_offset_ok parsed_offset_error_at result }
{
    result_of!(format.parse(text), offset => ParseOffsetResult::ok(offset), ParseOffsetResult)
}

/// Parses a date and a time of day in the string of a format, such as `2024-02-29 23:59` by `%F
/// %R`. The offset is 0.
#[unsafe(no_mangle)]
pub extern "C" fn fots_pair_parse_format(text: &[u8], format: &FormatParts) -> ParseMomentResult
    ensures invalid_format { ¬ IsFormat format.now
        → result ≡ parsed_moment_error_at INVALID_FORMAT no_position }
    ensures insufficient_format { (items : List Item) → HasItems format.now items
        → ¬ DeterminesDateTime items → result ≡ parsed_moment_error_at INSUFFICIENT_FORMAT no_position }
    ensures value { (items : List Item) → HasItems format.now items → DeterminesDateTime items
        → IsParsed (IsTextOfPair items text.now) (IsRejection items text.now) parsed_pair_ok parsed_moment_error_at result }
{
    if let Some(date_time) = parse_pair_at_once(text, format) {
        return ParseMomentResult::ok(date_time.assume_utc());
    }
    parse_by_format!(text, format, for_date_times, parse_pair, ParseMomentResult)
}

fn parse_pair(text: &[u8], format: &DateTimeFormat) -> ParseMomentResult
    ensures { IsParsed (IsTextOfPair format.now text.now) (IsRejection format.now text.now) parsed_pair_ok parsed_moment_error_at result }
{
    result_of!(
        format.parse(text),
        date_time => ParseMomentResult::ok(date_time.assume_utc()),
        ParseMomentResult
    )
}

/// Parses a date, a time of day and an offset in the string of a format, such as
/// `2024-02-29 23:59 +0100` by `%F %R %z`.
#[unsafe(no_mangle)]
pub extern "C" fn fots_moment_parse_format(text: &[u8], format: &FormatParts) -> ParseMomentResult
    ensures invalid_format { ¬ IsFormat format.now
        → result ≡ parsed_moment_error_at INVALID_FORMAT no_position }
    ensures insufficient_format { (items : List Item) → HasItems format.now items
        → ¬ DeterminesOffsetDateTime items → result ≡ parsed_moment_error_at INSUFFICIENT_FORMAT no_position }
    ensures value { (items : List Item) → HasItems format.now items → DeterminesOffsetDateTime items
        → IsParsed (IsTextOfMoment items text.now) (IsRejection items text.now) parsed_moment_ok parsed_moment_error_at result }
{
    parse_by_format!(
        text,
        format,
        for_offset_date_times,
        parse_moment,
        ParseMomentResult
    )
}

fn parse_moment(text: &[u8], format: &OffsetDateTimeFormat) -> ParseMomentResult
    ensures { IsParsed (IsTextOfMoment format.now text.now) (IsRejection format.now text.now) parsed_moment_ok parsed_moment_error_at result }
{
    result_of!(format.parse(text), moment => ParseMomentResult::ok(moment), ParseMomentResult)
}
