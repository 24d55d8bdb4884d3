//! Values from variants of the strings of a format.
//!
//! A call fails for numbers that are not a format, and for a format that can't be read leniently.
//! Otherwise it returns the errors of the parser in `cal_format`.
ghost use Rattle.std.specs.Prelude.{◌≡◌, List};
ghost use Rattle.cal_format.specs.declared.item.Item.{Item};
ghost use Rattle.cal_format.specs.Lenient.{IsLenientRejection, ReadsDates, ReadsTimes, ReadsDateTimes, ReadsOffsetDateTimes};
ghost use Rattle.cal_c.specs.Formats.{HasItems, IsFormat};
ghost use Rattle.cal_c.specs.FormatParsing.{IsParsed, parsed_time_ok, parsed_time_error_at, parsed_pair_ok};
ghost use Rattle.cal_c.specs.LenientParsing.{lenient_of, IsVariantOfDate, IsVariantOfTime, IsVariantOfPair, IsVariantOfMoment};
ghost use Rattle.cal_c.specs.Texts.{no_position, parsed_date_ok, parsed_date_error_at, parsed_moment_ok, parsed_moment_error_at};

use super::format_parts::FormatParts;
use super::parse_results::{ParseTimeResult, status_and_position};
use crate::status::{INSUFFICIENT_FORMAT, INVALID_FORMAT};
use crate::texts::{ParseDateResult, ParseMomentResult};
use cal_format::{
    Format, LenientDateFormat, LenientDateTimeFormat, LenientFormat, LenientOffsetDateTimeFormat,
    LenientTimeFormat,
};

/// The position of an error that has none.
const NO_POSITION: usize = usize::MAX;

/// Parses a value of one type leniently, or returns the error of numbers that are not a format or
/// of a format that can't be read so.
macro_rules! parse_leniently {
    ($text:ident, $format:ident, $pivot:ident, $for_values:ident, $parse:ident, $result:ident) => {{
        let format = or_return!(
            $format.to_format(),
            $result::error_at(INVALID_FORMAT, NO_POSITION)
        );
        let format = or_return!(
            lenient(format, $pivot).$for_values(),
            $result::error_at(INSUFFICIENT_FORMAT, NO_POSITION)
        );
        $parse($text, &format)
    }};
}

/// Returns the result of a parsed value, or of an error.
macro_rules! result_of {
    ($parsed:expr, $value:ident => $ok:expr, $result:ident) => {
        match $parsed {
            Ok($value) => $ok,
            Err(error) => {
                let (status, position) = status_and_position(error);
                $result::error_at(status, position)
            }
        }
    };
}

/// Returns the lenient format, with a pivot unless the number is negative.
pub(crate) fn lenient(format: Format, pivot: i32) -> LenientFormat
    ensures { result ≡ lenient_of format pivot }
{
    if pivot < 0 {
        return format.lenient();
    }
    if pivot > 65_535 {
        return format.lenient().with_pivot(65_535);
    }
    format.lenient().with_pivot(pivot as u16)
}

/// Parses a date in a variant of the string of a format, such as `29 FEB 2024` by `%d %B %Y`.
#[unsafe(no_mangle)]
pub extern "C" fn fots_date_parse_leniently(
    text: &[u8],
    format: &FormatParts,
    pivot: i32,
) -> ParseDateResult
    ensures invalid_format { ¬ IsFormat format.now
        → result ≡ parsed_date_error_at INVALID_FORMAT no_position }
    ensures insufficient_format { (items : List Item) → HasItems format.now items
        → ¬ ReadsDates (lenient_of items pivot)
        → result ≡ parsed_date_error_at INSUFFICIENT_FORMAT no_position }
    ensures value { (items : List Item) → HasItems format.now items
        → ReadsDates (lenient_of items pivot)
        → IsParsed (IsVariantOfDate (lenient_of items pivot) text.now) (IsLenientRejection (lenient_of items pivot) text.now) parsed_date_ok parsed_date_error_at result }
{
    parse_leniently!(text, format, pivot, for_dates, parse_date, ParseDateResult)
}

fn parse_date(text: &[u8], format: &LenientDateFormat) -> ParseDateResult
    ensures { IsParsed (IsVariantOfDate format.now text.now) (IsLenientRejection format.now text.now) parsed_date_ok parsed_date_error_at result }
{
    result_of!(format.parse(text), date => ParseDateResult::ok(date), ParseDateResult)
}

/// Parses a time of day in a variant of the string of a format, such as `9:5` by `%H:%M`.
#[unsafe(no_mangle)]
pub extern "C" fn fots_time_parse_leniently(
    text: &[u8],
    format: &FormatParts,
    pivot: i32,
) -> ParseTimeResult
    ensures invalid_format { ¬ IsFormat format.now
        → result ≡ parsed_time_error_at INVALID_FORMAT no_position }
    ensures insufficient_format { (items : List Item) → HasItems format.now items
        → ¬ ReadsTimes (lenient_of items pivot)
        → result ≡ parsed_time_error_at INSUFFICIENT_FORMAT no_position }
    ensures value { (items : List Item) → HasItems format.now items
        → ReadsTimes (lenient_of items pivot)
        → IsParsed (IsVariantOfTime (lenient_of items pivot) text.now) (IsLenientRejection (lenient_of items pivot) text.now) parsed_time_ok parsed_time_error_at result }
{
    parse_leniently!(text, format, pivot, for_times, parse_time, ParseTimeResult)
}

fn parse_time(text: &[u8], format: &LenientTimeFormat) -> ParseTimeResult
    ensures { IsParsed (IsVariantOfTime format.now text.now) (IsLenientRejection format.now text.now) parsed_time_ok parsed_time_error_at result }
{
    result_of!(format.parse(text), time => ParseTimeResult::ok(time), ParseTimeResult)
}

/// Parses a date and a time of day in a variant of the string of a format, such as
/// `2024-2-29 23:59` by `%F %R`. The offset is 0.
#[unsafe(no_mangle)]
pub extern "C" fn fots_pair_parse_leniently(
    text: &[u8],
    format: &FormatParts,
    pivot: i32,
) -> ParseMomentResult
    ensures invalid_format { ¬ IsFormat format.now
        → result ≡ parsed_moment_error_at INVALID_FORMAT no_position }
    ensures insufficient_format { (items : List Item) → HasItems format.now items
        → ¬ ReadsDateTimes (lenient_of items pivot)
        → result ≡ parsed_moment_error_at INSUFFICIENT_FORMAT no_position }
    ensures value { (items : List Item) → HasItems format.now items
        → ReadsDateTimes (lenient_of items pivot)
        → IsParsed (IsVariantOfPair (lenient_of items pivot) text.now) (IsLenientRejection (lenient_of items pivot) text.now) parsed_pair_ok parsed_moment_error_at result }
{
    parse_leniently!(
        text,
        format,
        pivot,
        for_date_times,
        parse_pair,
        ParseMomentResult
    )
}

fn parse_pair(text: &[u8], format: &LenientDateTimeFormat) -> ParseMomentResult
    ensures { IsParsed (IsVariantOfPair format.now text.now) (IsLenientRejection format.now text.now) parsed_pair_ok parsed_moment_error_at result }
{
    result_of!(format.parse(text), date_time => ParseMomentResult::ok(date_time.assume_utc()), ParseMomentResult)
}

/// Parses a date, a time of day and an offset in a variant of the string of a format, such as
/// `2024-2-29 23:59 +0100` by `%F %R %z`.
#[unsafe(no_mangle)]
pub extern "C" fn fots_moment_parse_leniently(
    text: &[u8],
    format: &FormatParts,
    pivot: i32,
) -> ParseMomentResult
    ensures invalid_format { ¬ IsFormat format.now
        → result ≡ parsed_moment_error_at INVALID_FORMAT no_position }
    ensures insufficient_format { (items : List Item) → HasItems format.now items
        → ¬ ReadsOffsetDateTimes (lenient_of items pivot)
        → result ≡ parsed_moment_error_at INSUFFICIENT_FORMAT no_position }
    ensures value { (items : List Item) → HasItems format.now items
        → ReadsOffsetDateTimes (lenient_of items pivot)
        → IsParsed (IsVariantOfMoment (lenient_of items pivot) text.now) (IsLenientRejection (lenient_of items pivot) text.now) parsed_moment_ok parsed_moment_error_at result }
{
    parse_leniently!(
        text,
        format,
        pivot,
        for_offset_date_times,
        parse_moment,
        ParseMomentResult
    )
}

fn parse_moment(text: &[u8], format: &LenientOffsetDateTimeFormat) -> ParseMomentResult
    ensures { IsParsed (IsVariantOfMoment format.now text.now) (IsLenientRejection format.now text.now) parsed_moment_ok parsed_moment_error_at result }
{
    result_of!(format.parse(text), moment => ParseMomentResult::ok(moment), ParseMomentResult)
}
