//! Values from strings of a format with names.
//!
//! A call fails like a call without names, for invalid names, and if two values could have the same
//! string. The names are checked in each call.
ghost use Rattle.std.specs.Prelude.{◌≡◌, List};
ghost use Rattle.cal_format.specs.declared.item.Item.{Item};
ghost use Rattle.cal_format.specs.Moment.{moment_of_date, moment_of_time, moment_of_date_time, moment_of_offset_date_time};
ghost use Rattle.cal_format.specs.Reading.{DeterminesDate, DeterminesTime, DeterminesDateTime, DeterminesOffsetDateTime};
ghost use Rattle.cal_named_format.specs.Values.{HoldsDate, HoldsTime, HoldsDateTime, HoldsOffsetDateTime};
ghost use Rattle.cal_c.specs.FormatParsing.{parsed_time_ok, parsed_time_error_at, parsed_pair_ok};
ghost use Rattle.cal_c.specs.Formats.{HasItems, IsFormat};
ghost use Rattle.cal_c.specs.NamedFormats.{AreNames, IsReadWith, WithNames};
ghost use Rattle.cal_c.specs.Texts.{no_position, parsed_date_ok, parsed_date_error_at, parsed_moment_ok, parsed_moment_error_at};

use super::checking::names_status_and_item;
use super::names_parts::NamesParts;
use crate::formats::format_parts::FormatParts;
use crate::formats::parse_results::{ParseTimeResult, status_and_position};
use crate::status::{INSUFFICIENT_FORMAT, INVALID_FORMAT, INVALID_NAMES};
use crate::texts::{ParseDateResult, ParseMomentResult};
use cal_format::{DateFormat, DateTimeFormat, OffsetDateTimeFormat, TimeFormat};
use cal_named_format::{
    check_names, parse_date as named_date, parse_date_time as named_date_time,
    parse_offset_date_time as named_offset_date_time, parse_time as named_time,
};
use cal_names::Names;

/// The position of an error that has none.
const NO_POSITION: usize = usize::MAX;

/// Parses a value of one type, or returns the error of invalid arguments or of a format that doesn't
/// determine such a value.
macro_rules! parse_with_names {
    ($text:ident, $format:ident, $names:ident, $for_values:ident, $parse:ident, $result:ident) => {{
        let format = or_return!(
            $format.to_format(),
            $result::error_at(INVALID_FORMAT, NO_POSITION)
        );
        let names = or_return!(
            $names.to_names(),
            $result::error_at(INVALID_NAMES, NO_POSITION)
        );
        let format = or_return!(
            format.$for_values(),
            $result::error_at(INSUFFICIENT_FORMAT, NO_POSITION)
        );
        $parse($text, &format, &names)
    }};
}

/// Returns the result of the names, of a parsed value, or of an error.
macro_rules! result_with_names {
    ($text:ident, $format:ident, $names:ident, $parse:ident, $value:ident => $ok:expr, $result:ident) => {{
        if let Err(error) = check_names($format.as_format().items(), $names) {
            let (status, item) = names_status_and_item(error);
            return $result::error_at(status, item);
        }
        match $parse($format, $names, $text) {
            Ok($value) => $ok,
            Err(error) => {
                let (status, position) = status_and_position(error);
                $result::error_at(status, position)
            }
        }
    }};
}

/// Parses a date in the string of a format with names, such as `29 février 2024` by `%-d %B %Y`.
#[unsafe(no_mangle)]
pub extern "C" fn fots_date_parse_names(
    text: &[u8],
    format: &FormatParts,
    names: &NamesParts<'_>,
) -> ParseDateResult
    ensures invalid_format { ¬ IsFormat format.now
        → result ≡ parsed_date_error_at INVALID_FORMAT no_position }
    ensures invalid_names { IsFormat format.now → ¬ AreNames names.now
        → result ≡ parsed_date_error_at INVALID_NAMES no_position }
    ensures insufficient_format { AreNames names.now → (items : List Item)
        → HasItems format.now items → ¬ DeterminesDate items
        → result ≡ parsed_date_error_at INSUFFICIENT_FORMAT no_position }
    ensures value { AreNames names.now → (items : List Item) → HasItems format.now items
        → DeterminesDate items → WithNames names.now (λ t. IsReadWith HoldsDate moment_of_date
        parsed_date_ok parsed_date_error_at text.now t items result) }
{
    parse_with_names!(text, format, names, for_dates, parse_date, ParseDateResult)
}

fn parse_date(text: &[u8], format: &DateFormat, names: &Names) -> ParseDateResult
    ensures { IsReadWith HoldsDate moment_of_date parsed_date_ok parsed_date_error_at
        text.now names.now format.now result }
{
    result_with_names!(text, format, names, named_date, date => ParseDateResult::ok(date), ParseDateResult)
}

/// Parses a time of day in the string of a format with names, such as `午後 07:30` by `%p %I:%M`.
#[unsafe(no_mangle)]
pub extern "C" fn fots_time_parse_names(
    text: &[u8],
    format: &FormatParts,
    names: &NamesParts<'_>,
) -> ParseTimeResult
    ensures invalid_format { ¬ IsFormat format.now
        → result ≡ parsed_time_error_at INVALID_FORMAT no_position }
    ensures invalid_names { IsFormat format.now → ¬ AreNames names.now
        → result ≡ parsed_time_error_at INVALID_NAMES no_position }
    ensures insufficient_format { AreNames names.now → (items : List Item)
        → HasItems format.now items → ¬ DeterminesTime items
        → result ≡ parsed_time_error_at INSUFFICIENT_FORMAT no_position }
    ensures value { AreNames names.now → (items : List Item) → HasItems format.now items
        → DeterminesTime items → WithNames names.now (λ t. IsReadWith HoldsTime moment_of_time
        parsed_time_ok parsed_time_error_at text.now t items result) }
{
    parse_with_names!(text, format, names, for_times, parse_time, ParseTimeResult)
}

fn parse_time(text: &[u8], format: &TimeFormat, names: &Names) -> ParseTimeResult
    ensures { IsReadWith HoldsTime moment_of_time parsed_time_ok parsed_time_error_at
        text.now names.now format.now result }
{
    result_with_names!(text, format, names, named_time, time => ParseTimeResult::ok(time), ParseTimeResult)
}

/// Parses a date and a time of day in the string of a format with names, such as
/// `29 février 2024, 19:30` by `%-d %B %Y, %R`. The offset is 0.
#[unsafe(no_mangle)]
pub extern "C" fn fots_pair_parse_names(
    text: &[u8],
    format: &FormatParts,
    names: &NamesParts<'_>,
) -> ParseMomentResult
    ensures invalid_format { ¬ IsFormat format.now
        → result ≡ parsed_moment_error_at INVALID_FORMAT no_position }
    ensures invalid_names { IsFormat format.now → ¬ AreNames names.now
        → result ≡ parsed_moment_error_at INVALID_NAMES no_position }
    ensures insufficient_format { AreNames names.now → (items : List Item)
        → HasItems format.now items → ¬ DeterminesDateTime items
        → result ≡ parsed_moment_error_at INSUFFICIENT_FORMAT no_position }
    ensures value { AreNames names.now → (items : List Item) → HasItems format.now items
        → DeterminesDateTime items → WithNames names.now (λ t. IsReadWith HoldsDateTime moment_of_date_time
        parsed_pair_ok parsed_moment_error_at text.now t items result) }
{
    parse_with_names!(
        text,
        format,
        names,
        for_date_times,
        parse_pair,
        ParseMomentResult
    )
}

fn parse_pair(text: &[u8], format: &DateTimeFormat, names: &Names) -> ParseMomentResult
    ensures { IsReadWith HoldsDateTime moment_of_date_time parsed_pair_ok parsed_moment_error_at
        text.now names.now format.now result }
{
    result_with_names!(text, format, names, named_date_time, date_time => ParseMomentResult::ok(date_time.assume_utc()), ParseMomentResult)
}

/// Parses a date, a time of day and an offset in the string of a format with names, such as
/// `29 février 2024, 19:30 +0100` by `%-d %B %Y, %R %z`.
#[unsafe(no_mangle)]
pub extern "C" fn fots_moment_parse_names(
    text: &[u8],
    format: &FormatParts,
    names: &NamesParts<'_>,
) -> ParseMomentResult
    ensures invalid_format { ¬ IsFormat format.now
        → result ≡ parsed_moment_error_at INVALID_FORMAT no_position }
    ensures invalid_names { IsFormat format.now → ¬ AreNames names.now
        → result ≡ parsed_moment_error_at INVALID_NAMES no_position }
    ensures insufficient_format { AreNames names.now → (items : List Item)
        → HasItems format.now items → ¬ DeterminesOffsetDateTime items
        → result ≡ parsed_moment_error_at INSUFFICIENT_FORMAT no_position }
    ensures value { AreNames names.now → (items : List Item) → HasItems format.now items
        → DeterminesOffsetDateTime items → WithNames names.now (λ t. IsReadWith HoldsOffsetDateTime moment_of_offset_date_time
        parsed_moment_ok parsed_moment_error_at text.now t items result) }
{
    parse_with_names!(
        text,
        format,
        names,
        for_offset_date_times,
        parse_moment,
        ParseMomentResult
    )
}

fn parse_moment(text: &[u8], format: &OffsetDateTimeFormat, names: &Names) -> ParseMomentResult
    ensures { IsReadWith HoldsOffsetDateTime moment_of_offset_date_time parsed_moment_ok parsed_moment_error_at
        text.now names.now format.now result }
{
    result_with_names!(text, format, names, named_offset_date_time, moment => ParseMomentResult::ok(moment), ParseMomentResult)
}
