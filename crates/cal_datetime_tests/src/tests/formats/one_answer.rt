//! Each contract leaves one answer: two calls with the same arguments are proved to return the same.
ghost use Rattle.std.specs.Prelude.{◌≡◌, IfSome, length};

use cal_datetime::{OffsetDateTime, PlainDateTime};
use cal_format::{
    DateFormat, DateTimeFormat, Format, FormatError, OffsetDateTimeFormat, OffsetFormat,
    ParseError, TimeFormat,
};
use cal_time::{Date, Time, UtcOffset};

mod named;

/// The results of two calls.
type Twice<T> = (T, T);

/// The results of two calls of `parse`, or `None` if the format doesn't determine a value.
type ParsedTwice<T> = Option<Twice<Result<T, ParseError>>>;

fn create(text: &str) -> Twice<Result<Format, FormatError>>
    ensures { result.0 ≡ result.1 }
{
    (Format::new(text), Format::new(text))
}

fn create_from_description(text: &str) -> Twice<Result<Format, FormatError>>
    ensures { result.0 ≡ result.1 }
{
    (
        Format::from_description(text),
        Format::from_description(text),
    )
}

fn print_date(format: &Format, date: Date, a: &mut [u8], b: &mut [u8]) -> Twice<Option<usize>>
    requires { length a.old ≡ length b.old }
    ensures { result.0 ≡ result.1 }
{
    (format.print_date(date, a), format.print_date(date, b))
}

fn print_time(format: &Format, time: Time, a: &mut [u8], b: &mut [u8]) -> Twice<Option<usize>>
    requires { length a.old ≡ length b.old }
    ensures { result.0 ≡ result.1 }
{
    (format.print_time(time, a), format.print_time(time, b))
}

fn print_offset(
    format: &Format,
    offset: UtcOffset,
    a: &mut [u8],
    b: &mut [u8],
) -> Twice<Option<usize>>
    requires { length a.old ≡ length b.old }
    ensures { result.0 ≡ result.1 }
{
    (
        format.print_offset(offset, a),
        format.print_offset(offset, b),
    )
}

fn print_date_time(
    format: &Format,
    date_time: PlainDateTime,
    a: &mut [u8],
    b: &mut [u8],
) -> Twice<Option<usize>>
    requires { length a.old ≡ length b.old }
    ensures { result.0 ≡ result.1 }
{
    (
        format.print_date_time(date_time, a),
        format.print_date_time(date_time, b),
    )
}

fn print_offset_date_time(
    format: &Format,
    date_time: OffsetDateTime,
    a: &mut [u8],
    b: &mut [u8],
) -> Twice<Option<usize>>
    requires { length a.old ≡ length b.old }
    ensures { result.0 ≡ result.1 }
{
    (
        format.print_offset_date_time(date_time, a),
        format.print_offset_date_time(date_time, b),
    )
}

fn print_in_zone(
    format: &Format,
    date_time: OffsetDateTime,
    abbreviation: &[u8],
    a: &mut [u8],
    b: &mut [u8],
) -> Twice<Option<usize>>
    requires { length a.old ≡ length b.old }
    ensures { result.0 ≡ result.1 }
{
    (
        format.print_in_zone(date_time, abbreviation, a),
        format.print_in_zone(date_time, abbreviation, b),
    )
}

fn for_dates(a: Format, b: Format) -> Twice<Option<DateFormat>>
    requires { a ≡ b }
    ensures { result.0 ≡ result.1 }
{
    (a.for_dates(), b.for_dates())
}

fn for_times(a: Format, b: Format) -> Twice<Option<TimeFormat>>
    requires { a ≡ b }
    ensures { result.0 ≡ result.1 }
{
    (a.for_times(), b.for_times())
}

fn for_offsets(a: Format, b: Format) -> Twice<Option<OffsetFormat>>
    requires { a ≡ b }
    ensures { result.0 ≡ result.1 }
{
    (a.for_offsets(), b.for_offsets())
}

fn for_date_times(a: Format, b: Format) -> Twice<Option<DateTimeFormat>>
    requires { a ≡ b }
    ensures { result.0 ≡ result.1 }
{
    (a.for_date_times(), b.for_date_times())
}

fn for_offset_date_times(a: Format, b: Format) -> Twice<Option<OffsetDateTimeFormat>>
    requires { a ≡ b }
    ensures { result.0 ≡ result.1 }
{
    (a.for_offset_date_times(), b.for_offset_date_times())
}

fn parse_date(format: Format, text: &[u8]) -> ParsedTwice<Date>
    ensures { IfSome result (λ both. both.0 ≡ both.1) }
{
    let format = format.for_dates()?;
    Some((format.parse(text), format.parse(text)))
}

fn parse_time(format: Format, text: &[u8]) -> ParsedTwice<Time>
    ensures { IfSome result (λ both. both.0 ≡ both.1) }
{
    let format = format.for_times()?;
    Some((format.parse(text), format.parse(text)))
}

fn parse_offset(format: Format, text: &[u8]) -> ParsedTwice<UtcOffset>
    ensures { IfSome result (λ both. both.0 ≡ both.1) }
{
    let format = format.for_offsets()?;
    Some((format.parse(text), format.parse(text)))
}

fn parse_date_time(format: Format, text: &[u8]) -> ParsedTwice<PlainDateTime>
    ensures { IfSome result (λ both. both.0 ≡ both.1) }
{
    let format = format.for_date_times()?;
    Some((format.parse(text), format.parse(text)))
}

fn parse_offset_date_time(format: Format, text: &[u8]) -> ParsedTwice<OffsetDateTime>
    ensures { IfSome result (λ both. both.0 ≡ both.1) }
{
    let format = format.for_offset_date_times()?;
    Some((format.parse(text), format.parse(text)))
}
