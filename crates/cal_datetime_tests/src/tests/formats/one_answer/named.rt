//! Each contract of formats with names leaves one answer.
ghost use Rattle.std.specs.Prelude.{◌≡◌, IfSome, IsTrue, length};
ghost use Rattle.cal_named_format.specs.Ambiguity.{ReadBack};

use super::{ParsedTwice, Twice};
use cal_datetime::{OffsetDateTime, PlainDateTime};
use cal_format::{Format, Item, Moment};
use cal_named_format::{
    NamesError, check_names, parse_date, parse_date_time, parse_offset_date_time, parse_time,
    print, table_counts,
};
use cal_names::Names;
use cal_time::{Date, Time};

fn check_names_twice(items: &[Item], names: &Names) -> Twice<Result<(), NamesError>>
    ensures { result.0 ≡ result.1 }
{
    (check_names(items, names), check_names(items, names))
}

fn print_twice(
    items: &[Item],
    names: &Names,
    moment: &Moment,
    a: &mut [u8],
    b: &mut [u8],
) -> Twice<Option<usize>>
    requires { length a.old ≡ length b.old }
    ensures { result.0 ≡ result.1 }
{
    (
        print(items, names, moment, a, 0),
        print(items, names, moment, b, 0),
    )
}

/// Returns `true` if the format can parse with these names.
fn reads_back(format: &Format, names: &Names) -> bool
    ensures { IsTrue result → ReadBack names.now format.now }
{
    check_names(format.items(), names).is_ok()
}

fn parse_date_twice(format: Format, names: &Names, text: &[u8]) -> ParsedTwice<Date>
    ensures { IfSome result (λ both. both.0 ≡ both.1) }
{
    let format = format.for_dates()?;
    if !reads_back(format.as_format(), names) {
        return None;
    }
    table_counts(names);
    Some((
        parse_date(&format, names, text),
        parse_date(&format, names, text),
    ))
}

fn parse_time_twice(format: Format, names: &Names, text: &[u8]) -> ParsedTwice<Time>
    ensures { IfSome result (λ both. both.0 ≡ both.1) }
{
    let format = format.for_times()?;
    if !reads_back(format.as_format(), names) {
        return None;
    }
    table_counts(names);
    Some((
        parse_time(&format, names, text),
        parse_time(&format, names, text),
    ))
}

fn parse_date_time_twice(format: Format, names: &Names, text: &[u8]) -> ParsedTwice<PlainDateTime>
    ensures { IfSome result (λ both. both.0 ≡ both.1) }
{
    let format = format.for_date_times()?;
    if !reads_back(format.as_format(), names) {
        return None;
    }
    table_counts(names);
    Some((
        parse_date_time(&format, names, text),
        parse_date_time(&format, names, text),
    ))
}

fn parse_offset_date_time_twice(
    format: Format,
    names: &Names,
    text: &[u8],
) -> ParsedTwice<OffsetDateTime>
    ensures { IfSome result (λ both. both.0 ≡ both.1) }
{
    let format = format.for_offset_date_times()?;
    if !reads_back(format.as_format(), names) {
        return None;
    }
    table_counts(names);
    Some((
        parse_offset_date_time(&format, names, text),
        parse_offset_date_time(&format, names, text),
    ))
}
