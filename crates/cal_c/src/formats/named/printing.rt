//! Values in the string of a format with names.
//!
//! A call fails like a call without names, and for invalid names. After an error the buffer is as
//! before.
ghost use Rattle.std.specs.Prelude.{◌≡◌, List};
ghost use Rattle.cal_time.specs.Time.{IsTime};
ghost use Rattle.cal_datetime.specs.DateTime.{date_time};
ghost use Rattle.cal_format.specs.declared.item.Item.{Item};
ghost use Rattle.cal_format.specs.Moment.{IsMoment as IsValid, moment_of_date, moment_of_time, moment_of_date_time, moment_of_offset_date_time};
ghost use Rattle.cal_format.specs.Reading.{are_date_items, are_time_items, are_date_time_items, are_moment_items, show_within};
ghost use Rattle.cal_c.specs.Formats.{HasItems, IsFormat};
ghost use Rattle.cal_c.specs.FormatTexts.{IsUnprinted, length_error};
ghost use Rattle.cal_c.specs.Moments.{IsMoment, local_and_offset_in};
ghost use Rattle.cal_c.specs.NamedFormats.{AreNames, IsPrintedWith};
ghost use Rattle.cal_c.specs.Values.{IsJulianDay, day_of};

use super::names_parts::{MAX_NAME_LENGTH, NamesParts};
use crate::formats::format_parts::FormatParts;
use crate::formats::one_pass::are_within;
use crate::formats::printing::write;
use crate::formats::results::LengthResult;
use crate::moment::valid_moment;
use crate::results::Moment as MomentParts;
use crate::status::{
    INVALID_DATE, INVALID_FORMAT, INVALID_MOMENT, INVALID_NAMES, INVALID_TIME, UNSUPPORTED_ITEM,
};
use crate::values::{valid_date, valid_time};
use cal_datetime::PlainDateTime;
use cal_format::Moment;
use cal_named_format::print;

/// The maximum length of a string: 64 items of 127 bytes.
const MAX_LENGTH: usize = 64 * MAX_NAME_LENGTH;

/// Prints a moment with names by the items of a format, which may show only components with an
/// index from `low` to below `high`.
fn print_moment(
    moment: &Moment,
    low: usize,
    high: usize,
    format: &FormatParts,
    names: &NamesParts<'_>,
    bytes: &mut [u8],
) -> LengthResult
    requires { IsValid moment.now }
    ensures invalid_format { ¬ IsFormat format.now
        → IsUnprinted bytes.old bytes.new result (length_error INVALID_FORMAT) }
    ensures invalid_names { IsFormat format.now → ¬ AreNames names.now
        → IsUnprinted bytes.old bytes.new result (length_error INVALID_NAMES) }
    ensures value { AreNames names.now → (items : List Item) → HasItems format.now items
        → IsPrintedWith names.now items (show_within low high items) moment.now
        bytes.old bytes.new result }
{
    let format = or_error!(LengthResult, format.to_format(), INVALID_FORMAT);
    let names = or_error!(LengthResult, names.to_names(), INVALID_NAMES);
    let items = format.items();
    if !are_within(items, low, high) {
        return LengthResult::error(UNSUPPORTED_ITEM);
    }
    let mut text = [0; MAX_LENGTH];
    let end = print(items, &names, moment, &mut text, 0);
    write(&text, end, bytes)
}

/// Prints a date with names, such as `29 février 2024` by `%-d %B %Y`.
#[unsafe(no_mangle)]
pub extern "C" fn fots_date_format_names(
    date: i32,
    format: &FormatParts,
    names: &NamesParts<'_>,
    bytes: &mut [u8],
) -> LengthResult
    ensures invalid_date { ¬ IsJulianDay date
        → IsUnprinted bytes.old bytes.new result (length_error INVALID_DATE) }
    ensures invalid_format { IsJulianDay date → ¬ IsFormat format.now
        → IsUnprinted bytes.old bytes.new result (length_error INVALID_FORMAT) }
    ensures invalid_names { IsJulianDay date → IsFormat format.now → ¬ AreNames names.now
        → IsUnprinted bytes.old bytes.new result (length_error INVALID_NAMES) }
    ensures value { IsJulianDay date → AreNames names.now → (items : List Item)
        → HasItems format.now items → IsPrintedWith names.now items (are_date_items items)
        (moment_of_date (day_of date)) bytes.old bytes.new result }
{
    let date = or_error!(LengthResult, valid_date(date), INVALID_DATE);
    // This call states that the date is in its range. It costs nothing.
    let _ = date.to_julian_day();
    print_moment(&Moment::of_date(date), 0, 14, format, names, bytes)
}

/// Prints a time of day with names, such as `午後 07:30` by `%p %I:%M`.
#[unsafe(no_mangle)]
pub extern "C" fn fots_time_format_names(
    time: u64,
    format: &FormatParts,
    names: &NamesParts<'_>,
    bytes: &mut [u8],
) -> LengthResult
    ensures invalid_time { ¬ IsTime time
        → IsUnprinted bytes.old bytes.new result (length_error INVALID_TIME) }
    ensures invalid_format { IsTime time → ¬ IsFormat format.now
        → IsUnprinted bytes.old bytes.new result (length_error INVALID_FORMAT) }
    ensures invalid_names { IsTime time → IsFormat format.now → ¬ AreNames names.now
        → IsUnprinted bytes.old bytes.new result (length_error INVALID_NAMES) }
    ensures value { IsTime time → AreNames names.now → (items : List Item)
        → HasItems format.now items → IsPrintedWith names.now items (are_time_items items)
        (moment_of_time time) bytes.old bytes.new result }
{
    let time = or_error!(LengthResult, valid_time(time), INVALID_TIME);
    print_moment(&Moment::of_time(time), 14, 28, format, names, bytes)
}

/// Prints a date and a time of day with names, such as `jeudi 29 février 2024, 19:30` by
/// `%A %-d %B %Y, %R`.
#[unsafe(no_mangle)]
pub extern "C" fn fots_pair_format_names(
    date: i32,
    time: u64,
    format: &FormatParts,
    names: &NamesParts<'_>,
    bytes: &mut [u8],
) -> LengthResult
    ensures invalid_date { ¬ IsJulianDay date
        → IsUnprinted bytes.old bytes.new result (length_error INVALID_DATE) }
    ensures invalid_time { IsJulianDay date → ¬ IsTime time
        → IsUnprinted bytes.old bytes.new result (length_error INVALID_TIME) }
    ensures invalid_format { IsJulianDay date → IsTime time → ¬ IsFormat format.now
        → IsUnprinted bytes.old bytes.new result (length_error INVALID_FORMAT) }
    ensures invalid_names { IsJulianDay date → IsTime time → IsFormat format.now → ¬ AreNames names.now
        → IsUnprinted bytes.old bytes.new result (length_error INVALID_NAMES) }
    ensures value { IsJulianDay date → IsTime time → AreNames names.now → (items : List Item)
        → HasItems format.now items → IsPrintedWith names.now items (are_date_time_items items)
        (moment_of_date_time (date_time (day_of date) time)) bytes.old bytes.new result }
{
    let date = or_error!(LengthResult, valid_date(date), INVALID_DATE);
    let time = or_error!(LengthResult, valid_time(time), INVALID_TIME);
    let moment = Moment::of_date_time(PlainDateTime::new(date, time));
    print_moment(&moment, 0, 28, format, names, bytes)
}

/// Prints a date, a time of day and an offset with names, such as
/// `jeudi 29 février 2024, 19:30 +0100` by `%A %-d %B %Y, %R %z`.
#[unsafe(no_mangle)]
pub extern "C" fn fots_moment_format_names(
    moment: MomentParts,
    format: &FormatParts,
    names: &NamesParts<'_>,
    bytes: &mut [u8],
) -> LengthResult
    ensures invalid_moment { ¬ IsMoment moment
        → IsUnprinted bytes.old bytes.new result (length_error INVALID_MOMENT) }
    ensures invalid_format { IsMoment moment → ¬ IsFormat format.now
        → IsUnprinted bytes.old bytes.new result (length_error INVALID_FORMAT) }
    ensures invalid_names { IsMoment moment → IsFormat format.now → ¬ AreNames names.now
        → IsUnprinted bytes.old bytes.new result (length_error INVALID_NAMES) }
    ensures value { IsMoment moment → AreNames names.now → (items : List Item)
        → HasItems format.now items → IsPrintedWith names.now items (are_moment_items items)
        (moment_of_offset_date_time (local_and_offset_in moment)) bytes.old bytes.new result }
{
    let moment = or_error!(LengthResult, valid_moment(moment), INVALID_MOMENT);
    let moment = Moment::of_offset_date_time(moment);
    print_moment(&moment, 0, 34, format, names, bytes)
}
