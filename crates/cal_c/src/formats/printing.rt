//! Values in the string of a format.
//!
//! A call fails for an invalid value, for numbers that are not a format, and for a format that
//! shows something that the value doesn't have. If the buffer is too short for the string, the call
//! returns the length of the string. After an error the buffer is as before.
ghost use Rattle.std.specs.Prelude.{◌≡◌, ◌≤◌, List, None, IfSome, length, take};
ghost use Rattle.cal_time.specs.Time.{IsTime};
ghost use Rattle.cal_time.specs.UtcOffset.{IsOffset};
ghost use Rattle.cal_datetime.specs.DateTime.{date_time};
ghost use Rattle.cal_format.specs.declared.item.Item.{Item};
ghost use Rattle.cal_format.specs.Moment.{moment_of_date, moment_of_time, moment_of_offset, moment_of_date_time, moment_of_offset_date_time};
ghost use Rattle.cal_format.specs.Reading.{are_date_items, are_time_items, are_offset_items, are_date_time_items, are_moment_items};
ghost use Rattle.cal_format.specs.Text.{text_of};
ghost use Rattle.cal_c.specs.Formats.{HasItems, IsFormat};
ghost use Rattle.cal_c.specs.FormatTexts.{IsPrinted, IsUnprinted, IsWritten, length_error};
ghost use Rattle.cal_c.specs.Moments.{IsMoment, local_and_offset_in};
ghost use Rattle.cal_c.specs.Values.{IsJulianDay, day_of};
ghost use Rattle.cal_c.specs.declared.status.TheConstants.{INVALID_FORMAT};

use super::format_parts::FormatParts;
use super::iso_dates::print_date_at_once;
use super::one_pass::{print_in_steps, print_moment};
use super::results::LengthResult;
use crate::moment::valid_moment;
use crate::results::Moment as MomentParts;
use crate::status::{INVALID_DATE, INVALID_MOMENT, INVALID_OFFSET, INVALID_TIME, UNSUPPORTED_ITEM};
use crate::values::{valid_date, valid_offset, valid_time};
use cal_datetime::PlainDateTime;
use cal_format::Moment;
use cal_time::Date;

/// The maximum length of a string: 64 items of 15 bytes.
pub const MAX_LENGTH: usize = 960;

/// Writes the bytes of a string to the front of a buffer. A string of `None` is one that the format
/// doesn't have.
pub(crate) fn write(text: &[u8], end: Option<usize>, bytes: &mut [u8]) -> LengthResult
    requires { IfSome end (λ n. n ≤ length text.now) }
    ensures none { end ≡ None → IsUnprinted bytes.old bytes.new result (length_error UNSUPPORTED_ITEM) }
    ensures some { IfSome end (λ n. IsWritten (take n text.now) bytes.old bytes.new result) }
{
    let length = or_error!(LengthResult, end, UNSUPPORTED_ITEM);
    if length > bytes.len() {
        return LengthResult::too_short(length);
    }
    bytes[..length].copy_from_slice(&text[..length]);
    LengthResult::ok(length)
}

/// Prints a date, such as `29/02/2024` by `%d/%m/%Y`.
#[unsafe(no_mangle)]
pub extern "C" fn fots_date_format(
    date: i32,
    format: &FormatParts,
    bytes: &mut [u8],
) -> LengthResult
    ensures invalid_date { ¬ IsJulianDay date
        → IsUnprinted bytes.old bytes.new result (length_error INVALID_DATE) }
    ensures invalid_format { IsJulianDay date → ¬ IsFormat format.now
        → IsUnprinted bytes.old bytes.new result (length_error INVALID_FORMAT) }
    ensures value { IsJulianDay date → (items : List Item) → HasItems format.now items
        → IsPrinted (are_date_items items) (text_of items (moment_of_date (day_of date))) bytes.old bytes.new result }
{
    let date = or_error!(LengthResult, valid_date(date), INVALID_DATE);
    print_date(date, format, bytes)
}

fn print_date(date: Date, format: &FormatParts, bytes: &mut [u8]) -> LengthResult
    ensures invalid_format { ¬ IsFormat format.now
        → IsUnprinted bytes.old bytes.new result (length_error INVALID_FORMAT) }
    ensures value { (items : List Item) → HasItems format.now items
        → IsPrinted (are_date_items items) (text_of items (moment_of_date date)) bytes.old bytes.new result }
{
    // This call states that the date is in its range. It costs nothing.
    let _ = date.to_julian_day();
    let mut text = [0; 64];
    match print_date_at_once(date, format, &mut text) {
        Some(end) => write(&text, Some(end), bytes),
        None => print_in_steps(&Moment::of_date(date), 0, 14, format, bytes),
    }
}

/// Prints a time of day, such as `23:59` by `%H:%M`.
#[unsafe(no_mangle)]
pub extern "C" fn fots_time_format(
    time: u64,
    format: &FormatParts,
    bytes: &mut [u8],
) -> LengthResult
    ensures invalid_time { ¬ IsTime time
        → IsUnprinted bytes.old bytes.new result (length_error INVALID_TIME) }
    ensures invalid_format { IsTime time → ¬ IsFormat format.now
        → IsUnprinted bytes.old bytes.new result (length_error INVALID_FORMAT) }
    ensures value { IsTime time → (items : List Item) → HasItems format.now items
        → IsPrinted (are_time_items items) (text_of items (moment_of_time time)) bytes.old bytes.new result }
{
    let time = or_error!(LengthResult, valid_time(time), INVALID_TIME);
    print_moment(&Moment::of_time(time), 14, 28, format, bytes)
}

/// Prints an offset, such as `+05:30` by `%:z`.
#[unsafe(no_mangle)]
pub extern "C" fn fots_offset_format(
    offset: i32,
    format: &FormatParts,
    bytes: &mut [u8],
) -> LengthResult
    ensures invalid_offset { ¬ IsOffset offset
        → IsUnprinted bytes.old bytes.new result (length_error INVALID_OFFSET) }
    ensures invalid_format { IsOffset offset → ¬ IsFormat format.now
        → IsUnprinted bytes.old bytes.new result (length_error INVALID_FORMAT) }
    ensures value { IsOffset offset → (items : List Item) → HasItems format.now items
        → IsPrinted (are_offset_items items) (text_of items (moment_of_offset offset)) bytes.old bytes.new result }
{
    let offset = or_error!(LengthResult, valid_offset(offset), INVALID_OFFSET);
    print_moment(&Moment::of_offset(offset), 28, 32, format, bytes)
}

/// Prints a date, a time of day and an offset, such as `2024-02-29 23:59 +0100` by `%F %R %z`.
#[unsafe(no_mangle)]
pub extern "C" fn fots_moment_format(
    moment: MomentParts,
    format: &FormatParts,
    bytes: &mut [u8],
) -> LengthResult
    ensures invalid_moment { ¬ IsMoment moment
        → IsUnprinted bytes.old bytes.new result (length_error INVALID_MOMENT) }
    ensures invalid_format { IsMoment moment → ¬ IsFormat format.now
        → IsUnprinted bytes.old bytes.new result (length_error INVALID_FORMAT) }
    ensures value { IsMoment moment → (items : List Item) → HasItems format.now items
        → IsPrinted (are_moment_items items)
        (text_of items (moment_of_offset_date_time (local_and_offset_in moment))) bytes.old bytes.new result }
{
    let moment = or_error!(LengthResult, valid_moment(moment), INVALID_MOMENT);
    let moment = Moment::of_offset_date_time(moment);
    print_moment(&moment, 0, 34, format, bytes)
}

/// Prints a date and a time of day, such as `2024-02-29 23:59` by `%F %R`.
#[unsafe(no_mangle)]
pub extern "C" fn fots_pair_format(
    date: i32,
    time: u64,
    format: &FormatParts,
    bytes: &mut [u8],
) -> LengthResult
    ensures invalid_date { ¬ IsJulianDay date
        → IsUnprinted bytes.old bytes.new result (length_error INVALID_DATE) }
    ensures invalid_time { IsJulianDay date → ¬ IsTime time
        → IsUnprinted bytes.old bytes.new result (length_error INVALID_TIME) }
    ensures invalid_format { IsJulianDay date → IsTime time → ¬ IsFormat format.now
        → IsUnprinted bytes.old bytes.new result (length_error INVALID_FORMAT) }
    ensures value { IsJulianDay date → IsTime time → (items : List Item) → HasItems format.now items
        → IsPrinted (are_date_time_items items)
        (text_of items (moment_of_date_time (date_time (day_of date) time))) bytes.old bytes.new result }
{
    let date = or_error!(LengthResult, valid_date(date), INVALID_DATE);
    let time = or_error!(LengthResult, valid_time(time), INVALID_TIME);
    let moment = Moment::of_date_time(PlainDateTime::new(date, time));
    print_moment(&moment, 0, 28, format, bytes)
}
