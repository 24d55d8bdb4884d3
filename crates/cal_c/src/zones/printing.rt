//! Strings of moments by the clocks of a zone.
ghost use Rattle.std.specs.Prelude.{List, ◌≤◌, length};
ghost use Rattle.cal_datetime.specs.OffsetDateTime.{instant, local_at};
ghost use Rattle.cal_format.specs.declared.item.Item.{Item};
ghost use Rattle.cal_c.specs.Formats.{HasItems, IsFormat};
ghost use Rattle.cal_c.specs.FormatTexts.{IsUnprinted, length_error};
ghost use Rattle.cal_c.specs.Moments.{IsMoment, local_and_offset_in};
ghost use Rattle.cal_c.specs.Zones.{IsForZone, IsPrintedAt, IsPrintedInZone};

use crate::formats::format_parts::FormatParts;
use crate::formats::printing::{MAX_LENGTH, write};
use crate::formats::results::LengthResult;
use crate::moment::valid_moment;
use crate::results::Moment;
use crate::status::{INVALID_FORMAT, INVALID_MOMENT, INVALID_ZONE, RESULT_OUT_OF_RANGE};
use crate::zones::checked_zone::CheckedZone;
use cal_datetime::OffsetDateTime;
use cal_format::Format;
use cal_time::UtcOffset;

/// Prints a moment as the clocks of a zone show it, such as `03:00 CEST` by `%H:%M %Z`. Fails if
/// the local result is out of range, or if the abbreviation has more than 15 bytes.
#[unsafe(no_mangle)]
pub extern "C" fn fots_moment_format_in_zone(
    moment: Moment,
    zone: &CheckedZone<'_>,
    format: &FormatParts,
    bytes: &mut [u8],
) -> LengthResult
    ensures invalid_moment { ¬ IsMoment moment
        → IsUnprinted bytes.old bytes.new result (length_error INVALID_MOMENT) }
    ensures invalid_format { IsMoment moment → ¬ IsFormat format.now
        → IsUnprinted bytes.old bytes.new result (length_error INVALID_FORMAT) }
    ensures value { IsMoment moment → (items : List Item) → HasItems format.now items → IsForZone zone.now
        (λ z. IsPrintedInZone zone.now.bytes.now z (local_and_offset_in moment) items bytes.old bytes.new result)
        (IsUnprinted bytes.old bytes.new result (length_error INVALID_ZONE)) }
{
    let moment = or_error!(LengthResult, valid_moment(moment), INVALID_MOMENT);
    let format = or_error!(LengthResult, format.to_format(), INVALID_FORMAT);
    let unchecked = or_error!(LengthResult, zone.unchecked(), INVALID_ZONE);
    let seconds = moment.unix_timestamp();
    let offset = or_error!(LengthResult, unchecked.utc_offset_at(seconds), INVALID_ZONE);
    let abbreviation = unchecked.kind_at(seconds).abbreviation(zone.bytes);
    print_at(moment, offset, abbreviation, &format, bytes)
}

/// Prints a moment at an offset with this abbreviation.
fn print_at(
    moment: OffsetDateTime,
    offset: UtcOffset,
    abbreviation: &[u8],
    format: &Format,
    bytes: &mut [u8],
) -> LengthResult
    requires { length format.now ≤ 64 }
    ensures { IsPrintedAt abbreviation.now (local_at (instant moment) offset) offset format.now bytes.old bytes.new result }
{
    let moved = or_error!(
        LengthResult,
        moment.checked_to_offset(offset),
        RESULT_OUT_OF_RANGE
    );
    let mut text = [0; MAX_LENGTH];
    let end = format.print_in_zone(moved, abbreviation, &mut text);
    write(&text, end, bytes)
}
