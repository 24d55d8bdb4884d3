//! Parsing the numbers of a moment.
ghost use Rattle.std.specs.Prelude.{IfSome};
ghost use Rattle.cal_text.specs.Shape.{ScansWhole, spaced_offset, offset_date_time};
ghost use Rattle.cal_text.specs.OffsetDateTimeForm.{IsSpacedOffset, HasOffsetDateTimeForm};

use crate::offset::form::scan_offset;
use crate::offset::numbers::OffsetNumbers;
use crate::offset_date_time::numbers::OffsetDateTimeNumbers;
use crate::plain::form::scan_plain;
use crate::scanner::Scanner;

/// Parses the numbers of a moment up to the end of the text.
pub(super) fn scan_offset_date_time(scanner: &mut Scanner) -> Option<OffsetDateTimeNumbers>
    ensures scans { ScansWhole offset_date_time scanner.old.rest.now scanner.new.rest.now result }
    ensures value { IfSome result (HasOffsetDateTimeForm scanner.old.rest.now) }
{
    let local = scan_plain(scanner)?;
    let offset = scan_spaced_offset(scanner)?;
    Some(OffsetDateTimeNumbers { local, offset })
}

/// Parses an optional space and an offset up to the end of the text.
fn scan_spaced_offset(scanner: &mut Scanner) -> Option<OffsetNumbers>
    ensures scans { ScansWhole spaced_offset scanner.old.rest.now scanner.new.rest.now result }
    ensures value { IfSome result (IsSpacedOffset scanner.old.rest.now) }
{
    match scanner.byte(b' ') {
        Some(()) => {
            let offset = scan_offset(scanner)?;
            Some(offset)
        }
        None => {
            let offset = scan_offset(scanner)?;
            Some(offset)
        }
    }
}
