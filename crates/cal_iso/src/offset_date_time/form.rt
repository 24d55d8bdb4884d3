//! Parsing the numbers of a date-time at an offset.
ghost use Rattle.std.specs.Prelude.{IfSome};
ghost use Rattle.cal_iso.specs.IsoShape.{Moment, ScansWholeLong};
ghost use Rattle.cal_iso.specs.MomentForm.{HasIsoMoment};

use crate::offset::scan_spaced_offset;
use crate::plain::form::scan_date_time;
use cal_text::{OffsetDateTimeNumbers, Scanner};

/// Parses the numbers of a date-time and an offset up to the end of the string.
pub(super) fn scan_moment(scanner: &mut Scanner) -> Option<OffsetDateTimeNumbers>
    ensures scans { ScansWholeLong Moment scanner.old.rest.now scanner.new.rest.now result }
    ensures value { IfSome result (HasIsoMoment scanner.old.rest.now) }
{
    let local = scan_date_time(scanner)?;
    let offset = scan_spaced_offset(scanner)?;
    Some(OffsetDateTimeNumbers { local, offset })
}
