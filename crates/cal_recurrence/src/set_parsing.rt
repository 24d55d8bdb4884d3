//! Parses the text of a recurrence set.
ghost use Rattle.std.specs.Prelude.{◌≡◌, IfOk};
ghost use Rattle.cal_recurrence.specs.SetText.{without_return, IsSetOf};
ghost use Rattle.cal_recurrence.specs.SetWritten.{IsSpelledSet};

use crate::set_draft::SetDraft;
use crate::set_fault::{ParseSetError, ParseSetErrorKind};
use crate::set_parts::SetParts;
use crate::words::{cut, split};

/// Parses the lines of a recurrence set of RFC 5545, such as `DTSTART;VALUE=DATE:20240101`,
/// `RRULE:FREQ=MONTHLY;BYDAY=-1FR`, `RDATE;VALUE=DATE:20240704` and
/// `EXDATE;VALUE=DATE:20240126,20240223`.
///
/// The lines come in any order, and end with LF or CR LF. [`unfold`](crate::unfold) joins folded
/// ones first. `DTSTART` is required. `RRULE` is as for [`parse`](crate::parse); without it the set
/// has the start. `RDATE` and `EXDATE` can be repeated, and have at most 62 values each.
///
/// A value is a date such as `20240101`, or a date and time such as `20240101T090000` or
/// `20240101T090000Z`. The parameter `VALUE=DATE` requires dates, `VALUE=DATE-TIME` requires times,
/// and `TZID=Europe/Berlin` requires times without `Z`. A set has one zone, so each `TZID` has the
/// same name, byte by byte. The name can be in quotation marks, and has no `"`, `:` or `;`.
///
/// With `VALUE=PERIOD`, each value of `RDATE` is the time before a `/`, and the end or the duration
/// after it isn't read: `20240101T090000Z/PT1H` is `20240101T090000Z`. Other lines have no periods.
///
/// Other parameters are ignored, such as `X-FOO=1` or `X-FOO="a:b;c"`. `RRULE` can have only such
/// parameters.
///
/// Returns the error of the first invalid line: `Unknown` for any other name, `Twice` for a second
/// `DTSTART` or `RRULE`, `TooMany` for more than 62 values, `Rule` for an invalid recurrence,
/// `Value` for another invalid value, or one that a parameter excludes, or `OtherZone` for the name
/// of another zone. Otherwise returns `Missing` if there is no `DTSTART`.
pub fn parse_set(text: &[u8]) -> Result<SetParts<'_>, ParseSetError>
    ensures value { IsSetOf text.now result }
    ensures spelled { IfOk result IsSpelledSet }
{
    let (mut draft, mut position, mut lines) = (SetDraft::new(), 0, Some(text));
    while let Some(left) = lines {
        let (line, rest) = cut(left, b'\n');
        draft = match draft.with_line(without_return(line)) {
            Ok(draft) => draft,
            Err(reason) => return Err(ParseSetError { position, reason }),
        };
        position += line.len() + 1;
        lines = rest;
    }
    match draft.finished() {
        Some(parts) => Ok(parts),
        None => Err(ParseSetError {
            position: text.len(),
            reason: ParseSetErrorKind::Missing,
        }),
    }
}

/// Returns the line without the carriage return at its end.
pub fn without_return(line: &[u8]) -> &[u8]
    ensures { result.now ≡ without_return line.now }
{
    if line.is_empty() {
        return line;
    }
    let last = line.len() - 1;
    if line[last] == b'\r' {
        split(line, last).0
    } else {
        line
    }
}
