//! Parses the recurrence set of an event.
ghost use Rattle.std.specs.Prelude.{◌≡◌};
ghost use Rattle.cal_ics.specs.EventSet.{set_line, IsEventSet};

use crate::lines::depth_after;
use cal_recurrence::{
    ParseSetError, ParseSetErrorKind, SetDraft, SetParts, cut, kind_of, without_return,
};

/// Returns a line of the event itself that its set has, or else an empty line. `depth` components
/// are open before the line.
fn set_line(depth: usize, line: &[u8]) -> &[u8]
    ensures { result.now ≡ set_line depth line.now }
{
    if depth == 1 && kind_of(line).is_some() {
        line
    } else {
        b"".as_slice()
    }
}

/// Parses the set of the lines of an event: its lines `DTSTART`, `RRULE`, `RDATE` and `EXDATE`, as
/// `cal_recurrence::parse_set` does. Other lines are ignored, as are those of components in the
/// event, such as `VALARM`.
///
/// Returns the error of the first invalid line, or else `Missing` if there is no `DTSTART`. Positions
/// count from the start of the lines. For `DTSTART:20240101` and `SUMMARY:Event`, the set has 1
/// January 2024.
pub fn parse_event_set(lines: &[u8]) -> Result<SetParts<'_>, ParseSetError>
    ensures { IsEventSet lines.now result }
{
    let (mut draft, mut position, mut depth) = (SetDraft::new(), 0, 1);
    let mut rest = Some(lines);
    while let Some(left) = rest {
        let (line, more) = cut(left, b'\n');
        let text = without_return(line);
        draft = match draft.with_line(set_line(depth, text)) {
            Ok(draft) => draft,
            Err(reason) => return Err(ParseSetError { position, reason }),
        };
        depth = depth_after(depth, text);
        position += line.len() + 1;
        rest = more;
    }
    match draft.finished() {
        Some(parts) => Ok(parts),
        None => Err(ParseSetError {
            position: lines.len(),
            reason: ParseSetErrorKind::Missing,
        }),
    }
}
