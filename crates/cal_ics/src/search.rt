//! Finds the events of a calendar.
ghost use Rattle.std.specs.Prelude.{◌≡◌, ℕ, None, MatchOption};
ghost use Rattle.cal_ics.specs.Events.{first_begin, lines_within, IsBegin, IsEnd, IsFirstEvent};
ghost use Rattle.cal_recurrence.specs.SetText.{lines_of};

use crate::event::Event;
use crate::event_error::{ParseEventError, ParseEventErrorKind};
use crate::lines::{begins_event, depth_after, ends_event, is_last};
use cal_recurrence::{cut, without_return};

/// The line that begins an event.
#[derive(Clone, Copy)]
struct Begin<'a> {
    /// Its position.
    position: usize,
    /// The position after it.
    end: usize,
    /// The text after it, or `None` if it is the last line.
    rest: Option<&'a [u8]>,
}

/// The line that ends an event.
#[derive(Clone, Copy)]
struct End<'a> {
    /// Its position in the text after the first line of the event.
    position: usize,
    /// `true` if it is `END:VEVENT`.
    is_event: bool,
    /// The text after it, or `None` if it is the last line.
    rest: Option<&'a [u8]>,
}

/// Finds the line that begins the first event, or returns `None` without one.
fn find_begin(text: &[u8]) -> Option<Begin<'_>>
    ensures { MatchOption result (first_begin text.now ≡ None) (λ begin. (k : ℕ) × IsBegin text.now k begin) }
{
    let (mut position, mut rest) = (0, Some(text));
    while let Some(left) = rest {
        let (line, more) = cut(left, b'\n');
        let end = position + (line.len() + 1);
        if begins_event(without_return(line)) {
            return Some(Begin {
                position,
                end,
                rest: more,
            });
        }
        position = end;
        rest = more;
    }
    None
}

/// Finds the line that ends an event after its first line, or returns `None` without one.
fn find_end(lines: &[u8]) -> Option<End<'_>>
    ensures { MatchOption result (lines_within 1 (lines_of lines.now) ≡ None)
        (λ end. (n : ℕ) × IsEnd lines.now n end) }
{
    let (mut position, mut depth, mut rest) = (0, 1, Some(lines));
    while let Some(left) = rest {
        let (line, more) = cut(left, b'\n');
        let text = without_return(line);
        if is_last(depth, text) {
            return Some(End {
                position,
                is_event: ends_event(text),
                rest: more,
            });
        }
        depth = depth_after(depth, text);
        position += line.len() + 1;
        rest = more;
    }
    None
}

/// Finds the first event of a calendar with unfolded lines, as `unfold` returns them, or returns
/// `Ok(None)` without one. The next event is the first one of [`Event::rest`].
///
/// Lines end with LF or CR LF. Names match in any case. Components in the event, such as `VALARM`,
/// have their own `BEGIN` and `END`.
///
/// Returns `Unclosed` if no line ends the event, or `OtherEnd` if another line than `END:VEVENT`
/// does.
pub fn first_event(text: &[u8]) -> Result<Option<Event<'_>>, ParseEventError>
    ensures { IsFirstEvent text.now result }
{
    let Some(begin) = find_begin(text) else {
        return Ok(None);
    };
    let unclosed = ParseEventError {
        position: begin.position,
        reason: ParseEventErrorKind::Unclosed,
    };
    let Some(lines) = begin.rest else {
        return Err(unclosed);
    };
    let Some(end) = find_end(lines) else {
        return Err(unclosed);
    };
    if !end.is_event {
        return Err(ParseEventError {
            position: begin.end + end.position,
            reason: ParseEventErrorKind::OtherEnd,
        });
    }
    Ok(Some(Event {
        position: begin.end,
        lines: &lines[..end.position],
        rest: end.rest,
    }))
}
