//! Finding the events of a calendar file.
ghost use Rattle.std.specs.Prelude.{◌≡◌, Option, Result, length};
ghost use Rattle.cal_ics.specs.Events.{IsFirstEvent};
ghost use Rattle.cal_ics.specs.declared.event.Event.{Event};
ghost use Rattle.cal_ics.specs.declared.event_error.ParseEventError.{ParseEventError};
ghost use Rattle.cal_c.specs.Events.{end_of_event, found_event, no_event};

use super::results::event_status;
use crate::status::{OK, RESULT_OUT_OF_RANGE};
use cal_ics::first_event;

/// Where the lines of an event are, or the position of an error.
#[repr(C)]
#[derive(Clone, Copy, Debug)]
pub struct EventResult {
    pub status: i32,
    /// 0, in place of padding.
    pub unused: u32,
    /// The position of the first byte of the lines, or of the wrong line.
    pub position: usize,
    /// The number of bytes of the lines.
    pub length: usize,
    /// The position after the event.
    pub next: usize,
}

impl EventResult {
    fn error(status: i32, position: usize) -> Self
        ensures { result ≡ no_event status position }
    {
        EventResult {
            status,
            unused: 0,
            position,
            length: 0,
            next: usize::MAX,
        }
    }
}

/// Returns the position after an event, from the bytes after it.
fn end_of_event(text: &[u8], rest: Option<&[u8]>) -> usize
    ensures { result ≡ end_of_event (length text.now) rest.entry }
{
    match rest {
        Some(rest) => text.len().saturating_sub(rest.len()),
        None => text.len(),
    }
}

/// Finds the first event of a text with unfolded lines. Fails if the text has none. In
/// `BEGIN:VEVENT`, `UID:1` and `END:VEVENT`, with a line feed after each, the lines are at 13, of 6
/// bytes, and the event ends at 30.
#[unsafe(no_mangle)]
pub extern "C" fn fots_event_first(text: &[u8]) -> EventResult
    ensures { (found : Result (Option Event) ParseEventError)
        × (IsFirstEvent text.now found × (result ≡ found_event (length text.now) found)) }
{
    match first_event(text) {
        Ok(Some(event)) => EventResult {
            status: OK,
            unused: 0,
            position: event.position,
            length: event.lines.len(),
            next: end_of_event(text, event.rest),
        },
        Ok(None) => EventResult::error(RESULT_OUT_OF_RANGE, usize::MAX),
        Err(error) => EventResult::error(event_status(error.reason), error.position),
    }
}
