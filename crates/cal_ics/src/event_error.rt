//! Errors in the events of a calendar.
ghost use Rattle.std.specs.Prelude.{◌≡◌, Some};
ghost use Rattle.cal_ics.specs.ErrorText.{event_error_text, event_reason_text};

use std::fmt;

/// A reason why an event has no end.
#[derive(Clone, Copy, Debug, PartialEq, Eq)]
pub enum ParseEventErrorKind {
    /// The text ends before a line `END` ends the event.
    Unclosed,
    /// The line that ends the event isn't `END:VEVENT`, but for example `END:VCALENDAR`.
    OtherEnd,
}

/// The first error in the lines that begin and end an event.
///
/// It prints its reason and its position: `VEVENT without END at 17`.
#[derive(Clone, Copy, Debug, PartialEq, Eq)]
pub struct ParseEventError {
    /// The position of the first byte of a line, counted from 0: of the line that ends the event, or
    /// of `BEGIN:VEVENT` without such a line.
    pub position: usize,
    /// The reason.
    pub reason: ParseEventErrorKind,
}

impl fmt::Display for ParseEventErrorKind {
    ghost output = { λ reason. Some (event_reason_text reason) };

    fn fmt<W: fmt::Write>(&self, f: &mut fmt::Formatter<W>) -> fmt::Result {
        let words = match self {
            ParseEventErrorKind::Unclosed => "VEVENT without END",
            ParseEventErrorKind::OtherEnd => "other end of VEVENT",
        };
        f.write_str(words)
    }
}

impl fmt::Display for ParseEventError {
    ghost output = { λ error. Some (event_error_text error) };

    fn fmt<W: fmt::Write>(&self, f: &mut fmt::Formatter<W>) -> fmt::Result {
        write!(f, "{} at {}", self.reason, self.position)
    }
}
