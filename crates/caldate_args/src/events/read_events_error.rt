//! Why a calendar file has no list of events, in words.
ghost use Rattle.std.specs.Prelude.{◌+◌, ◌≤◌, length};

use crate::zones::read_zone_error::{FileError, file_words};
use cal_ics::ParseEventErrorKind;
use cal_recurrence::{ParseSetErrorKind, SetLine};
use caldate_lines::output::buffer::Buffer;

/// A reason why a calendar file has no list of events.
#[derive(Clone, Copy)]
pub enum ReadEventsError {
    /// The file can't be read.
    File(FileError),
    /// An event has an error in the line with this number, counted from 1.
    Line(usize, EventErrorKind),
}

/// A reason why an event can't be listed.
#[derive(Clone, Copy)]
pub enum EventErrorKind {
    /// The event has no end, or another one.
    Event(ParseEventErrorKind),
    /// The line is invalid, or the event has no `DTSTART`.
    Set(ParseSetErrorKind),
    /// The line of the event with this name has a value of another kind than `DTSTART`.
    Mixed(SetLine),
    /// The event starts at a time of day, and the list has dates.
    Time,
    /// The event is in another zone than an event before it.
    OtherZone,
    /// The event is in a zone that can't be read.
    UnknownZone,
}

/// Appends the reason, such as `not found` or `line 3: invalid value of DTSTART`.
pub fn push_events_error(line: &mut Buffer, error: ReadEventsError)
    requires { length line.old ≤ 900 }
    ensures short { length line.new ≤ length line.old + 200 }
{
    match error {
        ReadEventsError::File(error) => line.push(file_words(error)),
        ReadEventsError::Line(number, kind) => {
            line.push(b"line ");
            line.push_number(number as u64);
            line.push(b": ");
            push_kind(line, kind);
        }
    }
}

/// Appends the reason, such as `invalid RRULE: unknown part at 17`.
fn push_kind(line: &mut Buffer, kind: EventErrorKind)
    requires { length line.old ≤ 927 }
    ensures short { length line.new ≤ length line.old + 170 }
{
    match kind {
        EventErrorKind::Event(ParseEventErrorKind::Unclosed) => line.push(b"VEVENT without END"),
        EventErrorKind::Event(ParseEventErrorKind::OtherEnd) => line.push(b"other end of VEVENT"),
        EventErrorKind::Set(kind) => push_set_error(line, kind),
        EventErrorKind::Mixed(its) => {
            line.push(b"invalid value of ");
            line.push(its.name().as_bytes());
            line.push(b"; expected the kind of DTSTART");
        }
        EventErrorKind::Time => line.push(b"time of day in DTSTART; expected a date"),
        EventErrorKind::OtherZone => line.push(b"second time zone; expected only one"),
        EventErrorKind::UnknownZone => line.push(b"unknown time zone"),
    }
}

/// Appends the reason, and the position of an error in a rule.
fn push_set_error(line: &mut Buffer, kind: ParseSetErrorKind)
    requires { length line.old ≤ 927 }
    ensures short { length line.new ≤ length line.old + 170 }
{
    line.push(kind.text().as_bytes());
    if let ParseSetErrorKind::Rule(error) = kind {
        line.push(b": ");
        line.push(error.reason.text().as_bytes());
        line.push(b" at ");
        line.push_number(error.position as u64);
    }
}
