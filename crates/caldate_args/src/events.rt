//! Events of a calendar file (iCalendar, RFC 5545).
ghost use Rattle.std.specs.Prelude.{IfOk, IsOk};
ghost use Rattle.cal_recurrence.specs.Words.{parts_at};
ghost use Rattle.caldate_args.specs.Events.{AreValid, IsCalendar, IsListable, IsReadCalendar, event_instants};

pub mod event_times;
pub(crate) mod file_lines;
pub mod read_events_error;

use crate::events::event_times::instants_of;
use crate::events::file_lines::line_number;
use crate::events::read_events_error::{EventErrorKind, ReadEventsError};
use crate::zones::read_zone_error::FileError;
use crate::zones::zone_source::read_whole;
use cal_ics::{Event, first_event};
use cal_recurrence::{DateOrTime, SetParts, unfold};
use caldate_lines::streams::Source;

/// The size of the buffer for a calendar file, in bytes. The file must have fewer.
pub const MAX_CALENDAR_BYTES: usize = 131_072;

/// The name of a zone in a calendar file.
#[derive(Clone, Copy)]
pub(crate) struct NamedZone<'a> {
    /// The name (`TZID`).
    pub name: &'a [u8],
    /// The number of the line before the first event with this zone, counted from 1.
    pub line: usize,
}

/// A calendar file.
#[derive(Clone, Copy)]
pub(crate) struct Calendar<'a> {
    /// The lines, which are unfolded.
    pub text: &'a [u8],
    /// The zone of its events, or `None` if no event names a zone.
    pub zone: Option<NamedZone<'a>>,
}

/// A zone that an event names.
#[derive(Clone, Copy)]
struct FoundZone<'a> {
    name: &'a [u8],
    /// The position in the line before those of the event.
    position: usize,
}

/// The first error in the events of a calendar.
#[derive(Clone, Copy)]
struct EventError {
    /// A position in the line of the error.
    position: usize,
    kind: EventErrorKind,
}

/// Reads a calendar file into the buffer, with its lines unfolded, and checks its events. With
/// `only_dates`, each must start at a date.
pub(crate) fn read_calendar<'a, R: Source>(
    file: &mut R,
    only_dates: bool,
    buffer: &'a mut [u8; MAX_CALENDAR_BYTES],
) -> Result<Calendar<'a>, ReadEventsError>
    ensures { IsReadCalendar (R.remaining file.old) (R.remaining file.new) result }
{
    let mut folded = [0u8; MAX_CALENDAR_BYTES];
    match read_whole(file, &mut folded) {
        Ok(length) => parse_calendar(&folded[..length], only_dates, buffer),
        Err(error) => Err(ReadEventsError::File(error)),
    }
}

/// Parses the bytes of a calendar file.
fn parse_calendar<'a>(
    bytes: &[u8],
    only_dates: bool,
    buffer: &'a mut [u8; MAX_CALENDAR_BYTES],
) -> Result<Calendar<'a>, ReadEventsError>
    ensures { IfOk result (λ calendar. IsCalendar bytes.now calendar.text.now) }
{
    let Some(length) = unfold(bytes, buffer) else {
        return Err(ReadEventsError::File(FileError::TooLong));
    };
    let text = &buffer[..length];
    match find_zone(text, only_dates) {
        Ok(found) => Ok(Calendar {
            text,
            zone: numbered(found, bytes, text),
        }),
        Err(error) => {
            let line = line_number(bytes, text, error.position);
            Err(ReadEventsError::Line(line, error.kind))
        }
    }
}

/// Returns the zone with the number of its line.
fn numbered<'a>(found: Option<FoundZone<'a>>, bytes: &[u8], text: &[u8]) -> Option<NamedZone<'a>> {
    let zone = found?;
    Some(NamedZone {
        name: zone.name,
        line: line_number(bytes, text, zone.position),
    })
}

/// Checks the events of a calendar, and returns the zone that they name, if any does.
fn find_zone<'a>(text: &'a [u8], only_dates: bool) -> Result<Option<FoundZone<'a>>, EventError>
    ensures { IfOk result (λ _. AreValid (parts_at 10 text.now)) }
{
    let mut zone = None;
    let mut rest = Some(text);
    while let Some(left) = rest {
        // The text that is left is the end of the whole text.
        let start = text.len().saturating_sub(left.len());
        match first_event(left) {
            Ok(Some(event)) => {
                match zone_after(
                    zone,
                    event,
                    start.saturating_add(event.position),
                    only_dates,
                ) {
                    Ok(found) => zone = found,
                    Err(error) => return Err(error),
                }
                rest = event.rest;
            }
            Ok(None) => return Ok(zone),
            Err(error) => {
                return Err(EventError {
                    position: start.saturating_add(error.position),
                    kind: EventErrorKind::Event(error.reason),
                });
            }
        }
    }
    Ok(zone)
}

/// Checks an event whose lines begin at a position, and returns the zone that the events up to it
/// name, if any does. All must name the same zone.
fn zone_after<'a>(
    zone: Option<FoundZone<'a>>,
    event: Event<'a>,
    position: usize,
    only_dates: bool,
) -> Result<Option<FoundZone<'a>>, EventError>
    ensures { IfOk result (λ _. IsListable (parts_at 10 event.entry.lines.now)) }
{
    let parts = match event.set() {
        Ok(parts) => parts,
        Err(error) => {
            return Err(EventError {
                position: position.saturating_add(error.position),
                kind: EventErrorKind::Set(error.reason),
            });
        }
    };
    // Errors in several lines have the line `BEGIN:VEVENT`.
    let position = position.saturating_sub(1);
    let found = match &parts.zone {
        Some(zone) => Some(FoundZone {
            name: zone.as_bytes(),
            position,
        }),
        None => None,
    };
    match check_kind(&parts, only_dates) {
        Ok(()) => same_zone(zone, found, position),
        Err(kind) => Err(EventError { position, kind }),
    }
}

/// Checks that the values of an event have kinds that a list can have.
fn check_kind(parts: &SetParts<'_>, only_dates: bool) -> Result<(), EventErrorKind>
    ensures { IfOk result (λ _. IsOk (event_instants parts.now)) }
{
    if only_dates && !matches!(parts.start, DateOrTime::Date(_)) {
        return Err(EventErrorKind::Time);
    }
    match instants_of(parts) {
        Ok(_) => Ok(()),
        Err(line) => Err(EventErrorKind::Mixed(line)),
    }
}

/// Returns the zone of the events before and of one more event, which must be the same.
fn same_zone<'a>(
    before: Option<FoundZone<'a>>,
    found: Option<FoundZone<'a>>,
    position: usize,
) -> Result<Option<FoundZone<'a>>, EventError> {
    match (before, found) {
        (Some(zone), Some(other)) if zone.name != other.name => Err(EventError {
            position,
            kind: EventErrorKind::OtherZone,
        }),
        (None, found) => Ok(found),
        (Some(zone), _) => Ok(Some(zone)),
    }
}
