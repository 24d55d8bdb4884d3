//! Lists of the times of the events of a calendar file.
ghost use Rattle.std.specs.Prelude.{◌≡◌, ◌≤◌, ◌<ℤ◌, Option, Some, MatchOption, length};
ghost use Rattle.cal_datetime.specs.OffsetDateTime.{instant};
ghost use Rattle.cal_recurrence.specs.Words.{parts_at};
ghost use Rattle.cal_recurrence.specs.ZonedSet.{is_earlier};
ghost use Rattle.caldate_lines.specs.Calls.{Writes, write_failure};
ghost use Rattle.caldate_args.specs.Events.{HasTime, zone_of};
ghost use Rattle.caldate_run.specs.Events.{HasTimeAt, IsNextTime, ListsEvents, bound, earlier, time_text};

use crate::list::in_zone::up_to;
use cal_datetime::OffsetDateTime;
use cal_ics::{first_event, parse_event_set};
use cal_recurrence::{DateOrTime, SetParts};
use cal_text::date::CalendarText;
use cal_time::ShortText;
use cal_zone::Zone;
use caldate_args::args::clock_words::{moment_in, rfc3339_or_unix_text};
use caldate_args::command::{EventList, EventZones};
use caldate_args::events::event_times::instants_of;
use caldate_lines::output::Output;
use caldate_lines::run_error::RunError;
use caldate_lines::streams::Sink;

/// Writes the times of the events in order, each once, in RFC 3339 at the offset of the list's zone
/// or as a date, with a line feed. After a `RunError::Write`, only a part of the lines was written.
pub fn list_events<W: Sink>(events: &EventList<'_>, writer: &mut W) -> Result<(), RunError>
    ensures lists { ListsEvents events.now result (W.contents writer.old) (W.contents writer.new) }
    ensures writes { Writes W.write_gives writer.old (write_failure result) writer.new }
{
    let mut output = Output::new();
    let mut next = next_time(events, events.first, false);
    while let Some(moment) = up_to(next, events.last) {
        match output.push_line(time_text(events, moment).as_bytes(), writer) {
            Ok(()) => {}
            Err(error) => return Err(error),
        }
        next = next_time(events, moment, true);
    }
    output.finish(writer)
}

/// Returns the string of a time.
fn time_text(events: &EventList<'_>, moment: OffsetDateTime) -> ShortText
    ensures { result ≡ time_text events.now (instant moment) }
{
    let shown = moment_in(&events.zones.own, moment);
    if events.has_dates {
        CalendarText(shown.date()).text()
    } else {
        rfc3339_or_unix_text(shown)
    }
}

/// Returns the first time of all events that isn't before a moment, or with `after` that is after
/// it.
fn next_time(events: &EventList<'_>, moment: OffsetDateTime, after: bool) -> Option<OffsetDateTime>
    ensures { IsNextTime (HasTimeAt events.now) (bound after moment) result }
{
    let mut next = None;
    let mut rest = Some(events.text);
    while let Some(text) = rest {
        match first_event(text) {
            Ok(Some(event)) => {
                next = earlier(next, next_of(&events.zones, event.lines, moment, after));
                rest = event.rest;
            }
            Ok(None) => return next,
            Err(_) => return next,
        }
    }
    next
}

/// Returns the earlier one of two moments, if there are any.
fn earlier(first: Option<OffsetDateTime>, second: Option<OffsetDateTime>) -> Option<OffsetDateTime>
    ensures { result ≡ earlier first second }
{
    let Some(one) = first else {
        return second;
    };
    let Some(other) = second else {
        return first;
    };
    if other < one { second } else { first }
}

/// Returns the first time of an event that isn't before a moment, or with `after` that is after it.
fn next_of(
    zones: &EventZones<'_>,
    lines: &[u8],
    moment: OffsetDateTime,
    after: bool,
) -> Option<OffsetDateTime>
    ensures { IsNextTime (HasTime zones.now (parts_at 10 lines.now)) (bound after moment) result }
{
    let Ok(parts) = parse_event_set(lines) else {
        return None;
    };
    let Ok(its) = instants_of(&parts) else {
        return None;
    };
    let mut set = its.set(zone_of(zones, &parts));
    if after {
        set.next_after(moment)
    } else {
        set.first_from(moment)
    }
}

/// Returns the zone of an event.
fn zone_of<'z, 'a>(zones: &'z EventZones<'a>, parts: &SetParts<'_>) -> &'z Zone<'a>
    ensures { result.now ≡ zone_of zones.now parts.now }
{
    if let DateOrTime::Utc(_) = parts.start {
        return &zones.utc;
    }
    match (&parts.zone, &zones.named) {
        (Some(_), Some(zone)) => zone,
        _ => &zones.own,
    }
}
