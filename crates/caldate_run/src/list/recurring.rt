//! Lists of the dates or moments of a recurrence.
ghost use Rattle.caldate_lines.specs.Calls.{Writes, write_failure};
ghost use Rattle.caldate_lines.specs.Outputs.{WritesPage};
ghost use Rattle.caldate_run.specs.Recurring.{ListsOccurrences, lines_left};

use crate::list::in_zone::list_in_zone;
use crate::list::remaining::Remaining;
use caldate_args::command::{Occurrences, Span};
use caldate_lines::output::Output;
use caldate_lines::run_error::RunError;
use caldate_lines::streams::Sink;

/// Writes the dates or moments of the recurrence in order, each in the calendar form or in RFC 3339
/// with a line feed. After a `RunError::Write`, only a part of the lines was written.
pub fn list_occurrences<W: Sink>(asked: Occurrences<'_>, writer: &mut W) -> Result<(), RunError>
    ensures lists { ListsOccurrences asked.entry result (W.contents writer.old) (W.contents writer.new) }
    ensures writes { Writes W.write_gives writer.old (write_failure result) writer.new }
{
    let recurrence = asked.recurrence;
    match &asked.span {
        Span::Dates(first, last) => {
            write_lines(Remaining::Dates(recurrence.days(*first), *last), writer)
        }
        Span::Moments(first, last) => {
            let readings = recurrence.readings(first.local());
            write_lines(Remaining::Moments(readings, first.offset(), *last), writer)
        }
        Span::InZone(zone, first, last) => list_in_zone(zone, recurrence, *first, *last, writer),
    }
}

/// Writes the lines of the dates or readings that are left.
fn write_lines<W: Sink>(mut rest: Remaining, writer: &mut W) -> Result<(), RunError>
    ensures lines { WritesPage (lines_left rest) result (W.contents writer.old) (W.contents writer.new) }
    ensures writes { Writes W.write_gives writer.old (write_failure result) writer.new }
{
    let mut output = Output::new();
    while let Some(text) = rest.next_text() {
        match output.push_line(text.as_bytes(), writer) {
            Ok(()) => {}
            Err(error) => return Err(error),
        }
    }
    output.finish(writer)
}
