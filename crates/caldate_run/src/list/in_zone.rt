//! Lists of the moments of a recurrence in a zone.
ghost use Rattle.std.specs.Prelude.{◌≡◌, ◌≤ℤ◌, ◌<ℤ◌, MatchOption, Some};
ghost use Rattle.cal_datetime.specs.OffsetDateTime.{LocalAndOffset, instant};
ghost use Rattle.cal_recurrence.specs.declared.zoned_set.ZonedSet.{ZonedSet};
ghost use Rattle.caldate_lines.specs.Calls.{Writes, write_failure};
ghost use Rattle.caldate_run.specs.Recurring.{IsSetIn, ListsSet};

use cal_datetime::OffsetDateTime;
use cal_recurrence::{CountedZonedSet, Recurrence};
use cal_zone::Zone;
use caldate_args::args::clock_words::{moment_in, rfc3339_or_unix_text};
use caldate_lines::output::Output;
use caldate_lines::run_error::RunError;
use caldate_lines::streams::Sink;

/// Writes the moments of the recurrence in order, each in RFC 3339 at the offset of the zone with a
/// line feed. The recurrence starts at the reading of the zone's clocks at the first moment. After a
/// `RunError::Write`, only a part of the lines was written.
pub fn list_in_zone<W: Sink>(
    zone: &Zone<'_>,
    recurrence: Recurrence,
    first: OffsetDateTime,
    last: OffsetDateTime,
    writer: &mut W,
) -> Result<(), RunError>
    ensures lists { (set : ZonedSet) × IsSetIn zone.now recurrence first set
        × ListsSet set first last result (W.contents writer.old) (W.contents writer.new) }
    ensures writes { Writes W.write_gives writer.old (write_failure result) writer.new }
{
    let mut set = set_in(zone, &recurrence, first);
    write_moments(&mut set, first, last, writer)
}

/// Returns the set of a recurrence that starts at the reading of the zone's clocks at a moment.
fn set_in<'a>(
    zone: &'a Zone<'a>,
    recurrence: &Recurrence,
    first: OffsetDateTime,
) -> CountedZonedSet<'a>
    ensures { IsSetIn zone.now recurrence.now first result }
{
    let start = moment_in(zone, first).local();
    recurrence.zoned_set(start, &[], &[], zone)
}

/// Writes the lines of the moments of the set.
fn write_moments<W: Sink>(
    set: &mut CountedZonedSet<'_>,
    first: OffsetDateTime,
    last: OffsetDateTime,
    writer: &mut W,
) -> Result<(), RunError>
    ensures lists { ListsSet set.old first last result (W.contents writer.old) (W.contents writer.new) }
    ensures writes { Writes W.write_gives writer.old (write_failure result) writer.new }
{
    let mut output = Output::new();
    // The reading of the start may mean an earlier moment, if clocks show it twice.
    let mut next = set.first_from(first);
    while let Some(moment) = up_to(next, last) {
        match output.push_line(rfc3339_or_unix_text(moment).as_bytes(), writer) {
            Ok(()) => {}
            Err(error) => return Err(error),
        }
        next = set.next_after(moment);
    }
    output.finish(writer)
}

/// Returns the moment if it isn't past the last one.
pub(crate) fn up_to(moment: Option<OffsetDateTime>, last: OffsetDateTime) -> Option<OffsetDateTime>
    ensures { MatchOption result ((m : LocalAndOffset) → moment ≡ Some m → instant last <ℤ instant m)
        (λ m. (moment ≡ Some m) × (instant m ≤ℤ instant last)) }
{
    match moment {
        Some(one) if one <= last => Some(one),
        _ => None,
    }
}
