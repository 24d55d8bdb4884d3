//! Runs with names of fields.
ghost use Rattle.std.specs.Prelude.{◌≡◌, ◌+◌, ◌<◌, ◌≤◌, ◌⊎◌, Bool, [], Err, Ok, Some, false, true, length, IfErr, IfOk, MatchResult, OnErr, OnOk};
ghost use Rattle.std.specs.Io.KnownBytes.{Consumes};
ghost use Rattle.caldate_lines.specs.Calls.{Reads, Writes, has_read_failure, most_reads, write_failure};
ghost use Rattle.caldate_lines.specs.Ending.{ReportsOutcome};
ghost use Rattle.caldate_lines.specs.Header.{HasHeader, HasLine, number_in};
ghost use Rattle.caldate_lines.specs.Room.{longest_text};
ghost use Rattle.caldate_lines.specs.Outputs.{WritesPage};
ghost use Rattle.caldate_lines.specs.RunStates.{NoEnd};
ghost use Rattle.caldate_lines.specs.declared.quoting.Quoting.TheVariants.{Ready};
ghost use Rattle.caldate_answers.specs.Targets.{target_name, with_target};
ghost use Rattle.caldate_run.specs.Named.{EndsNamed, numbered, numbers_in, with_number};
ghost use Rattle.caldate_run.specs.Runs.{Gives, IsRunResult};

use crate::run::{MAX_KEPT, answer_input};
use caldate_answers::request::{Filter, Request, Target};
use caldate_lines::ending::{Ending, end, end_after};
use caldate_lines::field::Field;
use caldate_lines::field_names::{FieldNames, MAX_FIELDS};
use caldate_lines::field_numbers::FieldNumbers;
use caldate_lines::header::{header_of, number_in, report_header_error, report_overlap};
use caldate_lines::input::Input;
use caldate_lines::lines::next_line;
use caldate_lines::quoting::Quoting;
use caldate_lines::run_error::RunError;
use caldate_lines::streams::{Sink, Source};

/// The status after a header that lacks a name.
const INVALID_HEADER: u8 = 2;

/// Answers the lines of an input whose header gives the numbers of fields, and writes why the run
/// failed. If the header lacks a name, or fields overlap, writes only the error.
// Not inlined, so that a run without a name takes no more stack.
#[inline(never)]
pub fn run_named<R: Source, W: Sink, E: Sink>(
    filter: Filter<'_>,
    field: Field,
    reader: &mut R,
    writer: &mut W,
    errors: &mut E,
) -> Ending
    ensures ended { EndsNamed filter.entry field (R.remaining reader.old)
        (λ own outcome. IsRunResult own outcome (R.remaining reader.old) (R.remaining reader.new)
        (W.contents writer.old) (W.contents writer.new)
        × Reads R.read_gives most_reads reader.old (has_read_failure outcome) reader.new
        × Writes W.write_gives writer.old (write_failure outcome) writer.new
        × ReportsOutcome outcome result (E.contents errors.old) (E.contents errors.new))
        (λ failed words. Reads R.read_gives most_reads reader.old failed reader.new
        × (writer.new ≡ writer.old) × (result.status ≡ 2)
        × WritesPage words result.reported (E.contents errors.old) (E.contents errors.new)) }
    ensures reads { (failed : Bool) × Reads R.read_gives most_reads reader.old failed reader.new }
    ensures reported { Writes E.write_gives errors.old (write_failure result.reported) errors.new }
{
    let mut input = Input::new();
    let reads = match read_header(field, &mut input, reader) {
        Ok(reads) => reads,
        Err(error) => return end(Err(error), errors),
    };
    let header = header_of(field, input.as_bytes());
    match numbers_in(&filter, field, header) {
        Ok(numbers) => {
            let own = numbered(filter, field, numbers);
            if own.several.overlap() {
                return Ending {
                    status: INVALID_HEADER,
                    reported: report_overlap(errors),
                };
            }
            let outcome = answer_input(&own, &mut input, reads, reader, writer);
            end_after(outcome, own.skip, errors)
        }
        Err(name) => Ending {
            status: INVALID_HEADER,
            reported: report_header_error(field, name, header, errors),
        },
    }
}

/// Reads until the input has the end of its first line, has ended, or has more bytes than a line
/// may have. Returns how many more reads a run may make.
fn read_header<R: Source>(field: Field, input: &mut Input, reader: &mut R) -> Result<u64, RunError>
    requires { input.old ≡ [] }
    ensures given { OnOk result (Consumes (R.remaining reader.old) (R.remaining reader.new) input.new) }
    ensures header { OnOk result (HasHeader field (R.remaining reader.new) input.new) }
    ensures reads { IfOk result (λ left. (failed : Bool) (last : R)
        → Reads R.read_gives left reader.new failed last
        → Reads R.read_gives most_reads reader.old failed last) }
    ensures no_end { OnErr result (Gives (R.remaining reader.old) (R.remaining reader.new) (NoEnd (Some field) Ready)) }
    ensures err { IfErr result (λ error. error ≡ RunError.Read) }
    ensures failed { OnErr result (Reads R.read_gives most_reads reader.old true reader.new) }
{
    let mut reads = u64::MAX;
    while reads > 0 {
        let count = match input.read_more(reader) {
            Ok(count) => count,
            Err(error) => return Err(error),
        };
        if count == 0 {
            return Ok(reads);
        }
        reads -= 1;
        if has_header(field, input.as_bytes()) {
            return Ok(reads);
        }
    }
    Err(RunError::Read)
}

/// Returns whether a line ends within the bytes, or they are more than a line may have.
fn has_header(field: Field, bytes: &[u8]) -> bool
    ensures whole { result ≡ true → HasLine field bytes.now ⊎ (longest_text + 1 < length bytes.now) }
    ensures no_end { result ≡ false → NoEnd (Some field) Ready bytes.now }
    ensures few { result ≡ false → length bytes.now ≤ longest_text + 1 }
{
    if bytes.len() > MAX_KEPT {
        return true;
    }
    match next_line(Some(field), Quoting::Ready, bytes) {
        Some((_line, _after)) => true,
        None => false,
    }
}

/// Returns the numbers of the fields to answer and of the field that has TEXT, each if it has a
/// name, or the first name that the header lacks.
fn numbers_in<'a>(
    filter: &'a Filter<'_>,
    field: Field,
    header: &[u8],
) -> Result<([Option<u16>; MAX_FIELDS], Option<u16>), &'a [u8]>
    ensures { MatchResult result (λ numbers. numbers_in filter.now field header.now ≡ Ok numbers)
        (λ name. numbers_in filter.now field header.now ≡ Err name.now) }
{
    let own = filter.names.numbers_in(field, header)?;
    let target = target_number(filter, field, header)?;
    Ok((own, target))
}

/// Returns the number of the field that has TEXT if it has a name, or the name if the header lacks
/// it.
fn target_number<'a>(
    filter: &'a Filter<'_>,
    field: Field,
    header: &[u8],
) -> Result<Option<u16>, &'a [u8]>
    ensures { MatchResult result
        (λ target. number_in field header.now (target_name filter.now.request) ≡ Ok target)
        (λ name. number_in field header.now (target_name filter.now.request) ≡ Err name.now) }
{
    match filter.request.target_name() {
        Some(name) => number_in(field, header, name),
        None => Ok(None),
    }
}

/// Returns the filter with these numbers of fields in place of their names.
fn numbered<'a>(
    filter: Filter<'a>,
    field: Field,
    numbers: ([Option<u16>; MAX_FIELDS], Option<u16>),
) -> Filter<'a>
    ensures { result ≡ numbered filter.entry field numbers }
{
    let (firsts, target) = numbers;
    Filter {
        request: with_number(filter.request, target),
        field: Some(Field {
            first: firsts[0].unwrap_or(field.first),
            ..field
        }),
        several: filter.several.renumbered(&firsts),
        names: FieldNames::new(),
        ..filter
    }
}

/// Returns the request with this number of the field that has TEXT, if one is given.
fn with_number<'a>(request: Request<'a>, number: Option<u16>) -> Request<'a>
    ensures { result ≡ with_number number request.entry }
{
    match number {
        Some(first) => with_target(request, Target::Fields(FieldNumbers { first, joined: 0 })),
        None => request,
    }
}

/// Returns the request with this target in place of its own, if it has one.
fn with_target<'a>(request: Request<'a>, target: Target<'a>) -> Request<'a>
    ensures { result ≡ with_target target.entry request.entry }
{
    match request {
        Request::Until(own, _, unit) => Request::Until(own, target, unit),
        Request::Since(own, _, unit) => Request::Since(own, target, unit),
        other => other,
    }
}
