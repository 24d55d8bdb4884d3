//! Runs: the answers to the lines of an input of any length.
ghost use Rattle.std.specs.Prelude.{◌≡◌, ◌<◌, ◌≤◌, ◌+◌, ◌-◌, ◌++◌, ◌&&◌, ◌∷◌, List, [], false, true, is_some, length, take, drop, None, Ok, OnOk, IfOk, IfErr};
ghost use Rattle.caldate_lines.specs.Calls.{Reads, Writes, has_read_failure, most_reads, write_failure};
ghost use Rattle.caldate_lines.specs.Fields.{is_open};
ghost use Rattle.caldate_lines.specs.Lines.{all_lines, ended_lines, has_return, quotes_in, unended};
ghost use Rattle.caldate_lines.specs.Room.{capacity, longest_text};
ghost use Rattle.caldate_lines.specs.RunStates.{DropsFront, NoEnd, passed, quoting_in, quoting_of};
ghost use Rattle.caldate_run.specs.Inputs.{whole_lines};
ghost use Rattle.caldate_run.specs.Replies.{IsReplyTo};
ghost use Rattle.caldate_run.specs.Runs.{Advances, CompletesFrom, CompletesLines, EndsFrom, HasEnded, IsRunResult};

pub(crate) mod named;
pub(crate) mod other;
pub(crate) mod piece;
pub(crate) mod pieces;
pub(crate) mod reply;

use crate::run::reply::{describe_line, push_reply};
use caldate_answers::request::Filter;
use caldate_lines::excerpt::Excerpt;
use caldate_lines::field::Field;
use caldate_lines::input::Input;
use caldate_lines::lines::{next_line, quoting_in};
use caldate_lines::on_invalid::OnInvalid;
use caldate_lines::output::Output;
use caldate_lines::output::buffer::Buffer;
use caldate_lines::progress::Progress;
use caldate_lines::quoting::Quoting;
use caldate_lines::run_error::RunError;
use caldate_lines::streams::{Sink, Source};
use caldate_lines::tally::Tally;

/// The maximum length of an unfinished line: a string and a carriage return.
const MAX_KEPT: usize = 4097;

/// Answers the lines of the input, in order, up to its end.
///
/// Writes the answers to one read before the next read. Fails with `RunError::Read` or
/// `RunError::Write`, with `RunError::Stopped` at a line that ends the run, and with
/// `RunError::Unanswered` if the run is complete but some of its lines have no answer. 2^64 - 1
/// reads that give bytes end like a failed read.
pub fn run<R: Source, W: Sink>(
    filter: Filter<'_>,
    reader: &mut R,
    writer: &mut W,
) -> Result<(), RunError>
    ensures ended { IsRunResult filter.entry result (R.remaining reader.old) (R.remaining reader.new)
        (W.contents writer.old) (W.contents writer.new) }
    ensures reads { Reads R.read_gives most_reads reader.old (has_read_failure result) reader.new }
    ensures writes { Writes W.write_gives writer.old (write_failure result) writer.new }
{
    let mut input = Input::new();
    answer_input(&filter, &mut input, u64::MAX, reader, writer)
}

/// Answers the lines of an input of which some bytes were read, up to its end, in at most `most`
/// more reads.
pub(crate) fn answer_input<R: Source, W: Sink>(
    filter: &Filter<'_>,
    input: &mut Input,
    most: u64,
    reader: &mut R,
    writer: &mut W,
) -> Result<(), RunError>
    ensures ended { HasEnded R.remaining R.read_gives W.contents W.write_gives filter.now most input.old
        result reader.old reader.new writer.old writer.new }
{
    let mut output = Output::new();
    let mut progress = Progress {
        tally: Tally {
            lines: 0,
            unanswered: 0,
            first: None,
        },
        is_long: false,
        front: Excerpt::new(b""),
        quoting: Quoting::Ready,
    };
    let mut reads = most;
    loop {
        match answer_read(filter, &mut progress, &mut output, writer, input) {
            Ok(()) => {}
            Err(error) => return Err(error),
        }
        if reads == 0 {
            return Err(RunError::Read);
        }
        reads -= 1;
        if input.read_more(reader)? == 0 {
            match answer_last(filter, &mut progress, &mut output, writer, input.as_bytes()) {
                Ok(()) => return outcome(&progress.tally),
                Err(error) => return Err(error),
            }
        }
    }
}

/// Answers the lines that end within the input, writes the answers, and keeps the bytes after them.
fn answer_read<W: Sink>(
    filter: &Filter<'_>,
    progress: &mut Progress,
    output: &mut Output,
    writer: &mut W,
    input: &mut Input,
) -> Result<(), RunError>
    ensures none { OnOk result (output.new.buffer ≡ []) }
    ensures done { OnOk result (output.new.outcome ≡ Ok tt) }
    ensures few { OnOk result (length input.new ≤ longest_text + 1) }
    ensures no_end { OnOk result (NoEnd filter.now.field (quoting_of progress.new) input.new) }
    ensures ok { OnOk result (Advances W.contents W.write_gives filter.now output.old output.new
        writer.old writer.new input.old input.new progress.old progress.new) }
    ensures err { IfErr result (λ error. EndsFrom W.contents W.write_gives filter.now error
        (ended_lines filter.now.field) (unended filter.now.field) output.old writer.old writer.new
        input.old progress.old) }
{
    let left = match answer_lines(filter, progress, output, writer, input.as_bytes()) {
        Ok(left) => left,
        Err(error) => return Err(error),
    };
    input.keep_last(left);
    output.flush(writer);
    discard_long_line(filter, input, progress, &mut output.buffer);
    output.finish(writer)
}

/// Answers the lines that end within the bytes, and returns the number of bytes after them.
fn answer_lines<W: Sink>(
    filter: &Filter<'_>,
    progress: &mut Progress,
    output: &mut Output,
    writer: &mut W,
    bytes: &[u8],
) -> Result<usize, RunError>
    requires { length bytes.now ≤ capacity }
    ensures within { IfOk result (λ left. left ≤ length bytes.now) }
    ensures no_end { IfOk result (λ left. NoEnd filter.now.field (quoting_of progress.new) (drop (length bytes.now - left) bytes.now)) }
    ensures ok { IfOk result (λ left. Advances W.contents W.write_gives filter.now output.old output.new
        writer.old writer.new bytes.now (drop (length bytes.now - left) bytes.now) progress.old progress.new) }
    ensures err { IfErr result (λ error. EndsFrom W.contents W.write_gives filter.now error
        (ended_lines filter.now.field) (unended filter.now.field) output.old writer.old writer.new
        bytes.now progress.old) }
{
    let field = filter.field;
    // Only the first line can be the rest of a long one.
    let mut quoting = progress.quoting();
    let mut rest = bytes;
    while let Some((line, after)) = next_line(field, quoting, rest) {
        output.make_room(line.len(), writer);
        match push_reply(&mut output.buffer, filter, progress, line) {
            Ok(()) => {}
            Err(why) => {
                let reported = describe_line(progress, line, why);
                return match output.finish(writer) {
                    Ok(()) => Err(RunError::Stopped(reported)),
                    Err(error) => Err(error),
                };
            }
        }
        quoting = Quoting::Ready;
        rest = after;
    }
    Ok(rest.len())
}

/// Answers the last line if it has no line feed, and writes the answers. A carriage return within
/// quotes is part of a field, so another one after it ends the line.
fn answer_last<W: Sink>(
    filter: &Filter<'_>,
    progress: &mut Progress,
    output: &mut Output,
    writer: &mut W,
    line: &[u8],
) -> Result<(), RunError>
    requires no_end { NoEnd filter.now.field (quoting_of progress.old) line.now }
    requires none { output.old.buffer ≡ [] }
    requires done { output.old.outcome ≡ Ok tt }
    requires few { length line.now ≤ longest_text + 1 }
    ensures ok { OnOk result (CompletesFrom W.contents W.write_gives filter.now progress.new.tally
        output.old writer.old writer.new line.now progress.old) }
    ensures err { IfErr result (λ error. EndsFrom W.contents W.write_gives filter.now error
        (whole_lines filter.now.field) (λ _. []) output.old writer.old writer.new line.now progress.old) }
{
    if line.is_empty() {
        return Ok(());
    }
    if !ends_in_quotes(filter.field, progress.quoting(), line) {
        return answer_line(filter, progress, output, writer, line);
    }
    let bytes = before_returns(line);
    answer_line(filter, progress, output, writer, &bytes[..line.len() + 1])
}

/// Returns the bytes of a line with carriage returns after them.
fn before_returns(line: &[u8]) -> [u8; MAX_KEPT + 1]
    requires { length line.now ≤ longest_text + 1 }
    ensures { take (length line.now + 1) result ≡ line.now ++ 13 ∷ [] }
{
    let mut bytes = [b'\r'; MAX_KEPT + 1];
    bytes[..line.len()].copy_from_slice(line);
    bytes
}

/// Returns whether the last line ends with a carriage return within quotes.
fn ends_in_quotes(field: Option<Field>, quoting: Quoting, line: &[u8]) -> bool
    ensures { result ≡ (has_return line.now && is_open (quotes_in field (quoting_in field quoting line.now))) }
{
    let [.., b'\r'] = line else {
        return false;
    };
    match field {
        Some(record) if record.csv => quoting_in(field, quoting, line).is_open(),
        _ => false,
    }
}

/// Answers a last line without a line feed, and writes the answers.
fn answer_line<W: Sink>(
    filter: &Filter<'_>,
    progress: &mut Progress,
    output: &mut Output,
    writer: &mut W,
    line: &[u8],
) -> Result<(), RunError>
    requires no_end { NoEnd filter.now.field (quoting_of progress.old) line.now }
    requires some { 0 < length line.now }
    requires none { output.old.buffer ≡ [] }
    requires done { output.old.outcome ≡ Ok tt }
    requires few { length line.now ≤ longest_text + 2 }
    ensures ok { OnOk result (CompletesLines W.contents W.write_gives filter.now progress.new.tally
        output.old writer.old writer.new line.now progress.old) }
    ensures err { IfErr result (λ error. EndsFrom W.contents W.write_gives filter.now error
        (all_lines filter.now.field) (λ _. []) output.old writer.old writer.new line.now progress.old) }
{
    match push_reply(&mut output.buffer, filter, progress, line) {
        Ok(()) => output.finish(writer),
        Err(why) => Err(RunError::Stopped(describe_line(progress, line, why))),
    }
}

/// Returns the outcome of a run that is complete: a failure if a line has no answer.
fn outcome(tally: &Tally) -> Result<(), RunError>
    ensures ok { OnOk result (tally.now.first ≡ None) }
    ensures err { IfErr result (λ error. (error ≡ RunError.Unanswered tally.now)
        × (is_some tally.now.first ≡ true)) }
    ensures read { has_read_failure result ≡ false }
    ensures write { write_failure result ≡ None }
{
    match &tally.first {
        Some(_) => Err(RunError::Unanswered(*tally)),
        None => Ok(()),
    }
}

/// Drops a line that is too long except for its last byte, which may be a carriage return. In mode
/// `keep`, passes on what it drops.
fn discard_long_line(
    filter: &Filter<'_>,
    input: &mut Input,
    progress: &mut Progress,
    buffer: &mut Buffer,
)
    requires no_end { NoEnd filter.now.field (quoting_of progress.old) input.old }
    requires none { buffer.old ≡ [] }
    ensures few { length input.new ≤ longest_text + 1 }
    ensures no_end { NoEnd filter.now.field (quoting_of progress.new) input.new }
    ensures advances { DropsFront (IsReplyTo filter.now) filter.now.on_invalid filter.now.field
        input.old input.new progress.old progress.new buffer.new }
{
    if input.len() <= MAX_KEPT {
        return;
    }
    let bytes = input.as_bytes();
    let front = &bytes[..bytes.len() - 1];
    pass_on(filter.on_invalid, front, buffer);
    progress.quoting = quoting_in(filter.field, progress.quoting(), front);
    progress.front = progress.excerpt_of(input.as_bytes());
    input.keep_last(1);
    progress.is_long = true;
}

/// Appends the bytes in mode `keep`.
fn pass_on(on_invalid: OnInvalid, bytes: &[u8], buffer: &mut Buffer)
    requires none { buffer.old ≡ [] }
    requires few { length bytes.now ≤ capacity }
    ensures { buffer.new ≡ passed on_invalid bytes.now }
{
    match on_invalid {
        OnInvalid::Keep => buffer.push(bytes),
        OnInvalid::Answer => {}
        OnInvalid::Drop => {}
        OnInvalid::Stop => {}
    }
}
