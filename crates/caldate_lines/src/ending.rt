//! How the program ends: its status, and its words on standard error.
ghost use Rattle.std.specs.Prelude.{◌≡◌, ◌+◌, ◌≤◌, ℕ, List, [], length};
ghost use Rattle.caldate_lines.specs.Calls.{Writes, write_failure};
ghost use Rattle.caldate_lines.specs.Ending.{ReportsOutcome, Says, status_of};
ghost use Rattle.caldate_lines.specs.Room.{HasRoom};
ghost use Rattle.caldate_lines.specs.Outputs.{WritesPage};

use crate::no_answer::push_reason;
use crate::output::buffer::Buffer;
use crate::output::write_all;
use crate::run_error::{RunError, is_closed};
use crate::streams::Sink;
use crate::tally::Tally;
use crate::unanswered::UnansweredLine;

/// An end of the program: its status, and the outcome of its words on standard error.
#[derive(Clone, Copy, Debug, PartialEq, Eq)]
pub struct Ending {
    /// The status.
    pub status: u8,
    /// The result of writing the words on standard error.
    pub reported: Result<(), RunError>,
}

/// Writes why the run failed, and returns the status: 0 if all lines were answered or the output
/// was closed, 1 if a line has no answer, otherwise 2.
pub fn end<W: Sink>(outcome: Result<(), RunError>, writer: &mut W) -> Ending
    ensures reports { ReportsOutcome outcome result (W.contents writer.old) (W.contents writer.new) }
    ensures writes { Writes W.write_gives writer.old (write_failure result.reported) writer.new }
{
    end_after(outcome, 0, writer)
}

/// Does the same for a run whose first `skipped` lines, such as a header, count for none.
pub fn end_after<W: Sink>(outcome: Result<(), RunError>, skipped: u64, writer: &mut W) -> Ending
    ensures reports { ReportsOutcome outcome result (W.contents writer.old) (W.contents writer.new) }
    ensures writes { Writes W.write_gives writer.old (write_failure result.reported) writer.new }
{
    Ending {
        status: status_of(&outcome),
        reported: report(&outcome, skipped, writer),
    }
}

/// Writes why the run failed, in one line. After an error, a beginning of the line was written, and
/// never all of it.
#[tactic(auto, using(crate::proofs::Calls::sent_all))]
fn report<W: Sink>(
    outcome: &Result<(), RunError>,
    skipped: u64,
    writer: &mut W,
) -> Result<(), RunError>
    ensures message { (words : List ℕ) × Says (status_of outcome.now) words
        × WritesPage words result (W.contents writer.old) (W.contents writer.new) }
    ensures writes { Writes W.write_gives writer.old (write_failure result) writer.new }
{
    let mut words = Buffer::new();
    push_words(&mut words, outcome, skipped);
    write_all(writer, words.as_bytes())
}

/// Returns the status after a run.
fn status_of(outcome: &Result<(), RunError>) -> u8
    ensures { result ≡ status_of outcome.now }
{
    match outcome {
        Ok(()) => 0,
        Err(RunError::Stopped(_) | RunError::Unanswered(_)) => 1,
        Err(RunError::Write(kind)) if is_closed(*kind) => 0,
        Err(_) => 2,
    }
}

/// Appends the words about a run.
fn push_words(words: &mut Buffer, outcome: &Result<(), RunError>, skipped: u64)
    requires { words.old ≡ [] }
    ensures { Says (status_of outcome.now) words.new }
{
    match outcome {
        Ok(()) => {}
        Err(RunError::Write(kind)) if is_closed(*kind) => {}
        Err(RunError::Read) => words.push(b"caldate: cannot read standard input\n"),
        Err(RunError::Write(_)) => words.push(b"caldate: cannot write to standard output\n"),
        Err(RunError::Stopped(line)) => {
            words.push(b"caldate: ");
            push_description(words, line);
            words.push(b"\n");
        }
        Err(RunError::Unanswered(tally)) => {
            words.push(b"caldate: ");
            push_summary(words, tally, skipped);
            words.push(b"\n");
        }
    }
}

/// Appends a description such as `line 2: unreadable at 0: x`.
fn push_description(words: &mut Buffer, line: &UnansweredLine)
    requires { HasRoom 500 words.old }
    ensures short { length words.new ≤ length words.old + 400 }
    ensures longer { length words.old ≤ length words.new }
{
    words.push(b"line ");
    words.push_number(line.number);
    words.push(b": ");
    push_reason(words, line.why);
    words.push(b": ");
    words.push(line.text.as_bytes());
}

/// Returns the number of lines without those that were skipped, or of all if one of these has no
/// answer.
fn lines_after(tally: &Tally, skipped: u64) -> u64 {
    match &tally.first {
        Some(line) if line.number <= skipped => tally.lines,
        _ => tally.lines.saturating_sub(skipped),
    }
}

/// Appends a summary such as `3 of 900 lines have no answer; first: line 2: unreadable at 0: x`.
/// The lines that were skipped don't count, unless one of them has no answer.
fn push_summary(words: &mut Buffer, tally: &Tally, skipped: u64)
    requires { length words.old ≤ 100 }
    ensures short { length words.new ≤ 1_000 }
    ensures longer { length words.old ≤ length words.new }
{
    words.push_number(tally.unanswered);
    words.push(b" of ");
    words.push_number(lines_after(tally, skipped));
    if tally.unanswered == 1 {
        words.push(b" lines has no answer");
    } else {
        words.push(b" lines have no answer");
    }
    if let Some(line) = &tally.first {
        words.push(b"; first: ");
        push_description(words, line);
    }
}
