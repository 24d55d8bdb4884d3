//! The message for invalid arguments.
ghost use Rattle.std.specs.Prelude.{ℕ, List, ◌≡◌, ◌+◌, ◌<◌, ◌≤◌, [], length};
ghost use Rattle.caldate_lines.specs.Calls.{Writes, write_failure};
ghost use Rattle.caldate_lines.specs.Outputs.{WritesPage};

use crate::args::messages::message_for;
use crate::args::options::is_option;
use crate::args::usage_error::UsageError;
use crate::args::word_error::Expected;
use crate::args::words::word_at;
use crate::data_files::data_error::push_data_error;
use cal_recurrence::{ParseRuleError, Recurrence, parse, parse_days};
use caldate_lines::excerpt::{Excerpt, push_quoted};
use caldate_lines::lines::index_of;
use caldate_lines::output::buffer::Buffer;
use caldate_lines::output::write_all;
use caldate_lines::run_error::RunError;
use caldate_lines::streams::Sink;

/// Writes the message for invalid arguments, in one line. Fails with `RunError::Write` if the write
/// does.
///
/// For example, `caldate: unknown unit 'fortnights'; expected days, weeks, months, years, workdays,
/// hours, minutes or seconds`.
#[tactic(auto, using(caldate_lines::proofs::Calls::sent_all))]
pub fn report_usage_error<W: Sink>(
    arguments: &[u8],
    usage_error: UsageError<'_>,
    writer: &mut W,
) -> Result<(), RunError>
    ensures words { (words : List ℕ) × (0 < length words)
        × WritesPage words result (W.contents writer.old) (W.contents writer.new) }
    ensures writes { Writes W.write_gives writer.old (write_failure result) writer.new }
{
    let mut line = Buffer::new();
    push_usage_message(&mut line, arguments, usage_error);
    write_all(writer, line.as_bytes())
}

/// Appends the message, with the program's name and a line feed.
fn push_usage_message(line: &mut Buffer, arguments: &[u8], usage_error: UsageError<'_>)
    requires { line.old ≡ [] }
    ensures short { length line.new ≤ 9_501 }
    ensures some { 0 < length line.new }
{
    line.push(b"caldate: ");
    push_problem(line, arguments, usage_error);
    line.push(b"\n");
}

/// Appends the error and the expected words.
fn push_problem(line: &mut Buffer, arguments: &[u8], usage_error: UsageError<'_>)
    requires { length line.old ≤ 9 }
    ensures short { length line.new ≤ 9_500 }
{
    let (index, expected) = (usage_error.word.index, usage_error.word.expected);
    let message = message_for(expected).as_bytes();
    if let Expected::Requirement(_) = expected {
        line.push(message);
        return;
    }
    match word_at(arguments, index) {
        Some(word) => push_on_word(line, message, usage_error, word),
        None => push_on_missing(line, message, expected, arguments, index),
    }
}

/// Appends the message on a word: `unknown unit 'fortnights'; expected ..`, `duplicate --field`.
fn push_on_word(line: &mut Buffer, message: &[u8], usage_error: UsageError<'_>, word: &[u8])
    requires old { length line.old ≤ 9 }
    requires message { length message.now ≤ 330 }
    ensures short { length line.new ≤ 9_500 }
{
    let expected = usage_error.word.expected;
    if is_duplicate(expected, word) {
        line.push(b"duplicate ");
        line.push(Excerpt::new(word).as_bytes());
        return;
    }
    let (error, words) = error_and_words(message);
    line.push(error);
    line.push(b" ");
    push_quoted(line, word);
    line.push(words);
    push_rule_error(line, expected, word);
    if let Some(error) = usage_error.reason {
        push_data_error(line, error);
    }
}

/// Splits a message before the expected words, which begin with `;`.
fn error_and_words(message: &[u8]) -> (&[u8], &[u8])
    ensures { length result.0.now + length result.1.now ≡ length message.now }
{
    match index_of(b';', message) {
        Some(at) => (&message[..at], &message[at..]),
        None => (message, b""),
    }
}

/// Appends the message on a missing word: `missing number after 'add'; expected ..`.
fn push_on_missing(
    line: &mut Buffer,
    message: &[u8],
    expected: Expected,
    arguments: &[u8],
    index: usize,
)
    requires old { length line.old ≤ 9 }
    requires message { length message.now ≤ 330 }
    ensures short { length line.new ≤ 9_500 }
{
    let (error, words) = error_and_words(message);
    line.push(b"missing ");
    line.push(noun_of(expected, error));
    push_after_word(line, arguments, index);
    line.push(words);
}

/// Returns the name of an argument: for most the error without its first word, such as `unit`.
fn noun_of<'a>(expected: Expected, error: &'a [u8]) -> &'a [u8]
    ensures { length result.now ≤ length error.now + 8 }
{
    match expected {
        Expected::Verb => b"command".as_slice(),
        Expected::Column => b"name".as_slice(),
        Expected::Holidays => b"file".as_slice(),
        Expected::StartPeriod => b"period".as_slice(),
        Expected::Zone => b"zone".as_slice(),
        Expected::Moment => b"argument".as_slice(),
        _ => match index_of(b' ', error) {
            Some(at) => &error[at + 1..],
            None => error,
        },
    }
}

/// Appends the word before an index: ` after 'add'`. Appends nothing for the index 0.
fn push_after_word(line: &mut Buffer, arguments: &[u8], index: usize)
    requires { length line.old ≤ 400 }
    ensures short { length line.new ≤ length line.old + 89 }
{
    if index == 0 {
        return;
    }
    let Some(word) = word_at(arguments, index - 1) else {
        return;
    };
    line.push(b" after ");
    push_quoted(line, word);
}

/// Appends the error in a word that ought to be a rule.
fn push_rule_error(line: &mut Buffer, expected: Expected, word: &[u8])
    requires { length line.old ≤ 500 }
    ensures short { length line.new ≤ length line.old + 68 }
{
    match expected {
        Expected::Rule => push_error_in_rule(line, parse(word)),
        Expected::DayRule => push_error_in_rule(line, parse_days(word)),
        _ => {}
    }
}

/// Appends the error in a rule and its position: `: invalid value of FREQ at 0`.
fn push_error_in_rule(line: &mut Buffer, parsed: Result<Recurrence, ParseRuleError>)
    requires { length line.old ≤ 500 }
    ensures short { length line.new ≤ length line.old + 68 }
{
    if let Err(error) = parsed {
        line.push(b": ");
        line.push(error.reason.text().as_bytes());
        line.push(b" at ");
        line.push_number(error.position as u64);
    }
}

/// Returns whether the word is a duplicate option.
fn is_duplicate(expected: Expected, word: &[u8]) -> bool {
    matches!(expected, Expected::Verb) && is_option(word)
}
