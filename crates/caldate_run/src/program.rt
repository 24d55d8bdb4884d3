//! The program, from its arguments to its status.
ghost use Rattle.std.specs.Prelude.{◌≡◌, ◌<◌, ℕ, length, Bool, false, List, Option, Some, None, Result, Ok, IfErr, IfOk, unwrap_or, if◌then◌else◌};
ghost use Rattle.caldate_lines.specs.Calls.{Reads, Writes, has_read_failure, most_reads, write_failure};
ghost use Rattle.caldate_lines.specs.Ending.{ReportsOutcome};
ghost use Rattle.caldate_lines.specs.Outputs.{WritesPage};
ghost use Rattle.caldate_lines.specs.declared.ending.Ending.{Ending};
ghost use Rattle.caldate_lines.specs.declared.run_error.RunError.{RunError};
ghost use Rattle.caldate_lines.specs.declared.field.Field.{Field};
ghost use Rattle.caldate_answers.specs.declared.request.Filter.{Filter};
ghost use Rattle.caldate_args.specs.declared.command.EventList.{EventList};
ghost use Rattle.caldate_args.specs.declared.command.Listing.{Listing};
ghost use Rattle.caldate_args.specs.declared.command.Moments.{Moments};
ghost use Rattle.caldate_args.specs.declared.command.Occurrences.{Occurrences};
ghost use Rattle.caldate_args.specs.Files.{FailsOrKeeps};
ghost use Rattle.caldate_args.specs.Lists.{HasValidStep, Lists};
ghost use Rattle.caldate_run.specs.Events.{ListsEvents};
ghost use Rattle.caldate_run.specs.Named.{EndsNamed};
ghost use Rattle.caldate_run.specs.Recurring.{ListsOccurrences};
ghost use Rattle.caldate_run.specs.Runs.{IsRunResult};
ghost use Rattle.caldate_run.specs.Steps.{ListsSteps};

use crate::help::{HELP, VERSION};
use crate::list::events::list_events;
use crate::list::list;
use crate::list::moments::list_moments;
use crate::list::recurring::list_occurrences;
use crate::run::named::run_named;
use crate::run::run;
use crate::text::Text;
use cal_datetime::PlainDateTime;
use cal_time::ShortText;
use caldate_answers::request::Filter;
use caldate_args::args::clock_words::clock_text;
use caldate_args::args::usage_error::UsageError;
use caldate_args::args::usage_message::report_usage_error;
use caldate_args::args::words::word_at;
use caldate_args::command::Command;
use caldate_args::files::Joined;
use caldate_args::files::named_files::NamedFiles;
use caldate_lines::ending::{Ending, end, end_after};
use caldate_lines::field::Field;
use caldate_lines::output::write_all;
use caldate_lines::run_error::RunError;
use caldate_lines::streams::{Sink, Source};
use std::env::Env;
use std::fs::Files;
use std::io::Read;

/// The status for invalid arguments.
const INVALID_ARGUMENTS: u8 = 2;

/// Runs the command that the arguments ask for. The words `today` and `now` after `--date` mean the
/// date-time `now`, which is at UTC. Returns the status and the result of writing to standard
/// error. If the arguments are invalid, this only writes one line to standard error, and the status
/// is 2.
#[tactic(auto, using(caldate_lines::proofs::Calls::sent_all, crate::proofs::Reported::no_reads))]
pub fn perform<R: Source, W: Sink, E: Sink>(
    asked: Result<Command<'_>, UsageError<'_>>,
    arguments: &[u8],
    now: &Option<PlainDateTime>,
    reader: &mut R,
    writer: &mut W,
    errors: &mut E,
) -> Ending
    requires { IfOk asked HasValidStep }
    ensures lines { (filter : Filter) → asked.entry ≡ Ok (Command.Lines filter) → (outcome : Result Unit RunError)
        × IsRunResult filter outcome (R.remaining reader.old) (R.remaining reader.new)
        (W.contents writer.old) (W.contents writer.new)
        × Reads R.read_gives most_reads reader.old (has_read_failure outcome) reader.new
        × Writes W.write_gives writer.old (write_failure outcome) writer.new
        × ReportsOutcome outcome result (E.contents errors.old) (E.contents errors.new) }
    ensures once { (filter : Filter) → asked.entry ≡ Ok (Command.Once filter)
        → (reader.new ≡ reader.old) × ((text : List ℕ) × (outcome : Result Unit RunError) × (rest : Option (List ℕ))
        × IsRunResult filter outcome (Some text) rest (W.contents writer.old) (W.contents writer.new)
        × (has_read_failure outcome ≡ false)
        × Writes W.write_gives writer.old (write_failure outcome) writer.new
        × ReportsOutcome outcome result (E.contents errors.old) (E.contents errors.new)) }
    ensures named { (filter : Filter) (field : Field)
        → asked.entry ≡ Ok (Command.Named filter field) → EndsNamed filter field (R.remaining reader.old)
        (λ own outcome. IsRunResult own outcome (R.remaining reader.old) (R.remaining reader.new)
        (W.contents writer.old) (W.contents writer.new)
        × Reads R.read_gives most_reads reader.old (has_read_failure outcome) reader.new
        × Writes W.write_gives writer.old (write_failure outcome) writer.new
        × ReportsOutcome outcome result (E.contents errors.old) (E.contents errors.new))
        (λ failed words. Reads R.read_gives most_reads reader.old failed reader.new
        × (writer.new ≡ writer.old) × (result.status ≡ 2)
        × WritesPage words result.reported (E.contents errors.old) (E.contents errors.new)) }
    ensures named_once { (filter : Filter) (field : Field) → asked.entry ≡ Ok (Command.NamedOnce filter field)
        → (reader.new ≡ reader.old) × ((text : List ℕ) × (rest : Option (List ℕ))
        × EndsNamed filter field (Some text)
        (λ own outcome. IsRunResult own outcome (Some text) rest
        (W.contents writer.old) (W.contents writer.new)
        × (has_read_failure outcome ≡ false)
        × Writes W.write_gives writer.old (write_failure outcome) writer.new
        × ReportsOutcome outcome result (E.contents errors.old) (E.contents errors.new))
        (λ failed words. (failed ≡ false) × (writer.new ≡ writer.old) × (result.status ≡ 2)
        × WritesPage words result.reported (E.contents errors.old) (E.contents errors.new))) }
    ensures list { (listing : Listing) → asked.entry ≡ Ok (Command.Dates listing) → (reader.new ≡ reader.old) × ((outcome : Result Unit RunError)
        × Lists listing outcome (W.contents writer.old) (W.contents writer.new)
        × Writes W.write_gives writer.old (write_failure outcome) writer.new
        × ReportsOutcome outcome result (E.contents errors.old) (E.contents errors.new)) }
    ensures steps { (moments : Moments) → asked.entry ≡ Ok (Command.Moments moments) → (reader.new ≡ reader.old) × ((outcome : Result Unit RunError)
        × ListsSteps moments outcome (W.contents writer.old) (W.contents writer.new)
        × Writes W.write_gives writer.old (write_failure outcome) writer.new
        × ReportsOutcome outcome result (E.contents errors.old) (E.contents errors.new)) }
    ensures recurring { (dates : Occurrences) → asked.entry ≡ Ok (Command.Recurring dates) → (reader.new ≡ reader.old) × ((outcome : Result Unit RunError)
        × ListsOccurrences dates outcome (W.contents writer.old) (W.contents writer.new)
        × Writes W.write_gives writer.old (write_failure outcome) writer.new
        × ReportsOutcome outcome result (E.contents errors.old) (E.contents errors.new)) }
    ensures events { (events : EventList) → asked.entry ≡ Ok (Command.Events events) → (reader.new ≡ reader.old) × ((outcome : Result Unit RunError)
        × ListsEvents events outcome (W.contents writer.old) (W.contents writer.new)
        × Writes W.write_gives writer.old (write_failure outcome) writer.new
        × ReportsOutcome outcome result (E.contents errors.old) (E.contents errors.new)) }
    ensures help { asked.entry ≡ Ok Command.Help → (reader.new ≡ reader.old) × ((outcome : Result Unit RunError)
        × WritesPage HELP.now outcome (W.contents writer.old) (W.contents writer.new)
        × Writes W.write_gives writer.old (write_failure outcome) writer.new
        × ReportsOutcome outcome result (E.contents errors.old) (E.contents errors.new)) }
    ensures version { asked.entry ≡ Ok Command.Version → (reader.new ≡ reader.old) × ((outcome : Result Unit RunError)
        × WritesPage VERSION.now outcome (W.contents writer.old) (W.contents writer.new)
        × Writes W.write_gives writer.old (write_failure outcome) writer.new
        × ReportsOutcome outcome result (E.contents errors.old) (E.contents errors.new)) }
    ensures usage_error { IfErr asked.entry (λ error. (reader.new ≡ reader.old) × (writer.new ≡ writer.old) × (result.status ≡ 2)
        × ((words : List ℕ) × (0 < length words)
        × WritesPage words result.reported (E.contents errors.old) (E.contents errors.new))) }
    ensures reads { (failed : Bool) × Reads R.read_gives most_reads reader.old failed reader.new }
    ensures reported { Writes E.write_gives errors.old (write_failure result.reported) errors.new }
{
    match asked {
        Ok(Command::Lines(filter)) => {
            let skipped = filter.skip;
            let outcome = run(filter, reader, writer);
            end_after(outcome, skipped, errors)
        }
        Ok(Command::Named(filter, field)) => run_named(filter, field, reader, writer, errors),
        Ok(Command::Once(filter)) => {
            let skipped = filter.skip;
            let outcome = run_once(filter, arguments, *now, writer);
            end_after(outcome, skipped, errors)
        }
        Ok(Command::NamedOnce(filter, field)) => {
            run_named_once(filter, field, arguments, *now, writer, errors)
        }
        Ok(Command::Dates(listing)) => {
            let outcome = list(&listing, writer);
            end(outcome, errors)
        }
        Ok(Command::Moments(moments)) => {
            let outcome = list_moments(&moments, writer);
            end(outcome, errors)
        }
        Ok(Command::Recurring(dates)) => {
            let outcome = list_occurrences(dates, writer);
            end(outcome, errors)
        }
        Ok(Command::Events(events)) => {
            let outcome = list_events(&events, writer);
            end(outcome, errors)
        }
        Ok(Command::Help) => end(write_all(writer, HELP), errors),
        Ok(Command::Version) => end(write_all(writer, VERSION), errors),
        Err(usage_error) => Ending {
            status: INVALID_ARGUMENTS,
            reported: report_usage_error(arguments, usage_error, errors),
        },
    }
}

/// Performs the command as `perform` does, and reads the files as one input. Returns the ending of
/// `perform`, with status 2 if a file couldn't be read.
pub fn perform_on_files<S: Env + Files + Drop, I: Read + Drop, F: Sink + Drop, W: Sink, E: Sink>(
    asked: Result<Command<'_>, UsageError<'_>>,
    arguments: &[u8],
    now: &Option<PlainDateTime>,
    files: &mut Joined<NamedFiles<S, I, F>>,
    writer: &mut W,
    errors: &mut E,
) -> Ending
    requires { IfOk asked HasValidStep }
    ensures failed { FailsOrKeeps files.old.texts.has_failed files.new.texts.has_failed
        files.old.texts.errors files.new.texts.errors }
    ensures status { (own : Ending) × (result.reported ≡ own.reported)
        × (result.status ≡ (if files.new.texts.has_failed then 2 else own.status))
        × ((filter : Filter) → asked.entry ≡ Ok (Command.Lines filter) → (outcome : Result Unit RunError)
        × IsRunResult filter outcome None None (W.contents writer.old) (W.contents writer.new)
        × Writes W.write_gives writer.old (write_failure outcome) writer.new
        × ReportsOutcome outcome own (E.contents errors.old) (E.contents errors.new))
        × ((filter : Filter) (field : Field) → asked.entry ≡ Ok (Command.Named filter field) → EndsNamed filter field None
        (λ numbered outcome. IsRunResult numbered outcome None None (W.contents writer.old) (W.contents writer.new)
        × Writes W.write_gives writer.old (write_failure outcome) writer.new
        × ReportsOutcome outcome own (E.contents errors.old) (E.contents errors.new))
        (λ failed words. (writer.new ≡ writer.old) × (own.status ≡ 2)
        × WritesPage words own.reported (E.contents errors.old) (E.contents errors.new)))
        × IfErr asked.entry (λ error. (files.new ≡ files.old) × (writer.new ≡ writer.old) × (own.status ≡ 2)
        × ((words : List ℕ) × (0 < length words)
        × WritesPage words own.reported (E.contents errors.old) (E.contents errors.new))) }
    ensures reported { Writes E.write_gives errors.old (write_failure result.reported) errors.new }
{
    let ending = perform(asked, arguments, now, files, writer, errors);
    Ending {
        status: files.texts.status(ending.status),
        reported: ending.reported,
    }
}

/// Answers the string after `--date`.
fn run_once<W: Sink>(
    filter: Filter<'_>,
    arguments: &[u8],
    now: Option<PlainDateTime>,
    writer: &mut W,
) -> Result<(), RunError>
    ensures ended { (text : List ℕ) × (rest : Option (List ℕ)) × IsRunResult filter.entry result (Some text) rest (W.contents writer.old) (W.contents writer.new) }
    ensures read { has_read_failure result ≡ false }
    ensures writes { Writes W.write_gives writer.old (write_failure result) writer.new }
{
    let word = given_word(arguments);
    let written = clock_text(word, &filter.clock, now);
    let mut text = Text::new(text_or(&written, word));
    run(filter, &mut text, writer)
}

/// Answers the string after `--date`, whose field has a name.
fn run_named_once<W: Sink, E: Sink>(
    filter: Filter<'_>,
    field: Field,
    arguments: &[u8],
    now: Option<PlainDateTime>,
    writer: &mut W,
    errors: &mut E,
) -> Ending
    ensures ended { (text : List ℕ) × (rest : Option (List ℕ))
        × EndsNamed filter.entry field (Some text)
        (λ own outcome. IsRunResult own outcome (Some text) rest
        (W.contents writer.old) (W.contents writer.new)
        × (has_read_failure outcome ≡ false)
        × Writes W.write_gives writer.old (write_failure outcome) writer.new
        × ReportsOutcome outcome result (E.contents errors.old) (E.contents errors.new))
        (λ failed words. (failed ≡ false) × (writer.new ≡ writer.old) × (result.status ≡ 2)
        × WritesPage words result.reported (E.contents errors.old) (E.contents errors.new)) }
    ensures reported { Writes E.write_gives errors.old (write_failure result.reported) errors.new }
{
    let word = given_word(arguments);
    let written = clock_text(word, &filter.clock, now);
    let mut text = Text::new(text_or(&written, word));
    run_named(filter, field, &mut text, writer, errors)
}

/// Returns the string, or the word if it is missing.
fn text_or<'a>(text: &'a Option<ShortText>, word: &'a [u8]) -> &'a [u8]
    ensures { result.now ≡ unwrap_or text.now word.now }
{
    match text {
        Some(text) => text.as_bytes(),
        None => word,
    }
}

/// Returns the word after `--date`, or an empty one.
fn given_word(arguments: &[u8]) -> &[u8] {
    match word_at(arguments, 1) {
        Some(text) => text,
        None => b"",
    }
}
