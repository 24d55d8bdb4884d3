//! Laws: a string has one answer, a recurrence has one list, a record has its fields, and an answer
//! becomes one field.
ghost use Rattle.std.specs.List.{join_with_byte};
ghost use Rattle.std.specs.Prelude.{◌≡◌, ◌==◌, ◌<◌, List, ℕ, ℤ, All, IsOk, Option, Result, Some, false, length, map, true};
ghost use Rattle.cal_zone.specs.Local.{IsLocalOf};
ghost use Rattle.cal_zone.specs.declared.local.Local.{Local};
ghost use Rattle.caldate_lines.specs.Fields.{in_place_of, split_fields};
ghost use Rattle.caldate_lines.specs.Records.{IsField, IsRecord, records_text};
ghost use Rattle.caldate_lines.specs.declared.quoting.Quoting.TheVariants.{Ready};
ghost use Rattle.caldate_lines.specs.declared.run_error.RunError.{RunError};
ghost use Rattle.caldate_answers.specs.Answers.{Answer, IsAnswer, clock_of};
ghost use Rattle.caldate_answers.specs.declared.request.Clock.{Clock};
ghost use Rattle.caldate_run.specs.Inputs.{whole_lines};
ghost use Rattle.caldate_run.specs.Recurring.{ListsOccurrences};
ghost use Rattle.caldate_run.specs.Steps.{ListsSteps};

use cal_text::DateOrMoment;
use cal_zone::laws::one_local;
use caldate_answers::answer::read_with;
use caldate_answers::request::{Clock, Filter, Request};
use caldate_args::command::{Moments, Occurrences, Span};
use caldate_lines::field::Field;
use caldate_lines::no_answer::NoAnswer;

/// Proves that no string has two answers to the same request in the same reading.
pub fn one_answer(filter: &Filter<'_>, text: &[u8]) -> Result<DateOrMoment, NoAnswer>
    ensures { (answer other : Answer) → IsAnswer filter.now text.now answer
        → IsAnswer filter.now text.now other → answer ≡ other }
{
    one_clock(&filter.clock);
    one_place(&filter.request);
    read_with(filter, text)
}

/// Proves that a reading has one meaning by the clock of a filter.
fn one_clock(given: &Option<Clock<'_>>)
    ensures { (clock : Clock) → given.now ≡ Some clock → (reading : ℤ) (a b : Local)
        → IsLocalOf clock.zone reading a → IsLocalOf clock.zone reading b → a ≡ b }
{
    if let Some(clock) = given {
        one_local(&clock.zone);
    }
}

/// Proves that a reading has one meaning in the zone of `at ZONE`.
fn one_place(request: &Request<'_>)
    ensures { (clock : Clock) → clock_of request.now ≡ Some clock → (reading : ℤ) (a b : Local)
        → IsLocalOf clock.zone reading a → IsLocalOf clock.zone reading b → a ≡ b }
{
    match request.clock() {
        Some(clock) => one_local(&clock.zone),
        None => {}
    }
}

/// Proves that a recurrence has one list of dates or moments.
pub fn one_list(asked: &Occurrences<'_>)
    ensures { (held : List ℕ) (outcome other : Result Unit RunError) (new later : Option (List ℕ))
        → IsOk outcome → IsOk other → ListsOccurrences asked.now outcome (Some held) new
        → ListsOccurrences asked.now other (Some held) later → new ≡ later }
{
    match &asked.span {
        Span::Dates(_, _) => {}
        Span::Moments(_, _) => {}
        Span::InZone(zone, _, _) => one_local(zone),
    }
}

/// Proves that steps by the clocks of a zone have one list of moments.
pub fn one_list_of_steps(moments: &Moments<'_>)
    ensures { (held : List ℕ) (outcome other : Result Unit RunError) (new later : Option (List ℕ))
        → IsOk outcome → IsOk other → ListsSteps moments.now outcome (Some held) new
        → ListsSteps moments.now other (Some held) later → new ≡ later }
{
    one_local(&moments.clock.zone);
}

/// Proves that the fields of a record of RFC 4180 are split at its separators, which are not
/// quotes.
#[tactic(auto, using(caldate_lines::proofs::RecordFields::fields_are))]
pub fn record_fields(separator: u8)
    ensures { (fields : List (List ℕ)) → (34 == separator) ≡ false → 0 < length fields
        → All (IsField separator) fields
        → split_fields separator Ready (join_with_byte separator fields) ≡ fields }
{}

/// Proves that the records of RFC 4180 are the lines of an input, which may have quoted line feeds.
/// The separator is not a line feed.
#[tactic(auto, using(crate::proofs::WholeRecords::records_are_whole))]
pub fn records(field: Field)
    ensures { (records : List (List (List ℕ))) → field.csv ≡ true → (34 == field.separator) ≡ false
        → (10 == field.separator) ≡ false → All (IsRecord field.separator) records
        → whole_lines (Some field) (records_text field.separator records)
        ≡ map (join_with_byte field.separator) records }
{}

/// Proves that an answer becomes a field of a record of RFC 4180.
#[tactic(auto, using(caldate_lines::proofs::RecordFields::words_are))]
pub fn answer_field(field: Field)
    ensures { (part words : List ℕ) → field.csv ≡ true
        → IsField field.separator (in_place_of field part words) }
{}
