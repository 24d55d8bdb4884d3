//! Answers by TEXT in other fields of the line.
ghost use Rattle.std.specs.Prelude.{◌≡◌, ◌+◌, ◌≤◌, List, Some, ℕ, false, is_some, length, true};
ghost use Rattle.caldate_lines.specs.Fields.{field_text};
ghost use Rattle.caldate_lines.specs.Room.{HasRoom, longest_answer, longest_text};
ghost use Rattle.caldate_answers.specs.Answers.{HasNone, IsAnswerBy, keeps};
ghost use Rattle.caldate_answers.specs.Appends.{AppendsAnswer, AppendsSome};
ghost use Rattle.caldate_answers.specs.Targets.{IsAnswerAt, IsOther, IsReadOther, other_field, target_fields, with_text};

use cal_text::DateOrMoment;
use caldate_answers::answer::{push_answer, push_between_at, read_with};
use caldate_answers::request::{Filter, Request};
use caldate_lines::field::Field;
use caldate_lines::input::field_text::{FieldText, plain_text};
use caldate_lines::input::fields::{cut_field, missing_field};
use caldate_lines::no_answer::NoAnswer;
use caldate_lines::output::buffer::Buffer;

/// Returns the other fields that have TEXT, if they do. Field 1 in `until field 1` has the
/// separator of the field to answer.
pub fn other_field(filter: &Filter<'_>) -> Option<Field>
    ensures { result ≡ other_field filter.now }
{
    let field = filter.field?;
    let numbers = filter.request.target_fields()?;
    Some(field.with_numbers(numbers))
}

/// Parses the other fields of a line in the forms of the field to answer.
///
/// For field 2 of `a,2024-02-29` in CSV, this returns 2024-02-29. Returns `NoField` if the line
/// has too few fields, and `UnreadOtherField` if the text of the other fields is in none of the forms.
pub fn read_other(filter: &Filter<'_>, other: Field, text: &[u8]) -> Result<DateOrMoment, NoAnswer>
    requires { length text.now ≤ longest_text }
    ensures { IsOther filter.now other text.now result }
{
    match cut_field(other, text) {
        Some((_front, part, _rest)) => read_part(filter, other.csv, part),
        None => Err(NoAnswer::NoField(missing_field(other, text))),
    }
}

/// Parses the other fields.
fn read_part(filter: &Filter<'_>, csv: bool, part: &[u8]) -> Result<DateOrMoment, NoAnswer>
    requires { length part.now ≤ longest_text }
    ensures { IsReadOther filter.now result (field_text csv part.now) }
{
    match plain_text(csv, part) {
        Some(asked) => read_asked(filter, asked),
        None => read_asked(filter, FieldText::new(csv, part).as_bytes()),
    }
}

/// Parses the text of the other fields.
fn read_asked(filter: &Filter<'_>, asked: &[u8]) -> Result<DateOrMoment, NoAnswer>
    ensures { IsReadOther filter.now result asked.now }
{
    match read_with(filter, asked) {
        Ok(found) => Ok(found),
        Err(_) => Err(NoAnswer::UnreadOtherField),
    }
}

/// Appends the answer to a part of the text of a line, and returns whether the line goes out.
#[inline(always)]
pub fn push_answer_at(
    buffer: &mut Buffer,
    filter: &Filter<'_>,
    text: &[u8],
    asked: &[u8],
) -> Result<bool, NoAnswer>
    requires fits { length text.now ≤ longest_text }
    requires room { HasRoom (length asked.now + longest_answer) buffer.old }
    ensures answered { AppendsAnswer (IsAnswerAt filter.now text.now asked.now) result buffer.old buffer.new }
    ensures short { length buffer.new ≤ length buffer.old + length asked.now + longest_answer }
    ensures few { keeps filter.now.request ≡ false
        → length buffer.new ≤ length buffer.old + longest_answer }
{
    match other_field(filter) {
        Some(other) => push_beside(buffer, filter, other, text, asked),
        None => push_answer(buffer, filter, asked),
    }
}

/// Appends the answer by TEXT in these other fields.
#[inline(never)]
fn push_beside(
    buffer: &mut Buffer,
    filter: &Filter<'_>,
    other: Field,
    text: &[u8],
    asked: &[u8],
) -> Result<bool, NoAnswer>
    requires fits { length text.now ≤ longest_text }
    requires room { HasRoom longest_answer buffer.old }
    requires other { other_field filter.now ≡ Some other }
    ensures answered { AppendsAnswer (IsAnswerAt filter.now text.now asked.now) result buffer.old buffer.new }
    ensures short { length buffer.new ≤ length buffer.old + longest_answer }
{
    let target = match read_other(filter, other, text) {
        Ok(target) => target,
        Err(why) => return Err(why),
    };
    match read_with(filter, asked) {
        Ok(found) => {
            if push_count(buffer, filter, &found, &target) {
                Ok(true)
            } else {
                Err(NoAnswer::None)
            }
        }
        Err(why) => Err(why),
    }
}

/// Appends the measure between a date or moment and its TEXT.
fn push_count(
    buffer: &mut Buffer,
    filter: &Filter<'_>,
    found: &DateOrMoment,
    target: &DateOrMoment,
) -> bool
    requires room { HasRoom longest_answer buffer.old }
    requires other { is_some (target_fields filter.now.request) ≡ true }
    ensures has { result ≡ true → (asked : List ℕ) → AppendsSome
        (IsAnswerBy (with_text filter.now target.now) asked found.now) buffer.old buffer.new }
    ensures none { result ≡ false → (buffer.new ≡ buffer.old) × ((asked : List ℕ)
        → HasNone (with_text filter.now target.now) asked found.now NoAnswer.None) }
    ensures short { length buffer.new ≤ length buffer.old + longest_answer }
{
    let clock = &filter.clock;
    let workdays = &filter.workdays;
    match &filter.request {
        Request::Until(own, _, measure) => {
            push_between_at(buffer, own, clock, workdays, *measure, found, target)
        }
        Request::Since(own, _, measure) => {
            push_between_at(buffer, own, clock, workdays, *measure, target, found)
        }
        _ => unreachable!(),
    }
}
