//! The reply to a line.
ghost use Rattle.std.specs.Prelude.{◌≡◌, ◌+◌, ◌<◌, ◌≤◌, ◌++◌, ◌∷◌, [], ℕ, List, None, Some, false, true, is_some, length, max, unwrap_or, IfErr, IfOk, IfSome, MatchOption, MatchResult, OnErr, OnOk, if◌then◌else◌};
ghost use Rattle.caldate_lines.specs.Fields.{text_without};
ghost use Rattle.caldate_lines.specs.Lines.{has_return, text_of};
ghost use Rattle.caldate_lines.specs.Reasons.{reason};
ghost use Rattle.caldate_lines.specs.RunStates.{more, counted};
ghost use Rattle.caldate_lines.specs.Room.{HasRoom, longest_field, longest_out, longest_reply, longest_text};
ghost use Rattle.caldate_answers.specs.Answers.{Answer};
ghost use Rattle.caldate_answers.specs.Scans.{IsScanned};
ghost use Rattle.caldate_answers.specs.Targets.{other_field};
ghost use Rattle.caldate_run.specs.Pieces.{IsAnswered, instead, pieces_of};
ghost use Rattle.caldate_run.specs.Replies.{Describes, IsCounted, IsLine, IsReplyTo, own_field, skipped, stops, with_name};
ghost use Rattle.caldate_run.specs.Runs.{AppendsOut, AppendsReply, EndsUnanswered, Leaves};

use crate::run::other::other_field;
use crate::run::pieces::push_pieces;
use caldate_answers::answer::push_answer;
use caldate_answers::request::Filter;
use caldate_answers::scan::push::push_scanned;
use caldate_lines::field::Field;
use caldate_lines::input::fields::cut_field;
use caldate_lines::lines::{LONGEST_TEXT, cut_return};
use caldate_lines::no_answer::{NoAnswer, push_reason};
use caldate_lines::on_invalid::OnInvalid;
use caldate_lines::output::buffer::Buffer;
use caldate_lines::progress::Progress;
use caldate_lines::record::{LONGEST_ANSWER, end_field, push_separated};
use caldate_lines::unanswered::UnansweredLine;

/// Appends the reply to a line, whose front may have been dropped because it is too long, and
/// counts the line. Fails with the reason, and changes nothing, if the run ends at the line.
// What most lines take is inlined, because a call passes strings and results through memory.
#[inline(always)]
pub fn push_reply(
    buffer: &mut Buffer,
    filter: &Filter<'_>,
    progress: &mut Progress,
    line: &[u8],
) -> Result<(), NoAnswer>
    requires room { HasRoom longest_reply buffer.old }
    requires line { HasRoom (length line.now + 2) buffer.old }
    ensures replied { OnOk result (AppendsReply (IsReplyTo filter.now) filter.now.on_invalid progress.old
        progress.new.tally line.now buffer.old buffer.new) }
    ensures counted { OnOk result (progress.new.tally.lines ≡ more progress.old.tally.lines) }
    ensures short { OnOk result (progress.new.is_long ≡ false) }
    ensures ends { IfErr result (EndsUnanswered filter.now progress.old line.now) }
    ensures same { OnErr result (buffer.new ≡ buffer.old) }
    ensures still { OnErr result (progress.new ≡ progress.old) }
{
    let (text, has_return) = cut_return(line);
    if let Some(goes_out) = push_simple(buffer, filter, progress, text) {
        push_end(buffer, goes_out, has_return);
        progress.tally.count();
        return Ok(());
    }
    match push_otherwise(buffer, filter, progress, text, has_return) {
        Ok(()) => Ok(()),
        Err(why) => Err(why),
    }
}

/// Appends the reply to any line, given by its string and whether it has a carriage return.
#[inline(never)]
fn push_otherwise(
    buffer: &mut Buffer,
    filter: &Filter<'_>,
    progress: &mut Progress,
    text: &[u8],
    with_return: bool,
) -> Result<(), NoAnswer>
    requires room { HasRoom longest_reply buffer.old }
    requires line { HasRoom (length text.now + (if with_return then 3 else 2)) buffer.old }
    ensures replied { OnOk result ((line : List ℕ) → text.now ≡ text_of line → with_return ≡ has_return line
        → AppendsReply (IsReplyTo filter.now) filter.now.on_invalid progress.old progress.new.tally
        line buffer.old buffer.new) }
    ensures counted { OnOk result (progress.new.tally.lines ≡ more progress.old.tally.lines) }
    ensures short { OnOk result (progress.new.is_long ≡ false) }
    ensures ends { IfErr result (λ why. (line : List ℕ) → text.now ≡ text_of line
        → EndsUnanswered filter.now progress.old line why) }
    ensures same { OnErr result (buffer.new ≡ buffer.old) }
    ensures still { OnErr result (progress.new ≡ progress.old) }
{
    let start = buffer.len();
    let (goes_out, why) = push_line(buffer, filter, progress, text);
    if let Some(why) = why {
        if stops(filter.on_invalid) {
            buffer.truncate(start);
            return Err(why);
        }
    }
    push_end(buffer, goes_out, with_return);
    count(progress, text, why);
    Ok(())
}

/// Counts a line. The first one without an answer is kept.
fn count(progress: &mut Progress, text: &[u8], why: Option<NoAnswer>)
    ensures counted { (before : ℕ) → progress.old.tally.lines ≡ counted before
        → IsCounted before why progress.old.tally progress.new.tally }
    ensures lines { progress.new.tally.lines ≡ more progress.old.tally.lines }
    ensures short { progress.new.is_long ≡ false }
{
    match why {
        Some(why) => {
            let reported = describe(progress, text, why);
            progress.tally.count_unanswered(reported);
        }
        None => progress.tally.count(),
    }
    progress.is_long = false;
}

/// Describes a line without an answer at which the run ends.
#[cold]
#[inline(never)]
pub fn describe_line(progress: &Progress, line: &[u8], why: NoAnswer) -> UnansweredLine
    ensures { (before : ℕ) → progress.now.tally.lines ≡ counted before → Describes before why result }
{
    let (text, _has_return) = cut_return(line);
    describe(progress, text, why)
}

/// Describes a line without an answer by its string.
fn describe(progress: &Progress, text: &[u8], why: NoAnswer) -> UnansweredLine
    ensures { (before : ℕ) → progress.now.tally.lines ≡ counted before → Describes before why result }
{
    UnansweredLine {
        number: progress.tally.lines.saturating_add(1),
        why,
        text: progress.excerpt_of(text),
    }
}

/// Returns whether the run ends at a line without an answer.
fn stops(on_invalid: OnInvalid) -> bool
    ensures { result ≡ stops on_invalid }
{
    on_invalid == OnInvalid::Stop
}

/// Appends the end of a line that goes out.
fn push_end(buffer: &mut Buffer, goes_out: bool, with_return: bool)
    requires { HasRoom (if goes_out then (if with_return then 2 else 1) else 0) buffer.old }
    ensures { buffer.new ≡ buffer.old ++ (if goes_out
        then (if with_return then 13 ∷ 10 ∷ [] else 10 ∷ []) else []) }
{
    if goes_out {
        buffer.push_end(with_return);
    }
}

/// Appends the answer to the text of a line that is a string or has one in a field, without more,
/// and returns whether the line goes out. Appends nothing if it has no answer, or otherwise.
#[inline(always)]
fn push_simple(
    buffer: &mut Buffer,
    filter: &Filter<'_>,
    progress: &Progress,
    text: &[u8],
) -> Option<bool>
    requires { HasRoom longest_reply buffer.old }
    ensures out { MatchOption result (buffer.new ≡ buffer.old) (λ goes_out.
        AppendsOut (IsAnswered filter.now text.now (pieces_of filter.now text.now) None) goes_out buffer.old buffer.new) }
    ensures simple { IfSome result (λ goes_out. (progress.now.is_long ≡ false) × (length text.now ≤ longest_text)
        × (filter.now.skip ≤ progress.now.tally.lines) × (filter.now.scans ≡ false)) }
    ensures short { length buffer.new ≤ length buffer.old + longest_out }
{
    if progress.is_long || text.len() > LONGEST_TEXT || progress.tally.lines < filter.skip {
        return None;
    }
    if !is_simple(filter) {
        return None;
    }
    match filter.field {
        Some(field) => push_field(buffer, filter, field, text),
        None => match push_answer(buffer, filter, text) {
            Ok(goes_out) => Some(goes_out),
            Err(_) => None,
        },
    }
}

/// Returns whether the whole line or one field of it is answered in place, by itself. The field is
/// not one of a CSV record.
fn is_simple(filter: &Filter<'_>) -> bool
    ensures scans { result ≡ true → filter.now.scans ≡ false }
    ensures field { result ≡ true
        → IfSome filter.now.field (λ field. (field.csv ≡ false) × (field.appends ≡ false)) }
    ensures single { result ≡ true → IfSome filter.now.field (λ field. filter.now.several ≡ []) }
    ensures other { result ≡ true → other_field filter.now ≡ None }
{
    if filter.scans {
        return false;
    }
    let Some(field) = filter.field else {
        return true;
    };
    if field.csv || field.appends || !filter.several.as_slice().is_empty() {
        return false;
    }
    other_field(filter).is_none()
}

/// Appends the string, which isn't a CSV record, with the answer in place of the field, and returns
/// whether the line goes out. Appends nothing without an answer.
#[inline(always)]
fn push_field(buffer: &mut Buffer, filter: &Filter<'_>, field: Field, text: &[u8]) -> Option<bool>
    requires room { HasRoom longest_reply buffer.old }
    requires fits { length text.now ≤ longest_text }
    requires own { filter.now.field ≡ Some field }
    requires single { filter.now.several ≡ [] }
    requires plain { field.csv ≡ false }
    requires in_place { field.appends ≡ false }
    requires other { other_field filter.now ≡ None }
    ensures out { MatchOption result (buffer.new ≡ buffer.old) (λ goes_out.
        AppendsOut (IsAnswered filter.now text.now (pieces_of filter.now text.now) None) goes_out buffer.old buffer.new) }
    ensures short { length buffer.new ≤ length buffer.old + longest_out }
{
    let (front, part, rest) = cut_field(field, text)?;
    let start = buffer.len();
    buffer.push(front);
    match push_answer(buffer, filter, part) {
        Ok(true) => {
            buffer.push(rest);
            Some(true)
        }
        Ok(false) => {
            buffer.truncate(start);
            Some(false)
        }
        Err(_) => {
            buffer.truncate(start);
            None
        }
    }
}

/// Appends what goes out for the text of a line, and returns whether anything does, and why the
/// line has no answer. If the line is long, its front was dropped.
fn push_line(
    buffer: &mut Buffer,
    filter: &Filter<'_>,
    progress: &Progress,
    text: &[u8],
) -> (bool, Option<NoAnswer>)
    requires room { HasRoom longest_reply buffer.old }
    requires line { HasRoom (length text.now + 1) buffer.old }
    ensures left { (line : List ℕ) → text.now ≡ text_of line
        → Leaves filter.now progress.now line result.1 result.0 buffer.old buffer.new }
    ensures appends { (words : List ℕ) × (buffer.new ≡ buffer.old ++ words) }
    ensures short { length buffer.new ≤ length buffer.old + max (length text.now + 1) longest_out }
{
    let number = progress.tally.lines;
    if progress.is_long || text.len() > LONGEST_TEXT {
        let why = NoAnswer::TooLong;
        let field = own_field(filter, number);
        return (
            push_in_place(buffer, filter.on_invalid, field, text, why),
            Some(why),
        );
    }
    if number < filter.skip {
        return push_skipped(buffer, filter, number, text);
    }
    if filter.scans {
        return push_texts(buffer, filter, text);
    }
    push_pieces(buffer, filter, text)
}

/// Returns the field that a line gets as a new one after `number` other lines. Of the skipped lines
/// only the header gets one.
fn own_field(filter: &Filter<'_>, number: u64) -> Option<Field>
    ensures { (before : ℕ) → number ≡ counted before → result ≡ own_field filter.now before }
{
    if number < filter.skip && !(number == 0 && filter.column.is_some()) {
        return None;
    }
    filter.field
}

/// Appends what goes out in place of a whole line, and returns whether anything does.
fn push_in_place(
    buffer: &mut Buffer,
    mode: OnInvalid,
    field: Option<Field>,
    text: &[u8],
    why: NoAnswer,
) -> bool
    requires room { HasRoom longest_reply buffer.old }
    requires line { HasRoom (length text.now + 1) buffer.old }
    ensures text { buffer.new ≡ buffer.old
        ++ unwrap_or (instead mode (text_without field text.now) (reason why)) [] }
    ensures goes_out { result ≡ is_some (instead mode (text_without field text.now) (reason why)) }
    ensures short { length buffer.new ≤ length buffer.old + max (length text.now + 1) longest_text }
{
    match mode {
        OnInvalid::Keep => {
            push_without(buffer, field, text);
            true
        }
        OnInvalid::Answer => {
            push_reason(buffer, why);
            true
        }
        OnInvalid::Drop | OnInvalid::Stop => false,
    }
}

/// Appends the string without an answer. A new last field is empty.
fn push_without(buffer: &mut Buffer, field: Option<Field>, text: &[u8])
    requires { HasRoom (length text.now + 1) buffer.old }
    ensures text { buffer.new ≡ buffer.old ++ text_without field text.now }
    ensures short { length buffer.new ≤ length buffer.old + length text.now + 1 }
{
    match field {
        Some(field) if field.appends => push_separated(buffer, field, text),
        _ => buffer.push(text),
    }
}

/// Appends what goes out for a line whose strings are answered.
fn push_texts(buffer: &mut Buffer, filter: &Filter<'_>, text: &[u8]) -> (bool, Option<NoAnswer>)
    requires room { HasRoom longest_reply buffer.old }
    requires fits { length text.now ≤ longest_text }
    ensures left { AppendsOut (λ out. (answer : Answer) × IsScanned filter.now text.now answer
        × IsLine filter.now.on_invalid text.now answer result.1 out) result.0 buffer.old buffer.new }
    ensures short { length buffer.new ≤ length buffer.old + longest_out }
{
    match push_scanned(buffer, filter, text) {
        Ok(goes_out) => (goes_out, None),
        Err(why) => (
            push_in_place(buffer, filter.on_invalid, None, text, why),
            Some(why),
        ),
    }
}

/// Appends the text of a skipped line after `number` other lines. The header gets the name of a new
/// field.
fn push_skipped(
    buffer: &mut Buffer,
    filter: &Filter<'_>,
    number: u64,
    text: &[u8],
) -> (bool, Option<NoAnswer>)
    requires room { HasRoom longest_reply buffer.old }
    requires fits { length text.now ≤ longest_text }
    requires skipped { number < filter.now.skip }
    ensures left { (before : ℕ) → number ≡ counted before → AppendsOut (IsLine filter.now.on_invalid
        (text_without (own_field filter.now before) text.now) (skipped filter.now before text.now) result.1)
        result.0 buffer.old buffer.new }
    ensures appends { (words : List ℕ) × (buffer.new ≡ buffer.old ++ words) }
    ensures short { length buffer.new ≤ length buffer.old + longest_out }
{
    match (filter.field, &filter.column) {
        (Some(field), Some(name)) if number == 0 => {
            push_header(buffer, filter.on_invalid, field, name.as_bytes(), text)
        }
        _ => {
            buffer.push(text);
            (true, None)
        }
    }
}

/// Appends the text of the header with the name of a new field.
fn push_header(
    buffer: &mut Buffer,
    mode: OnInvalid,
    field: Field,
    name: &[u8],
    text: &[u8],
) -> (bool, Option<NoAnswer>)
    requires room { HasRoom longest_reply buffer.old }
    requires fits { length text.now ≤ longest_text }
    ensures left { AppendsOut (IsLine mode (text_without (Some field) text.now) (with_name field text.now name.now) result.1)
        result.0 buffer.old buffer.new }
    ensures short { length buffer.new ≤ length buffer.old + longest_out }
{
    if name.len() > LONGEST_ANSWER {
        let why = NoAnswer::TooLong;
        return (
            push_in_place(buffer, mode, Some(field), text, why),
            Some(why),
        );
    }
    push_separated(buffer, field, text);
    let start = buffer.len();
    buffer.push(name);
    end_field(buffer, start, field, false);
    (true, None)
}
