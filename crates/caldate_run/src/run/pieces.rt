//! What goes out for the pieces of a line.
ghost use Rattle.std.specs.Prelude.{◌≡◌, ◌+◌, ◌*◌, ◌-◌, ◌<◌, ◌≤◌, ◌++◌, ◌∷◌, [], Ok, Err, Some, IfSome, option_map, IsTrue, true, is_ok, is_some, length, take, drop, unwrap_or, if◌then◌else◌};
ghost use Rattle.std.specs.Result.{result_err};
ghost use Rattle.caldate_lines.specs.Reasons.{reason};
ghost use Rattle.caldate_lines.specs.Room.{HasRoom, longest_answer, longest_field, longest_out, longest_reply, longest_text};
ghost use Rattle.caldate_answers.specs.Answers.{Answer};
ghost use Rattle.caldate_run.specs.Pieces.{IsAnswered, IsAnswerToAsked, IsOutOf, IsPieceOut, closed_words, earlier, fields_from, has_place, is_quoted_in, own_field, pieces_of, placed, replaced};
ghost use Rattle.caldate_run.specs.Runs.{AppendsOut};

use crate::run::other::push_answer_at;
use crate::run::piece::{Piece, field_piece, new_field, whole};
use caldate_answers::request::Filter;
use caldate_lines::field::Field;
use caldate_lines::field_numbers::FieldNumbers;
use caldate_lines::input::fields::is_quoted;
use caldate_lines::no_answer::{NoAnswer, push_reason};
use caldate_lines::on_invalid::OnInvalid;
use caldate_lines::output::buffer::Buffer;
use caldate_lines::record::{end_field, push_quote};
use caldate_lines::several_fields::RankedField;

/// Appends what goes out for the text of a line, if anything does, and returns whether it does, and
/// why the line has no answer.
#[inline(never)]
pub fn push_pieces(
    buffer: &mut Buffer,
    filter: &Filter<'_>,
    text: &[u8],
) -> (bool, Option<NoAnswer>)
    requires room { HasRoom longest_reply buffer.old }
    requires fits { length text.now ≤ longest_text }
    ensures answered { AppendsOut (IsAnswered filter.now text.now (pieces_of filter.now text.now) result.1)
        result.0 buffer.old buffer.new }
    ensures short { length buffer.new ≤ length buffer.old + longest_out }
{
    match filter.field {
        Some(field) if field.appends => push_piece(buffer, filter, text, &new_field(field, text)),
        Some(field) if filter.several.as_slice().is_empty() => {
            push_fields(buffer, filter, field, &[single(field)], text)
        }
        Some(field) => push_fields(buffer, filter, field, filter.several.as_slice(), text),
        None => push_piece(buffer, filter, text, &whole(text)),
    }
}

fn single(field: Field) -> RankedField
    ensures { result ≡ own_field field }
{
    RankedField {
        numbers: FieldNumbers {
            first: field.first,
            joined: field.joined,
        },
        rank: 0,
    }
}

/// Appends what goes out for the fields of a line.
fn push_fields(
    buffer: &mut Buffer,
    filter: &Filter<'_>,
    field: Field,
    fields: &[RankedField],
    text: &[u8],
) -> (bool, Option<NoAnswer>)
    requires few { length fields.now ≤ 4 }
    requires room { HasRoom longest_reply buffer.old }
    requires fits { length text.now ≤ longest_text }
    ensures answered { AppendsOut (IsAnswered filter.now text.now (fields_from field text.now 0 fields.now) result.1)
        result.0 buffer.old buffer.new }
    ensures short { length buffer.new ≤ length buffer.old + longest_out }
{
    let (goes_out, first) = push_fields_from(buffer, filter, field, fields, text, 0);
    (goes_out, reason_of(first))
}

fn reason_of(first: Option<(u8, NoAnswer)>) -> Option<NoAnswer>
    ensures { result ≡ option_map (λ one. one.1) first }
{
    match first {
        Some((_rank, why)) => Some(why),
        None => None,
    }
}

/// Appends what goes out for these fields and for the bytes of the line after the first `at`.
/// Returns whether anything does, and the reason of the first option whose field has no answer.
fn push_fields_from(
    buffer: &mut Buffer,
    filter: &Filter<'_>,
    field: Field,
    fields: &[RankedField],
    text: &[u8],
    at: usize,
) -> (bool, Option<(u8, NoAnswer)>)
    requires at { at ≤ length text.now }
    requires few { length fields.now ≤ 4 }
    requires fits { length text.now ≤ longest_text }
    requires room { HasRoom (length text.now - at + length fields.now * longest_field + longest_text + longest_field + 1) buffer.old }
    ensures out { AppendsOut (IsOutOf filter.now text.now
        (fields_from field text.now at fields.now).texts (fields_from field text.now at fields.now).rest result.1)
        result.0 buffer.old buffer.new }
    ensures short { length buffer.new
        ≤ length buffer.old + (length text.now - at) + length fields.now * longest_field }
{
    let [next, others @ ..] = fields else {
        buffer.push(&text[at..]);
        return (true, None);
    };
    let start = buffer.len();
    let (piece, end) = field_piece(field.with_numbers(next.numbers), next.rank, text, at);
    let (goes_out, why) = push_piece(buffer, filter, text, &piece);
    let (goes_on, later) = push_fields_from(buffer, filter, field, others, text, end);
    let both = goes_out && goes_on;
    keep(buffer, start, both);
    (both, earlier(next.rank, why, later))
}

/// Returns the reason whose option comes first.
fn earlier(rank: u8, own: Option<NoAnswer>, later: Option<(u8, NoAnswer)>) -> Option<(u8, NoAnswer)>
    ensures { result ≡ earlier rank own later }
{
    match (own, later) {
        (None, _) => later,
        (Some(_), Some(other)) if other.0 < rank => later,
        (Some(why), _) => Some((rank, why)),
    }
}

/// Appends what goes out for a piece, if anything does, and returns whether it does, and why its
/// text has no answer.
fn push_piece(
    buffer: &mut Buffer,
    filter: &Filter<'_>,
    text: &[u8],
    piece: &Piece<'_>,
) -> (bool, Option<NoAnswer>)
    requires fits { length text.now ≤ longest_text }
    requires room { HasRoom (length piece.now.kept + length piece.now.source + longest_text + longest_field + 1) buffer.old }
    ensures out { AppendsOut (IsPieceOut filter.now text.now piece.now result.1) result.0 buffer.old buffer.new }
    ensures short { length buffer.new
        ≤ length buffer.old + length piece.now.kept + length piece.now.source + longest_field }
{
    let start = buffer.len();
    piece.push_kept(buffer);
    let (goes_out, why) = push_text(buffer, filter, text, piece);
    keep(buffer, start, goes_out);
    (goes_out, why)
}

/// Keeps only the bytes up to an index if nothing goes out.
fn keep(buffer: &mut Buffer, start: usize, goes_out: bool)
    requires { start ≤ length buffer.old }
    ensures { buffer.new ≡ (if goes_out then buffer.old else take start buffer.old) }
{
    if !goes_out {
        buffer.truncate(start);
    }
}

/// Appends what replaces the text of a piece.
fn push_text(
    buffer: &mut Buffer,
    filter: &Filter<'_>,
    text: &[u8],
    piece: &Piece<'_>,
) -> (bool, Option<NoAnswer>)
    requires fits { length text.now ≤ longest_text }
    requires room { HasRoom (length piece.now.source + longest_text + longest_field + 1) buffer.old }
    ensures out { AppendsOut (λ out. (answer : Answer) × IsAnswerToAsked filter.now text.now piece.now.asked answer
        × (result.1 ≡ result_err answer) × (out ≡ replaced filter.now piece.now.source (is_ok piece.now.asked) answer))
        result.0 buffer.old buffer.new }
    ensures short { length buffer.new ≤ length buffer.old + length piece.now.source + longest_field }
{
    match piece.plain() {
        Some(asked) => push_asked(buffer, filter, text, piece.source(), asked),
        None => push_unquoted(buffer, filter, text, piece),
    }
}

/// Appends what replaces the text of a field that isn't in the line as it is, or is missing.
#[inline(never)]
fn push_unquoted(
    buffer: &mut Buffer,
    filter: &Filter<'_>,
    text: &[u8],
    piece: &Piece<'_>,
) -> (bool, Option<NoAnswer>)
    requires fits { length text.now ≤ longest_text }
    requires room { HasRoom (length piece.now.source + longest_text + longest_field + 1) buffer.old }
    ensures out { AppendsOut (λ out. (answer : Answer) × IsAnswerToAsked filter.now text.now piece.now.asked answer
        × (result.1 ≡ result_err answer) × (out ≡ replaced filter.now piece.now.source (is_ok piece.now.asked) answer))
        result.0 buffer.old buffer.new }
    ensures short { length buffer.new ≤ length buffer.old + length piece.now.source + longest_field }
{
    match piece.text() {
        Ok(asked) => push_asked(buffer, filter, text, piece.source(), asked.as_bytes()),
        Err(missing) => {
            let why = NoAnswer::NoField(missing);
            let goes_out = push_instead(buffer, filter, piece.source(), false, why);
            (goes_out, Some(why))
        }
    }
}

/// Appends what replaces a string that the line has.
fn push_asked(
    buffer: &mut Buffer,
    filter: &Filter<'_>,
    text: &[u8],
    source: &[u8],
    asked: &[u8],
) -> (bool, Option<NoAnswer>)
    requires fits { length text.now ≤ longest_text }
    requires few { length asked.now ≤ longest_text }
    requires room { HasRoom (length source.now + longest_text + longest_field + 1) buffer.old }
    ensures out { AppendsOut (λ out. (answer : Answer) × IsAnswerToAsked filter.now text.now (Ok asked.now) answer
        × (result.1 ≡ result_err answer) × (out ≡ replaced filter.now source.now true answer))
        result.0 buffer.old buffer.new }
    ensures short { length buffer.new ≤ length buffer.old + length source.now + longest_field }
{
    let start = buffer.len();
    let quoted = open_words(buffer, filter.field, source);
    let words = buffer.len();
    match push_answer_at(buffer, filter, text, asked) {
        Ok(true) if filter.request.keeps() => {
            buffer.truncate(start);
            buffer.push(source);
            (true, None)
        }
        Ok(true) => {
            close_words(buffer, words, filter.field, quoted);
            (true, None)
        }
        Ok(false) => {
            buffer.truncate(start);
            (false, None)
        }
        Err(why) => {
            buffer.truncate(start);
            let goes_out = push_instead(buffer, filter, source, true, why);
            (goes_out, Some(why))
        }
    }
}

/// Appends what goes out in place of an answer, and returns whether anything does. `has_text` says
/// whether the line has the string.
fn push_instead(
    buffer: &mut Buffer,
    filter: &Filter<'_>,
    source: &[u8],
    has_text: bool,
    why: NoAnswer,
) -> bool
    requires { HasRoom (length source.now + longest_field + longest_field) buffer.old }
    ensures text { buffer.new ≡ buffer.old ++ unwrap_or (replaced filter.now source.now has_text (Err why)) [] }
    ensures goes_out { result ≡ is_some (replaced filter.now source.now has_text (Err why)) }
    ensures short { length buffer.new ≤ length buffer.old + length source.now + longest_field }
{
    match filter.on_invalid {
        OnInvalid::Keep => {
            buffer.push(source);
            true
        }
        OnInvalid::Answer => {
            push_reason_instead(buffer, filter.field, source, has_text, why);
            true
        }
        OnInvalid::Drop | OnInvalid::Stop => false,
    }
}

/// Appends the reason in place of a string, if it has a place.
fn push_reason_instead(
    buffer: &mut Buffer,
    field: Option<Field>,
    source: &[u8],
    has_text: bool,
    why: NoAnswer,
)
    requires { HasRoom (length source.now + longest_field + longest_field) buffer.old }
    ensures text { buffer.new ≡ buffer.old
        ++ (if has_place field has_text then placed field source.now (reason why) else source.now) }
    ensures short { length buffer.new ≤ length buffer.old + length source.now + longest_field }
{
    if !has_place(field, has_text) {
        buffer.push(source);
        return;
    }
    let quoted = open_words(buffer, field, source);
    let words = buffer.len();
    push_reason(buffer, why);
    close_words(buffer, words, field, quoted);
}

/// Returns whether a string has a place. A missing field has one only as a new field.
fn has_place(field: Option<Field>, has_text: bool) -> bool
    ensures { result ≡ has_place field has_text }
{
    match field {
        Some(field) => has_text || field.appends,
        None => has_text,
    }
}

/// Appends the quote before the words that replace a string, and returns whether there is one.
#[inline(always)]
fn open_words(buffer: &mut Buffer, field: Option<Field>, source: &[u8]) -> bool
    requires { HasRoom 1 buffer.old }
    ensures quoted { result ≡ is_quoted_in field source.now }
    ensures text { buffer.new ≡ buffer.old ++ (if result then 34 ∷ [] else []) }
    ensures csv { IsTrue result → IfSome field (λ field. field.csv ≡ true) }
{
    let quoted = match field {
        Some(field) => is_quoted(field, source),
        None => false,
    };
    push_quote(buffer, quoted);
    quoted
}

/// Ends the words that replace a string and begin at an index.
#[inline(always)]
fn close_words(buffer: &mut Buffer, start: usize, field: Option<Field>, quoted: bool)
    requires start { start ≤ length buffer.old }
    requires few { length buffer.old ≤ start + longest_answer }
    requires room { HasRoom (longest_field + 1) buffer.old }
    requires csv { IsTrue quoted → IfSome field (λ field. field.csv ≡ true) }
    ensures text { buffer.new ≡ take start buffer.old ++ closed_words field quoted (drop start buffer.old) }
    ensures short { length buffer.new < start + longest_field }
{
    if let Some(field) = field {
        end_field(buffer, start, field, quoted);
    }
}
