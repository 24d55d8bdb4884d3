//! The fields of a line.
ghost use Rattle.std.specs.Prelude.{◌≡◌, ◌+◌, ◌<◌, ◌≤◌, ◌++◌, ◌∷◌, [], Some, None, IfSome, IsTrue, MatchOption, drop, length, take};
ghost use Rattle.caldate_lines.specs.Fields.{HasFirst, IsAfter, cut_of, fields_of, is_quoted, missing_field, quotes_of};
ghost use Rattle.caldate_lines.specs.Room.{longest_text};

use crate::field::Field;
use crate::lines::part_end;
use crate::missing_field::MissingField;
use crate::quoting::Quoting;

/// Returns the bytes before the fields, the fields and the bytes after them, if the text has them.
/// Field 2 of `a,2024-02-29,c`, split at commas, has `a,` before it and `,c` after it.
#[inline(always)]
pub fn cut_field(field: Field, text: &[u8]) -> Option<(&[u8], &[u8], &[u8])>
    ensures cut { MatchOption result (cut_of field text.now ≡ None)
        (λ parts. cut_of field text.now
        ≡ Some (record { front = parts.0.now; part = parts.1.now; rest = parts.2.now })) }
    ensures whole { MatchOption result (length text.now ≡ length text.now)
        (λ parts. text.now ≡ parts.0.now ++ parts.1.now ++ parts.2.now) }
    ensures short { MatchOption result (length text.now ≡ length text.now)
        (λ parts. length parts.0.now + length parts.1.now + length parts.2.now
        ≤ length text.now) }
{
    let rest = after_fields(field, field.first.saturating_sub(1), text)?;
    let last = after_fields(field, field.joined, rest)?;
    let start = text.len() - rest.len();
    let end = text.len() - last.len() + first_length(field, last);
    Some((&text[..start], &text[start..end], &text[end..]))
}

/// Returns what a line lacks that doesn't have the fields.
#[cold]
#[inline(never)]
pub fn missing_field(field: Field, text: &[u8]) -> MissingField
    requires { length text.now ≤ longest_text }
    ensures { result ≡ missing_field field text.now }
{
    MissingField {
        number: u32::from(field.first.saturating_sub(1)) + u32::from(field.joined) + 1,
        count: count_fields(field, text),
    }
}

/// Returns the number of fields.
fn count_fields(field: Field, text: &[u8]) -> u32
    requires { length text.now ≤ longest_text }
    ensures { result ≡ length (fields_of field text.now) }
{
    let mut rest = text;
    let mut count = 1;
    while let Some((_, others)) = first_field(field, rest) {
        rest = others;
        count += 1;
    }
    count
}

/// Returns whether the field of a CSV record is in quotes.
pub fn is_quoted(field: Field, part: &[u8]) -> bool
    ensures value { result ≡ is_quoted field part.now }
    ensures long { IsTrue result → 2 ≤ length part.now }
{
    field.csv && part.len() >= 2 && part[0] == b'"' && part[part.len() - 1] == b'"'
}

/// Returns the bytes after this many fields and their separators, if more fields come.
#[inline(always)]
fn after_fields(field: Field, count: u16, text: &[u8]) -> Option<&[u8]>
    ensures after { MatchOption result (length (fields_of field text.now) ≤ count)
        (λ rest. IsAfter field count text.now rest.now) }
    ensures short { IfSome result (λ rest. length rest.now ≤ length text.now) }
{
    let mut rest = text;
    for _ in 0..count {
        let (_, after) = first_field(field, rest)?;
        rest = after;
    }
    Some(rest)
}

/// Splits off the first field and its separator, or returns `None` without a separator.
pub fn first_field(field: Field, bytes: &[u8]) -> Option<(&[u8], &[u8])>
    ensures fields { MatchOption result (fields_of field bytes.now ≡ bytes.now ∷ [])
        (λ parts. fields_of field bytes.now ≡ parts.0.now ∷ fields_of field parts.1.now) }
    ensures whole { MatchOption result (length bytes.now ≡ length bytes.now)
        (λ parts. bytes.now ≡ parts.0.now ++ field.separator ∷ parts.1.now) }
{
    let at = separator_index(field, bytes)?;
    Some((&bytes[..at], &bytes[at + 1..]))
}

/// Returns the length of the first field.
fn first_length(field: Field, bytes: &[u8]) -> usize
    ensures first { HasFirst field bytes.now result }
    ensures short { result ≤ length bytes.now }
{
    match separator_index(field, bytes) {
        Some(at) => at,
        None => bytes.len(),
    }
}

/// Returns the index of the separator after the first field.
#[inline(always)]
fn separator_index(field: Field, bytes: &[u8]) -> Option<usize>
    ensures { MatchOption result (fields_of field bytes.now ≡ bytes.now ∷ [])
        (λ at. (at < length bytes.now) × (fields_of field bytes.now
        ≡ take at bytes.now ∷ fields_of field (drop (at + 1) bytes.now))
        × (bytes.now ≡ take at bytes.now ++ field.separator ∷ drop (at + 1) bytes.now)) }
{
    let start = quotes_of(field);
    part_end(field.separator, field.separator, start, start, bytes)
}

/// Returns the state of the quotes at the start of a field.
#[inline(always)]
fn quotes_of(field: Field) -> Quoting
    ensures { result ≡ quotes_of field }
{
    if field.csv {
        Quoting::Ready
    } else {
        Quoting::Off
    }
}
