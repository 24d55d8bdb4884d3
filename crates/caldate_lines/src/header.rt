//! Fields by their names in a header.
ghost use Rattle.std.specs.Prelude.{ℕ, List, true, ◌≡◌, ◌+◌, ◌<◌, ◌≤◌, ◌++◌, ◌∷◌, [], Err, Ok, Some, IsTrue, MatchResult, length};
ghost use Rattle.caldate_lines.specs.Calls.{Writes, write_failure};
ghost use Rattle.caldate_lines.specs.Fields.{fields_of};
ghost use Rattle.caldate_lines.specs.Header.{has_mark, has_name, header_of, name_number, number_in, number_of, without_mark};
ghost use Rattle.caldate_lines.specs.Room.{HasRoom, longest_text};
ghost use Rattle.caldate_lines.specs.Outputs.{WritesPage};

use crate::excerpt::push_quoted;
use crate::field::Field;
use crate::input::field_text::FieldText;
use crate::input::fields::first_field;
use crate::lines::{LONGEST_TEXT, cut_return, next_line};
use crate::output::buffer::Buffer;
use crate::output::write_all;
use crate::quoting::Quoting;
use crate::run_error::RunError;
use crate::streams::Sink;

/// Returns the text of the first line, which may not have its line feed.
pub fn header_of(field: Field, input: &[u8]) -> &[u8]
    ensures { result.now ≡ header_of field input.now }
{
    match next_line(Some(field), Quoting::Ready, input) {
        Some((line, _after)) => cut_return(line).0,
        None => cut_return(input).0,
    }
}

/// Returns the number of the first field of the header that has the name. A header of more than
/// 4096 bytes has no names.
pub(crate) fn number_of(field: Field, name: &[u8], header: &[u8]) -> Option<u16>
    ensures { result ≡ number_of field name.now header.now }
{
    if header.len() > LONGEST_TEXT {
        return None;
    }
    name_number(field, name, without_mark(header))
}

/// Returns the header without the byte order mark of UTF-8 at its front.
fn without_mark(header: &[u8]) -> &[u8]
    ensures value { result.now ≡ without_mark header.now }
    ensures few { length result.now ≤ length header.now }
{
    if has_mark(header) {
        &header[3..]
    } else {
        header
    }
}

/// Returns whether the bytes begin with a byte order mark.
fn has_mark(header: &[u8]) -> bool
    ensures value { result ≡ has_mark header.now }
    ensures room { result ≡ true → 3 ≤ length header.now }
{
    header.len() >= 3 && header[0] == 0xef && header[1] == 0xbb && header[2] == 0xbf
}

/// Returns the number that the header gives the name, or the name if the header lacks it.
pub fn number_in<'a>(field: Field, header: &[u8], name: &'a [u8]) -> Result<Option<u16>, &'a [u8]>
    ensures { MatchResult result (λ number. number_in field header.now (Some name.now) ≡ Ok number)
        (λ lacking. number_in field header.now (Some name.now) ≡ Err lacking.now) }
{
    match number_of(field, name, header) {
        Some(number) => Ok(Some(number)),
        None => Err(name),
    }
}

/// Returns the number of the first field that has the name, counted from 1.
#[inline(never)]
fn name_number(field: Field, name: &[u8], header: &[u8]) -> Option<u16>
    requires { length header.now ≤ longest_text }
    ensures { result ≡ name_number 1 field name.now (fields_of field header.now) }
{
    let mut rest = header;
    let mut number = 1;
    while let Some((part, others)) = first_field(field, rest) {
        if has_name(field, name, part) {
            return Some(number);
        }
        rest = others;
        number += 1;
    }
    if has_name(field, name, rest) {
        Some(number)
    } else {
        None
    }
}

/// Returns whether the field of a header has the name.
fn has_name(field: Field, name: &[u8], part: &[u8]) -> bool
    requires { length part.now ≤ longest_text }
    ensures { result ≡ has_name field name.now part.now }
{
    FieldText::new(field.csv, part).as_bytes() == name
}

/// Writes why the header gives the field no number, in one line.
// Not inlined, so that its buffers take no stack in a run.
#[inline(never)]
#[tactic(auto, using(crate::proofs::Calls::sent_all))]
pub fn report_header_error<W: Sink>(
    field: Field,
    name: &[u8],
    header: &[u8],
    writer: &mut W,
) -> Result<(), RunError>
    ensures words { (words : List ℕ) × (0 < length words)
        × WritesPage words result (W.contents writer.old) (W.contents writer.new) }
    ensures writes { Writes W.write_gives writer.old (write_failure result) writer.new }
{
    let mut words = Buffer::new();
    push_header_error(&mut words, field, name, header);
    write_all(writer, words.as_bytes())
}

/// Writes that fields overlap, in one line.
#[tactic(auto, using(crate::proofs::Calls::sent_all))]
pub fn report_overlap<W: Sink>(writer: &mut W) -> Result<(), RunError>
    ensures words { (words : List ℕ) × (0 < length words)
        × WritesPage words result (W.contents writer.old) (W.contents writer.new) }
    ensures writes { Writes W.write_gives writer.old (write_failure result) writer.new }
{
    write_all(writer, b"caldate: fields of --field can't overlap\n")
}

/// Appends the message, with the program's name and a line feed.
fn push_header_error(words: &mut Buffer, field: Field, name: &[u8], header: &[u8])
    requires { words.old ≡ [] }
    ensures short { length words.new ≤ 30_001 }
    ensures some { 0 < length words.new }
{
    words.push(b"caldate: ");
    push_header_problem(words, field, name, header);
    words.push(b"\n");
}

/// Appends the error and the names of the header.
fn push_header_problem(words: &mut Buffer, field: Field, name: &[u8], header: &[u8])
    requires { length words.old ≤ 9 }
    ensures short { length words.new ≤ 30_000 }
{
    if header.len() > LONGEST_TEXT {
        words.push(b"header too long; expected at most 4096 bytes");
        return;
    }
    words.push(b"unknown field name ");
    push_quoted(words, name);
    push_expected_names(words, field, header);
}

/// Appends the names of the header, if it has any.
fn push_expected_names(words: &mut Buffer, field: Field, header: &[u8])
    requires room { length words.old ≤ 200 }
    requires few { length header.now ≤ longest_text }
    ensures short { length words.new ≤ 30_000 }
{
    if header == b"".as_slice() {
        words.push(b"; the header is empty");
        return;
    }
    words.push(b"; expected ");
    push_names(words, field, without_mark(header));
}

/// Appends the names of the header, with commas between them.
fn push_names(words: &mut Buffer, field: Field, header: &[u8])
    requires room { length words.old ≤ 300 }
    requires few { length header.now ≤ longest_text }
    ensures short { length words.new ≤ 30_000 }
{
    let mut rest = header;
    while let Some((part, others)) = first_field(field, rest) {
        push_name(words, field, part);
        words.push(b", ");
        rest = others;
    }
    push_name(words, field, rest);
}

/// Appends the name of a field in quotes: its first 80 bytes, with `?` for each that doesn't print.
fn push_name(words: &mut Buffer, field: Field, part: &[u8])
    requires room { HasRoom 82 words.old }
    requires few { length part.now ≤ longest_text }
    ensures short { length words.new ≤ length words.old + length part.now + 2 }
{
    push_quoted(words, FieldText::new(field.csv, part).as_bytes());
}
