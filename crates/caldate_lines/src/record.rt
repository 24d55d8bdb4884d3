//! Words that become fields of the records of RFC 4180.
ghost use Rattle.std.specs.Prelude.{◌≡◌, ◌+◌, ◌*◌, ◌<◌, ◌≤◌, ◌++◌, ◌∷◌, [], ℕ, List, Some, IsTrue, false, true, length, take, drop, if◌then◌else◌};
ghost use Rattle.caldate_lines.specs.Fields.{doubled, end_of_field, escaped, is_special, needs_quotes};
ghost use Rattle.caldate_lines.specs.Room.{HasRoom, longest_answer, longest_field};

use crate::field::Field;
use crate::output::buffer::Buffer;

/// The maximum length of an answer, in bytes.
pub const LONGEST_ANSWER: usize = 1000;

/// Appends the text and a separator.
pub fn push_separated(buffer: &mut Buffer, field: Field, text: &[u8])
    requires { HasRoom (length text.now + 1) buffer.old }
    ensures text { buffer.new ≡ buffer.old ++ (text.now ++ field.separator ∷ []) }
    ensures longer { length buffer.new ≡ length buffer.old + length text.now + 1 }
{
    buffer.push(text);
    buffer.push(&[field.separator]);
}

/// Appends a quote before a field that had one.
pub fn push_quote(buffer: &mut Buffer, quoted: bool)
    requires { HasRoom 1 buffer.old }
    ensures { buffer.new ≡ buffer.old ++ (if quoted then 34 ∷ [] else []) }
{
    if quoted {
        buffer.push(b"\"");
    }
}

/// Ends a field whose words begin at an index. A field that had no quotes gets both if it needs
/// them.
pub fn end_field(buffer: &mut Buffer, start: usize, field: Field, quoted: bool)
    requires start { start ≤ length buffer.old }
    requires few { length buffer.old ≤ start + longest_answer }
    requires room { HasRoom (longest_field + 1) buffer.old }
    requires csv { IsTrue quoted → field.csv ≡ true }
    ensures text { buffer.new ≡ take start buffer.old
        ++ end_of_field field quoted (drop start buffer.old) }
    ensures short { length buffer.new < start + longest_field }
{
    if field.csv && needs_quotes(field.separator, buffer.after(start)) {
        escape_from(buffer, start, quoted);
    }
    push_quote(buffer, quoted);
}

/// Doubles each quote in the bytes from an index on. Puts them in quotes if they aren't.
#[cold]
#[inline(never)]
fn escape_from(buffer: &mut Buffer, start: usize, quoted: bool)
    requires start { start ≤ length buffer.old }
    requires few { length buffer.old ≤ start + longest_answer }
    requires room { HasRoom longest_field buffer.old }
    ensures text { buffer.new ≡ take start buffer.old ++ escaped quoted (drop start buffer.old) }
    ensures short { length buffer.new + (if quoted then 1 else 0) < start + longest_field }
{
    let mut copy = [0u8; LONGEST_ANSWER];
    let count = buffer.len() - start;
    copy[..count].copy_from_slice(buffer.after(start));
    buffer.truncate(start);
    push_quote(buffer, !quoted);
    push_doubled(buffer, &copy[..count]);
    push_quote(buffer, !quoted);
}

/// Appends the words with each quote doubled.
fn push_doubled(buffer: &mut Buffer, words: &[u8])
    requires { HasRoom (length words.now * 2) buffer.old }
    ensures text { buffer.new ≡ buffer.old ++ doubled words.now }
    ensures short { length buffer.new ≤ length buffer.old + length words.now * 2 }
{
    let mut rest = words;
    while let [first, others @ ..] = rest {
        push_quote(buffer, *first == b'"');
        buffer.push(&[*first]);
        rest = others;
    }
}

/// Returns whether a field with these words must be in quotes.
fn needs_quotes(separator: u8, words: &[u8]) -> bool
    ensures { result ≡ needs_quotes separator words.now }
{
    let mut rest = words;
    while let [first, others @ ..] = rest {
        if is_special(separator, *first) {
            return true;
        }
        rest = others;
    }
    false
}

fn is_special(separator: u8, byte: u8) -> bool
    ensures { result ≡ is_special separator byte }
{
    byte == separator || byte == b'"' || byte == b'\n' || byte == b'\r'
}
