//! The texts of fields in quotes.
ghost use Rattle.std.specs.Prelude.{◌≡◌, ◌+◌, ◌≤◌, ◌++◌, [], IfSome, None, Some, false, length, option_map, slice_index, true};
ghost use Rattle.caldate_lines.specs.Fields.{field_text, is_quote, unquoted};
ghost use Rattle.caldate_lines.specs.Room.{longest_text};

use crate::lines::{LONGEST_TEXT, has_quote};
use std::marker::Model;

/// The text of a field, of at most 4096 bytes.
#[derive(Drop)]
pub struct FieldText {
    bytes: [u8; LONGEST_TEXT],
    count: usize,
}

impl Model for FieldText {
    ghost use Rattle.std.specs.Prelude.{ℕ, ◌≤◌, List, take};
    ghost use Rattle.caldate_lines.specs.Room.{longest_text};

    ghost Value = { List ℕ };

    ghost view = { λ text. take text.count text.bytes };

    ghost invariant = { λ text. text.count ≤ longest_text };
}

impl FieldText {
    /// Creates the text of a field. In a CSV record, `"a ""b"""` has the text `a "b"`.
    pub fn new(csv: bool, part: &[u8]) -> Self
        requires { length part.now ≤ longest_text }
        ensures { result ≡ field_text csv part.now }
    {
        let mut text = FieldText::empty();
        if csv && starts_with_quote(part) {
            if text.push_unquoted(&part[1..]) {
                return text;
            }
            text = FieldText::empty();
        }
        text.push(part);
        text
    }

    fn empty() -> Self
        ensures { result ≡ [] }
    {
        FieldText {
            bytes: [0; LONGEST_TEXT],
            count: 0,
        }
    }

    /// Returns the bytes.
    pub fn as_bytes(&self) -> &[u8]
        ensures value { result.now ≡ self.now }
        ensures few { length result.now ≤ longest_text }
    {
        &self.bytes[..self.count]
    }

    fn push(&mut self, bytes: &[u8])
        requires { length self.old + length bytes.now ≤ longest_text }
        ensures appended { self.new ≡ self.old ++ bytes.now }
        ensures longer { length self.new ≡ length self.old + length bytes.now }
    {
        let end = self.count + bytes.len();
        self.bytes[self.count..end].copy_from_slice(bytes);
        self.count = end;
    }

    /// Appends the text of a field after its first quote, or returns `false` if no quote closes it.
    fn push_unquoted(&mut self, bytes: &[u8]) -> bool
        requires { length self.old + length bytes.now ≤ longest_text }
        ensures some { result ≡ true
            → option_map (λ text. self.old ++ text) (unquoted bytes.now) ≡ Some self.new }
        ensures none { result ≡ false → unquoted bytes.now ≡ None }
    {
        let mut rest = bytes;
        while let [byte, others @ ..] = rest {
            if *byte != b'"' {
                self.push(&[*byte]);
                rest = others;
            } else if starts_with_quote(others) {
                self.push(b"\"");
                rest = &others[1..];
            } else {
                self.push(others);
                return true;
            }
        }
        false
    }
}

/// Returns the text of a field if it is in its bytes as it is.
#[inline(always)]
pub fn plain_text(csv: bool, part: &[u8]) -> Option<&[u8]>
    ensures text { IfSome result (λ text. text.now ≡ field_text csv part.now) }
    ensures short { IfSome result (λ text. length text.now ≤ length part.now) }
{
    if !csv || !starts_with_quote(part) {
        return Some(part);
    }
    let end = part.len() - 1;
    if end == 0 || part[end] != b'"' {
        return None;
    }
    if has_quote(&part[1..end]) {
        return None;
    }
    Some(&part[1..end])
}

fn starts_with_quote(bytes: &[u8]) -> bool
    ensures value { result ≡ is_quote (slice_index bytes.now 0) }
    ensures some { result ≡ true → 1 ≤ length bytes.now }
{
    match bytes {
        [b'"', ..] => true,
        _ => false,
    }
}
