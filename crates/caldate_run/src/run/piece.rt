//! Pieces of a line.
ghost use Rattle.std.specs.Prelude.{◌≡◌, ◌+◌, ◌≤◌, ◌++◌, IfOk, IfSome, Ok, length, ok_or};
ghost use Rattle.std.specs.Result.{result_map_both};
ghost use Rattle.caldate_lines.specs.Fields.{cut_of, field_text, missing_field, selected_text};
ghost use Rattle.caldate_lines.specs.Room.{HasRoom, longest_text};
ghost use Rattle.caldate_run.specs.Pieces.{field_end, field_piece, later_cut, missing, new_field, whole};

use caldate_lines::field::Field;
use caldate_lines::input::field_text::{FieldText, plain_text};
use caldate_lines::input::fields::{cut_field, missing_field};
use caldate_lines::missing_field::MissingField;
use caldate_lines::output::buffer::Buffer;
use std::marker::Model;

/// Bytes that stay, perhaps with a separator, and then the bytes that the answer to a string
/// replaces.
#[derive(Drop)]
pub struct Piece<'a> {
    kept: &'a [u8],
    separator: Option<u8>,
    source: &'a [u8],
    part: Result<&'a [u8], MissingField>,
    csv: bool,
    rank: u8,
}

impl<'a> Model for Piece<'a> {
    ghost use Rattle.std.specs.Prelude.{◌≤◌, ◌++◌, IfOk, length, option_to_list};
    ghost use Rattle.std.specs.Result.{result_map_both};
    ghost use Rattle.caldate_lines.specs.Fields.{field_text};
    ghost use Rattle.caldate_run.specs.Pieces.{Piece as TextPiece};
    ghost use Rattle.caldate_lines.specs.Room.{longest_text};

    ghost Value = { TextPiece };

    ghost view = { λ piece. record {
      kept = piece.kept.now ++ option_to_list piece.separator;
      source = piece.source.now;
      asked = result_map_both (λ part. field_text piece.csv part.now) (λ missing. missing) piece.part;
      rank = piece.rank;
    } };

    ghost invariant = { λ piece. IfOk piece.part (λ part. length part.now ≤ longest_text) };
}

impl<'a> Piece<'a> {
    /// Appends the bytes that stay.
    pub fn push_kept(&self, buffer: &mut Buffer)
        requires { HasRoom (length self.now.kept) buffer.old }
        ensures { buffer.new ≡ buffer.old ++ self.now.kept }
    {
        buffer.push(self.kept);
        if let Some(separator) = self.separator {
            buffer.push(&[separator]);
        }
    }

    /// Returns the bytes that the answer replaces.
    pub fn source(&self) -> &[u8]
        ensures { result.now ≡ self.now.source }
    {
        self.source
    }

    /// Returns the string if the bytes of the line have it as it is.
    #[inline(always)]
    pub fn plain(&self) -> Option<&[u8]>
        ensures text { IfSome result (λ text. self.now.asked ≡ Ok text.now) }
        ensures few { IfSome result (λ text. length text.now ≤ longest_text) }
    {
        match self.part {
            Ok(part) => plain_text(self.csv, part),
            Err(_) => None,
        }
    }

    /// Returns the string, or what the line lacks.
    pub fn text(&self) -> Result<FieldText, MissingField>
        ensures { result ≡ self.now.asked }
    {
        match self.part {
            Ok(part) => Ok(FieldText::new(self.csv, part)),
            Err(missing) => Err(missing),
        }
    }
}

/// Cuts a line that is one text.
pub fn whole(text: &[u8]) -> Piece<'_>
    requires { length text.now ≤ longest_text }
    ensures { result ≡ whole text.now }
{
    Piece {
        kept: b"",
        separator: None,
        source: text,
        part: Ok(text),
        csv: false,
        rank: 0,
    }
}

/// Cuts a line that gets the answer to its field as a new field.
pub fn new_field(field: Field, text: &[u8]) -> Piece<'_>
    requires { length text.now ≤ longest_text }
    ensures { result ≡ new_field field text.now }
{
    Piece {
        kept: text,
        separator: Some(field.separator),
        source: b"",
        part: part_of(field, text),
        csv: field.csv,
        rank: 0,
    }
}

/// Returns the field, or what the line lacks.
fn part_of(field: Field, text: &[u8]) -> Result<&[u8], MissingField>
    requires { length text.now ≤ longest_text }
    ensures part { result_map_both (λ part. field_text field.csv part.now) (λ missing. missing) result
        ≡ ok_or (selected_text field text.now) (missing_field field text.now) }
    ensures fits { IfOk result (λ part. length part.now ≤ length text.now) }
{
    match cut_field(field, text) {
        Some((_front, part, _rest)) => Ok(part),
        None => Err(missing_field(field, text)),
    }
}

/// Cuts a field off a line, after its first `at` bytes, and returns where the field ends.
pub fn field_piece(field: Field, rank: u8, text: &[u8], at: usize) -> (Piece<'_>, usize)
    requires at { at ≤ length text.now }
    requires fits { length text.now ≤ longest_text }
    ensures piece { result.0 ≡ field_piece field text.now rank at (later_cut at (cut_of field text.now)) }
    ensures end { result.1 ≡ field_end at (later_cut at (cut_of field text.now)) }
    ensures within { result.1 ≤ length text.now }
    ensures short { length result.0.kept + length result.0.source + at ≤ result.1 }
{
    match cut_field(field, text) {
        Some((front, part, _rest)) if at <= front.len() => {
            let piece = Piece {
                kept: &front[at..],
                separator: None,
                source: part,
                part: Ok(part),
                csv: field.csv,
                rank,
            };
            (piece, front.len() + part.len())
        }
        _ => (missing(rank, missing_field(field, text)), at),
    }
}

/// Returns the piece of a field that the line lacks.
fn missing<'a>(rank: u8, field: MissingField) -> Piece<'a>
    ensures { result ≡ missing rank field }
{
    Piece {
        kept: b"",
        separator: None,
        source: b"",
        part: Err(field),
        csv: false,
        rank,
    }
}
