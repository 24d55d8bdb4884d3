//! The fields of a line to answer.
ghost use Rattle.std.specs.Prelude.{◌≡◌};
ghost use Rattle.caldate_lines.specs.Fields.{with_numbers};

use crate::field_numbers::FieldNumbers;

/// One field of a line, or neighbouring fields.
#[derive(Clone, Copy)]
pub struct Field {
    /// The number of the first field, counted from 1.
    pub first: u16,
    /// How many fields after the first one are joined to it.
    pub joined: u16,
    /// The byte between two fields.
    pub separator: u8,
    /// `true` if the line is a CSV record (RFC 4180): a separator within quotes ends no field.
    pub csv: bool,
    /// `true` if the answer becomes a new last field, and this field stays.
    pub appends: bool,
}

impl Field {
    /// Returns the same field with other numbers.
    pub fn with_numbers(self, numbers: FieldNumbers) -> Self
        ensures { result ≡ with_numbers self numbers }
    {
        Field {
            first: numbers.first,
            joined: numbers.joined,
            ..self
        }
    }
}
