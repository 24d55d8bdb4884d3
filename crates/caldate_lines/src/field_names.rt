//! The names of the fields to answer.
ghost use Rattle.std.specs.Prelude.{◌≡◌, ◌<◌, Err, Ok, MatchResult, set};
ghost use Rattle.caldate_lines.specs.Fields.{no_names};
ghost use Rattle.caldate_lines.specs.Header.{number_in, numbers_of};

use crate::field::Field;
use crate::field_name::FieldName;
use crate::header::number_in;
use std::marker::Model;

/// The maximum number of fields.
pub const MAX_FIELDS: usize = 4;

/// The names of up to four fields, each if it is given by a name.
#[derive(Drop)]
pub struct FieldNames<'a> {
    first: Option<FieldName<'a>>,
    second: Option<FieldName<'a>>,
    third: Option<FieldName<'a>>,
    fourth: Option<FieldName<'a>>,
}

impl<'a> Model for FieldNames<'a> {
    ghost use Rattle.std.specs.Prelude.{ℕ, ◌∷◌, [], List, Option};

    ghost Value = { List (Option (List ℕ)) };

    ghost view = { λ names. names.first ∷ names.second ∷ names.third ∷ names.fourth ∷ [] };
}

impl<'a> FieldNames<'a> {
    /// Creates a list without names.
    pub fn new() -> Self
        ensures { result ≡ no_names }
    {
        FieldNames {
            first: None,
            second: None,
            third: None,
            fourth: None,
        }
    }

    /// Sets the name of the field with this index, counted from 0.
    pub fn set(&mut self, index: usize, name: Option<FieldName<'a>>)
        requires { index < 4 }
        ensures { self.new ≡ set self.old index name.entry }
    {
        match index {
            0 => self.first = name,
            1 => self.second = name,
            2 => self.third = name,
            _ => self.fourth = name,
        }
    }

    /// Returns whether any field has a name.
    pub fn any(&self) -> bool {
        self.first.is_some()
            || self.second.is_some()
            || self.third.is_some()
            || self.fourth.is_some()
    }

    /// Returns the number that the header gives each name, or the first name that it lacks.
    pub fn numbers_in(
        &self,
        field: Field,
        header: &[u8],
    ) -> Result<[Option<u16>; MAX_FIELDS], &[u8]>
        ensures { MatchResult result (λ numbers. numbers_of field header.now self.now ≡ Ok numbers)
            (λ name. numbers_of field header.now self.now ≡ Err name.now) }
    {
        let first = own_number(field, header, &self.first)?;
        let second = own_number(field, header, &self.second)?;
        let third = own_number(field, header, &self.third)?;
        let fourth = own_number(field, header, &self.fourth)?;
        Ok([first, second, third, fourth])
    }
}

/// Returns the number that the header gives the name, if there is one, or the name if the header
/// lacks it.
fn own_number<'a>(
    field: Field,
    header: &[u8],
    name: &'a Option<FieldName<'_>>,
) -> Result<Option<u16>, &'a [u8]>
    ensures { MatchResult result (λ own. number_in field header.now name.now ≡ Ok own)
        (λ lacking. number_in field header.now name.now ≡ Err lacking.now) }
{
    match name {
        Some(name) => number_in(field, header, name.as_bytes()),
        None => Ok(None),
    }
}
