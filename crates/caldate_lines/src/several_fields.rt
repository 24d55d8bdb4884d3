//! Several fields to answer.
ghost use Rattle.std.specs.Prelude.{◌≡◌, ◌+◌, ◌<◌, ◌≤◌, ◌++◌, ◌∷◌, [], None, get_or, is_some, length, if◌then◌else◌};
ghost use Rattle.caldate_lines.specs.Fields.{inserted, inserted_if, overlap, overlap_after, renumber, renumbered};

use crate::field_names::MAX_FIELDS;
use crate::field_numbers::FieldNumbers;
use std::marker::Model;

/// One of several fields to answer.
#[derive(Clone, Copy)]
pub struct RankedField {
    /// Its numbers.
    pub numbers: FieldNumbers,
    /// Its index among the options.
    pub rank: u8,
}

/// A list of up to four fields, from the left.
#[derive(Drop)]
pub struct SeveralFields {
    items: [RankedField; MAX_FIELDS],
    count: usize,
}

impl Model for SeveralFields {
    ghost use Rattle.std.specs.Prelude.{◌≤◌, List, take};
    ghost use Rattle.caldate_lines.specs.declared.several_fields.RankedField.{RankedField};

    ghost Value = { List RankedField };

    ghost view = { λ fields. take fields.count fields.items };

    ghost invariant = { λ fields. fields.count ≤ 4 };
}

impl SeveralFields {
    /// Creates an empty list.
    pub fn new() -> Self
        ensures { result ≡ [] }
    {
        let unset = RankedField {
            numbers: FieldNumbers {
                first: 1,
                joined: 0,
            },
            rank: 0,
        };
        SeveralFields {
            items: [unset, unset, unset, unset],
            count: 0,
        }
    }

    fn push(&mut self, field: RankedField)
        requires { length self.old < 4 }
        ensures appended { self.new ≡ self.old ++ field ∷ [] }
        ensures longer { length self.new ≡ length self.old + 1 }
    {
        self.items[self.count] = field;
        self.count += 1;
    }

    /// Inserts a field before those that begin after it.
    pub fn insert(&mut self, field: RankedField)
        requires { length self.old < 4 }
        ensures { self.new ≡ inserted field self.old }
    {
        let mut list = SeveralFields::new();
        push_inserted(&mut list, self.as_slice(), Some(field));
        *self = list;
    }

    /// Returns the fields with their own of these numbers, each if it is given.
    pub fn renumbered(&self, numbers: &[Option<u16>]) -> Self
        ensures { result ≡ renumbered numbers.now self.now }
    {
        renumbered(self.as_slice(), numbers)
    }

    /// Returns whether a field begins before the one to its left ends.
    pub fn overlap(&self) -> bool
        ensures { result ≡ overlap self.now }
    {
        overlap_after(0, self.as_slice())
    }

    /// Returns the fields.
    #[inline(always)]
    pub fn as_slice(&self) -> &[RankedField]
        ensures value { result.now ≡ self.now }
        ensures few { length result.now ≤ 4 }
    {
        &self.items[..self.count]
    }
}

/// Appends the fields, with the other one before those that begin after it.
fn push_inserted(list: &mut SeveralFields, fields: &[RankedField], field: Option<RankedField>)
    requires { length list.old + length fields.now + (if is_some field then 1 else 0) ≤ 4 }
    ensures { list.new ≡ list.old ++ inserted_if field fields.now }
{
    match fields {
        [] => {
            if let Some(field) = field {
                list.push(field);
            }
        }
        [next, others @ ..] => match field {
            Some(field) if field.numbers.first < next.numbers.first => {
                list.push(field);
                list.push(*next);
                push_inserted(list, others, None);
            }
            _ => {
                list.push(*next);
                push_inserted(list, others, field);
            }
        },
    }
}

fn renumbered(fields: &[RankedField], numbers: &[Option<u16>]) -> SeveralFields
    requires { length fields.now ≤ 4 }
    ensures value { result ≡ renumbered numbers.now fields.now }
    ensures many { length result ≡ length fields.now }
{
    match fields {
        [] => SeveralFields::new(),
        [field, others @ ..] => {
            let mut list = renumbered(others, numbers);
            list.insert(renumber(*field, numbers));
            list
        }
    }
}

fn renumber(field: RankedField, numbers: &[Option<u16>]) -> RankedField
    ensures { result ≡ renumber numbers.now field }
{
    RankedField {
        numbers: FieldNumbers {
            first: number_at(numbers, field.rank).unwrap_or(field.numbers.first),
            ..field.numbers
        },
        ..field
    }
}

fn number_at(numbers: &[Option<u16>], index: u8) -> Option<u16>
    ensures { result ≡ get_or numbers.now index None }
{
    match numbers.get(usize::from(index)) {
        Some(number) => *number,
        None => None,
    }
}

fn overlap_after(end: u32, fields: &[RankedField]) -> bool
    ensures { result ≡ overlap_after end fields.now }
{
    match fields {
        [] => false,
        [field, others @ ..] => {
            let numbers = field.numbers;
            u32::from(numbers.first) <= end || overlap_after(end_of(numbers), others)
        }
    }
}

/// Returns the number of the last field.
fn end_of(numbers: FieldNumbers) -> u32
    ensures { result ≡ numbers.first + numbers.joined }
{
    u32::from(numbers.first) + u32::from(numbers.joined)
}
