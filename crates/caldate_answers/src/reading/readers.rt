//! The forms that a line is read in.
ghost use Rattle.std.specs.Prelude.{◌≡◌, ◌↔◌, ◌+◌, ◌<◌, ◌≤◌, ◌++◌, ◌∷◌, [], IfErr, IfOk, IsTrue, Err, Ok, length, set, take};
ghost use Rattle.cal_text.specs.declared.any.DateOrMoment.{DateOrMoment};
ghost use Rattle.caldate_answers.specs.Readers.{IsFoundBy, IsUnread, first_reason, has_form};
ghost use Rattle.caldate_lines.specs.declared.no_answer.NoAnswer.{NoAnswer};

use crate::reading::reader::{Assumptions, Reader};
use cal_text::DateOrMoment;
use caldate_lines::no_answer::NoAnswer;
use std::marker::Model;

/// The maximum number of forms.
const MAX_READERS: usize = 12;

/// A list of up to twelve forms. A string is read in the first that it has.
#[derive(Drop)]
pub struct Readers {
    items: [Reader; MAX_READERS],
    count: usize,
}

impl Model for Readers {
    ghost use Rattle.std.specs.Prelude.{◌≡◌, ◌≤◌, List, length, take};
    ghost use Rattle.caldate_answers.specs.declared.reading.reader.Reader.{Reader};

    ghost Value = { List Reader };

    ghost view = { λ readers. take readers.count readers.items };

    ghost invariant = { λ readers. (readers.count ≤ 12) × (length readers.items ≡ 12) };
}

impl Readers {
    /// Creates an empty list.
    pub fn new() -> Self
        ensures { result ≡ [] }
    {
        Readers {
            items: [
                Reader::Local,
                Reader::Local,
                Reader::Local,
                Reader::Local,
                Reader::Local,
                Reader::Local,
                Reader::Local,
                Reader::Local,
                Reader::Local,
                Reader::Local,
                Reader::Local,
                Reader::Local,
            ],
            count: 0,
        }
    }

    /// Appends a form and returns `true`, or returns `false` if there are twelve.
    pub fn try_push(&mut self, reader: Reader) -> bool
        ensures room { IsTrue result ↔ (length self.old < 12) }
        ensures value { IsTrue result → self.new ≡ self.old ++ reader ∷ [] }
        ensures full { ¬ IsTrue result → self.new ≡ self.old }
    {
        if self.as_slice().len() >= MAX_READERS {
            return false;
        }
        let count = self.count;
        put(&mut self.items, count, reader);
        self.count = count + 1;
        true
    }

    /// Replaces the form at an index, if there is one.
    pub fn set(&mut self, index: usize, reader: Reader)
        ensures { self.new ≡ set self.old index reader }
    {
        if index < self.count {
            put(&mut self.items, index, reader);
        }
    }

    /// Returns the forms.
    #[inline(always)]
    pub fn as_slice(&self) -> &[Reader]
        ensures { result.now ≡ self.now }
    {
        &self.items[..self.count]
    }
}

/// Replaces the form at an index.
fn put(items: &mut [Reader; MAX_READERS], index: usize, reader: Reader)
    requires { index < 12 }
    ensures value { items.new ≡ set items.old index reader }
    ensures front { take (index + 1) items.new ≡ take index items.old ++ reader ∷ [] }
{
    items[index] = reader;
}

/// Parses a string in the first form that it has, or returns why it has none.
#[inline(always)]
#[cycle(read)]
pub fn read(
    readers: &[Reader],
    assumptions: &Assumptions,
    text: &[u8],
) -> Result<DateOrMoment, NoAnswer>
    ensures every { (found : DateOrMoment) → IsFoundBy assumptions.now readers.now text.now found
        → result ≡ Ok found }
    ensures has { IfOk result (IsFoundBy assumptions.now readers.now text.now) }
    ensures every_error { (why : NoAnswer) → IsUnread assumptions.now readers.now text.now why
        → result ≡ Err why }
    ensures error { IfErr result (IsUnread assumptions.now readers.now text.now) }
{
    match readers {
        [] => Err(NoAnswer::NoForm),
        [first, others @ ..] => match first.read(assumptions, text) {
            Ok(found) => Ok(found),
            Err(own) => match read_by(others, assumptions, text) {
                Ok(found) => Ok(found),
                Err(later) => Err(first_reason(own, later)),
            },
        },
    }
}

/// Does the same for the other forms, which most runs lack.
#[inline(never)]
#[cycle(read)]
fn read_by(
    readers: &[Reader],
    assumptions: &Assumptions,
    text: &[u8],
) -> Result<DateOrMoment, NoAnswer>
    ensures every { (found : DateOrMoment) → IsFoundBy assumptions.now readers.now text.now found
        → result ≡ Ok found }
    ensures has { IfOk result (IsFoundBy assumptions.now readers.now text.now) }
    ensures every_error { (why : NoAnswer) → IsUnread assumptions.now readers.now text.now why
        → result ≡ Err why }
    ensures error { IfErr result (IsUnread assumptions.now readers.now text.now) }
{
    read(readers, assumptions, text)
}

/// Returns the reason of a form that a string has, or else the first.
pub fn first_reason(own: NoAnswer, later: NoAnswer) -> NoAnswer
    ensures { result ≡ first_reason own later }
{
    if has_form(own) {
        own
    } else if has_form(later) {
        later
    } else {
        own
    }
}

/// Returns whether bytes without an answer for this reason have one of the forms.
pub fn has_form(why: NoAnswer) -> bool
    ensures { result ≡ has_form why }
{
    match why {
        NoAnswer::NoForm | NoAnswer::Unreadable(_) => false,
        _ => true,
    }
}
