//! Parsing: the numbers of a text, and the moment that they determine.
ghost use Rattle.std.specs.Prelude.{◌≡◌, ℕ, ◌<◌, ◌≤◌, length, Ok, Some, IsTrue, IfOk, IfErr, IfNone, IfSome, not, pos, if◌then◌else◌};
ghost use Rattle.cal_time.specs.Date.{IsDate};
ghost use Rattle.cal_time.specs.Time.{IsTime};
ghost use Rattle.cal_time.specs.UtcOffset.{IsOffset};
ghost use Rattle.cal_format.specs.declared.error.ParseError.TheVariants.{UnexpectedByte, UnexpectedEnd};
ghost use Rattle.cal_format.specs.declared.item.Component.{Component};
ghost use Rattle.cal_format.specs.declared.moment.Moment.{Moment};
ghost use Rattle.cal_text.specs.Position.{IsPosition};
ghost use Rattle.cal_format.specs.Form.{AreNumbers, HasForm, numbered_text, numbers_of};
ghost use Rattle.cal_format.specs.Ranges.{maximum};
ghost use Rattle.cal_format.specs.Reading.{are_apart, shows_time, shows_offset, shows_timestamp};
ghost use Rattle.cal_format.specs.Rejection.{IsRejection, IsNumberRejection, IsParsed};
ghost use Rattle.cal_format.specs.Scanning.{number_at};
ghost use Rattle.cal_format.specs.Text.{text_of};
ghost use Rattle.cal_format.specs.Values.{Holds, IsPrinted, time_in, offset_in, IsDateOf, value_error, IsMomentOf, item_contradiction, first_contradiction};

use crate::date_parts::{date_of, value_error};
use crate::determines::{shows_date, shows_offset, shows_time, shows_timestamp};
use crate::error::ParseError;
use crate::fields::Fields;
use crate::form::{scan_form, scan_items};
use crate::format::Format;
use crate::item::{Component, Item};
use crate::moment::Moment;
use crate::offset_parts::offset_of;
use crate::one_pass::parse_once;
use crate::print::sign_of;
use crate::ranges::first_range_error;
use crate::time_parts::{nanosecond_of, time_of};
use crate::timestamp::moment_at;
use crate::value::first_date;
use cal_text::Scanner;
use cal_time::error::{Component as Named, ComponentRange};
use cal_time::{Date, Time, UtcOffset};

impl Format {
    /// Returns the position at which a text stops matching the form of the format, or `None` if it
    /// has the form, whatever its numbers are. For `%F`, `2024-99-99` has the form, and
    /// `2024-2-29` gives 6.
    pub fn first_mismatch(&self, text: &[u8]) -> Option<usize>
        ensures form { IfNone result (HasForm self.now text.now) }
        ensures other { IfSome result (λ _. ¬ HasForm self.now text.now) }
        ensures position { IfSome result (IsPosition (HasForm self.now) text.now) }
    {
        let mut scanner = Scanner { rest: text };
        match scan_form(self.items(), &mut scanner) {
            Some(()) => None,
            None => Some(text.len() - scanner.rest.len()),
        }
    }

    /// Parses a text. Returns the moment that the format holds and prints as this text, or why
    /// there is none.
    pub(crate) fn parse(&self, text: &[u8]) -> Result<Moment, ParseError>
        requires { IsTrue (are_apart self.now) }
        ensures { IsParsed self.now text.now result }
    {
        match parse_once(self, text) {
            Some(moment) => Ok(moment),
            None => parse_in_steps(self, text),
        }
    }
}

/// Parses a text like `Format::parse`: first its numbers, then their ranges, the moment and its
/// contradictions. This finds the error of a text that `parse_once` rejects.
#[cold]
fn parse_in_steps(items: &Format, text: &[u8]) -> Result<Moment, ParseError>
    requires apart { IsTrue (are_apart items.now) }
    ensures every { (v : Moment) → Holds items.now v → text.now ≡ text_of items.now v
        → result ≡ Ok v }
    ensures value { IfOk result (λ v. IsPrinted items.now v text.now) }
    ensures error { IfErr result (IsRejection items.now text.now) }
{
    let mut buffer = [0u64; 64];
    let numbers = &mut buffer[..items.items().len()];
    let mut scanner = Scanner { rest: text };
    match scan_items(items.items(), &mut scanner, numbers, 0) {
        Some(()) => moment_of_numbers(items, numbers),
        None => Err(unexpected(text.len() - scanner.rest.len(), text.len())),
    }
}

pub(crate) fn unexpected(position: usize, length: usize) -> ParseError
    requires { position ≤ length }
    ensures byte { position < length → result ≡ UnexpectedByte position }
    ensures end { position ≡ length → result ≡ UnexpectedEnd position }
{
    if position < length {
        ParseError::UnexpectedByte(position)
    } else {
        ParseError::UnexpectedEnd(position)
    }
}

/// Returns the moment with these numbers, or why there is none.
pub(crate) fn moment_of_numbers(format: &Format, numbers: &[u64]) -> Result<Moment, ParseError>
    requires fit { AreNumbers format.now numbers.now }
    ensures every { (v : Moment) → Holds format.now v → numbers.now ≡ numbers_of format.now v
        → result ≡ Ok v }
    ensures value { IfOk result (λ v.
        IsPrinted format.now v (numbered_text format.now numbers.now)) }
    ensures error { IfErr result (IsNumberRejection format.now numbers.now) }
{
    let items = format.items();
    if let Some(error) = first_range_error(items, numbers) {
        return Err(ParseError::OutOfRange(error));
    }
    let mut fields = Fields::new();
    fields.fill(items, numbers);
    match moment_of(format, &fields) {
        Ok(moment) => match first_contradiction(items, numbers, &moment) {
            Some(component) => Err(ParseError::Contradiction(component)),
            None => Ok(moment),
        },
        Err(error) => Err(ParseError::OutOfRange(error)),
    }
}

/// Returns the component of the first item whose number isn't the number of the moment.
fn first_contradiction(items: &[Item], numbers: &[u64], moment: &Moment) -> Option<Named>
    ensures { result ≡ first_contradiction items.now numbers.now moment.now }
{
    match items {
        [] => None,
        [item, others @ ..] => match numbers {
            [] => None,
            [number, rest @ ..] => match item.contradiction(*number, moment) {
                Some(component) => Some(component),
                None => first_contradiction(others, rest, moment),
            },
        },
    }
}

impl Item {
    /// Returns the component of the item if this number isn't its number of the moment.
    pub(crate) fn contradiction(self, number: u64, moment: &Moment) -> Option<Named>
        ensures { result ≡ item_contradiction self number moment.now }
    {
        let component = self.component()?;
        if moment.number(component) == number && sign_of(component, moment).is_empty() {
            None
        } else {
            Some(component.named())
        }
    }
}

/// Returns the moment with the numbers of the fields, or the error of numbers that no moment has.
fn moment_of(items: &Format, fields: &Fields) -> Result<Moment, ComponentRange>
    requires { (c : Component) → number_at c fields.now ≤ maximum c }
    ensures every { (v : Moment) → IsMomentOf items.now (λ c. number_at c fields.now) v
        → result ≡ Ok v }
    ensures value { IfOk result (IsMomentOf items.now (λ c. number_at c fields.now)) }
    ensures error { IfErr result (λ why. (why ≡ value_error items.now) × ((v : Moment)
        → ¬ IsMomentOf items.now (λ c. number_at c fields.now) v)) }
{
    match find_moment(items, fields) {
        Some(moment) => Ok(moment),
        None => Err(value_error(items)),
    }
}

pub(crate) fn find_moment(items: &Format, fields: &Fields) -> Option<Moment>
    requires { (c : Component) → number_at c fields.now ≤ maximum c }
    ensures every { (v : Moment) → IsMomentOf items.now (λ c. number_at c fields.now) v
        → result ≡ Some v }
    ensures value { IfSome result (IsMomentOf items.now (λ c. number_at c fields.now)) }
{
    let offset = offset_of_numbers(items, fields);
    if shows_timestamp(items) {
        let sign = fields.get(Component::TimestampSign);
        let seconds = fields.get(Component::Timestamp);
        return moment_at(sign, seconds, nanosecond_of(items, fields), offset);
    }
    let date = date_of_numbers(items, fields)?;
    let time = time_of_numbers(items, fields);
    Some(Moment { date, time, offset })
}

/// Returns the date of the numbers, or the first date of the range if the items determine none.
fn date_of_numbers(items: &Format, fields: &Fields) -> Option<Date>
    requires { (c : Component) → number_at c fields.now ≤ maximum c }
    ensures every { (n : ℕ) → IsDate n → IsDateOf items.now (λ c. number_at c fields.now) n
        → result ≡ Some n }
    ensures range { IfSome result IsDate }
    ensures value { IfSome result (IsDateOf items.now (λ c. number_at c fields.now)) }
{
    if !shows_date(items) {
        return Some(first_date());
    }
    date_of(items, fields)
}

/// Returns the time of day of the numbers, or midnight if the items determine none.
fn time_of_numbers(items: &Format, fields: &Fields) -> Time
    requires { (c : Component) → number_at c fields.now ≤ maximum c }
    ensures value { result ≡ (if shows_time items.now
        then time_in items.now (λ c. number_at c fields.now)
        else 0) }
    ensures range { IsTime result }
{
    if !shows_time(items) {
        return Time::MIDNIGHT;
    }
    time_of(items, fields)
}

/// Returns the offset of the numbers, or UTC if the items determine none.
fn offset_of_numbers(items: &Format, fields: &Fields) -> UtcOffset
    requires { (c : Component) → number_at c fields.now ≤ maximum c }
    ensures value { result ≡ (if shows_offset items.now
        then offset_in (λ c. number_at c fields.now)
        else pos 0) }
    ensures range { IsOffset result }
{
    if !shows_offset(items) {
        return UtcOffset::UTC;
    }
    offset_of(fields)
}
