//! Parsing in one pass.
ghost use Rattle.std.specs.Prelude.{◌≡◌, [], IsTrue, IfSome};
ghost use Rattle.cal_format.specs.declared.moment.Moment.{Moment};
ghost use Rattle.cal_format.specs.Reading.{are_apart, DeterminesDate, DeterminesTime, DeterminesDateTime};
ghost use Rattle.cal_format.specs.Scanning.{fields_of, HasFields, IsOneDate, IsOneTime, IsOnePair};
ghost use Rattle.cal_format.specs.Text.{text_of};
ghost use Rattle.cal_format.specs.Values.{Holds, IsPrinted, first_contradiction};

use crate::fields::Fields;
use crate::format::Format;
use crate::item::Item;
use crate::moment::Moment;
use crate::parsing::find_moment;
use cal_datetime::PlainDateTime;
use cal_text::Scanner;
use cal_time::error::Component as Named;
use cal_time::{Date, Time};

/// Parses a text in one pass. Returns the moment that the items hold and print as this text, or
/// `None` for another text, or if two items show the same component.
pub(crate) fn parse_once(items: &Format, text: &[u8]) -> Option<Moment>
    requires apart { IsTrue (are_apart items.now) }
    ensures every { (v : Moment) → Holds items.now v → text.now ≡ text_of items.now v
        → IfSome result (λ m. m ≡ v) }
    ensures value { IfSome result (λ v. IsPrinted items.now v text.now) }
{
    let mut fields = Fields::new();
    if !scan_whole(items.items(), text, &mut fields) {
        return None;
    }
    let moment = find_moment(items, &fields)?;
    match field_contradiction(items.items(), &fields, &moment) {
        None => Some(moment),
        Some(_) => None,
    }
}

/// Parses the text of a date in one pass. Returns `None` for another text, and if the items show
/// more of a date than its numbers and its weekday.
pub(crate) fn parse_date_once(items: &Format, text: &[u8]) -> Option<Date>
    requires { DeterminesDate items.now }
    ensures { IfSome result (λ n. IsOneDate items.now n text.now) }
{
    let mut fields = Fields::new();
    if !scan_whole(items.items(), text, &mut fields) {
        return None;
    }
    let date = fields.date()?;
    Some(date)
}

/// Parses the text of a time of day in one pass. Returns `None` for another text, and if the items
/// show a part of it by two numbers.
pub(crate) fn parse_time_once(items: &Format, text: &[u8]) -> Option<Time>
    requires { DeterminesTime items.now }
    ensures { IfSome result (λ t. IsOneTime items.now t text.now) }
{
    let mut fields = Fields::new();
    if !scan_whole(items.items(), text, &mut fields) {
        return None;
    }
    let time = fields.time()?;
    Some(time)
}

/// Parses the text of a date and a time of day in one pass, like `parse_date_once` and
/// `parse_time_once`.
pub(crate) fn parse_pair_once(items: &Format, text: &[u8]) -> Option<PlainDateTime>
    requires { DeterminesDateTime items.now }
    ensures { IfSome result (λ z. IsOnePair items.now z text.now) }
{
    let mut fields = Fields::new();
    if !scan_whole(items.items(), text, &mut fields) {
        return None;
    }
    let date = fields.date()?;
    let time = fields.time()?;
    Some(PlainDateTime::new(date, time))
}

/// Parses the items up to the end of a text, and sets the numbers of their components. Returns
/// `false` at a byte that doesn't fit, or at a number out of range.
fn scan_whole(items: &[Item], text: &[u8], fields: &mut Fields) -> bool
    ensures { IsTrue result → HasFields items.now fields.old fields.new text.now [] }
{
    let mut scanner = Scanner { rest: text };
    let mut left = items;
    while let [item, others @ ..] = left {
        if !fields.scan(*item, &mut scanner) {
            return false;
        }
        left = others;
    }
    scanner.rest.is_empty()
}

/// Returns the component of the first item whose number in the fields isn't the number of the
/// moment.
fn field_contradiction(items: &[Item], fields: &Fields, moment: &Moment) -> Option<Named>
    ensures { result ≡ first_contradiction items.now (fields_of items.now fields.now) moment.now }
{
    match items {
        [] => None,
        [item, others @ ..] => match item.contradiction(fields.number(*item), moment) {
            Some(component) => Some(component),
            None => field_contradiction(others, fields, moment),
        },
    }
}
