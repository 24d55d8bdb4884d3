//! The moment of a text with the names of a table.
ghost use Rattle.std.specs.Prelude.{◌≡◌, ◌+◌, ◌<◌, ◌≤◌, ◌++◌, length, take, drop, IfSome, IsTrue};
ghost use Rattle.cal_text.specs.Shape.{Scans, ScansWhole};
ghost use Rattle.cal_format.specs.declared.error.ParseError.TheVariants.{UnexpectedByte, UnexpectedEnd};
ghost use Rattle.cal_format.specs.Form.{IsNumber};
ghost use Rattle.cal_format.specs.Reading.{are_apart};
ghost use Rattle.cal_named_format.specs.Ambiguity.{ReadBack};
ghost use Rattle.cal_named_format.specs.Named.{item_shape_in, numbered_item_in, shape_in};
ghost use Rattle.cal_named_format.specs.Rejection.{HasNumbersIn, IsParsedIn};

use crate::scanning::{scan_name, table_counts};
use cal_format::{Format, Item, Moment, ParseError};
use cal_names::Names;
use cal_text::Scanner;

/// Parses a text. Returns the moment that the format holds and prints as this text, or why there is
/// none.
pub(crate) fn parse(items: &Format, names: &Names, text: &[u8]) -> Result<Moment, ParseError>
    requires apart { IsTrue (are_apart items.now) }
    requires reads { ReadBack names.now items.now }
    ensures { IsParsedIn names.now items.now text.now result }
{
    table_counts(names);
    let mut buffer = [0u64; 64];
    let numbers = &mut buffer[..items.items().len()];
    let mut scanner = Scanner { rest: text };
    match scan_items(items.items(), names, &mut scanner, numbers, 0) {
        Some(()) => items.moment_of_numbers(numbers),
        None => Err(unexpected(text.len() - scanner.rest.len(), text.len())),
    }
}

fn unexpected(position: usize, length: usize) -> ParseError
    requires { position ≤ length }
    ensures byte { position < length → result ≡ UnexpectedByte position }
    ensures end { position ≡ length → result ≡ UnexpectedEnd position }
{
    if position < length {
        ParseError::UnexpectedByte(position)
    } else {
        ParseError::UnexpectedEnd(position)
    }
}

/// Parses the numbers of the items up to the end of the text, and writes them from this place on.
fn scan_items(
    items: &[Item],
    names: &Names,
    scanner: &mut Scanner,
    numbers: &mut [u64],
    at: usize,
) -> Option<()>
    requires { at + length items.now ≡ length numbers.old }
    ensures scans { ScansWhole (shape_in names.now items.now) scanner.old.rest.now scanner.new.rest.now
        result }
    ensures value { IfSome result (λ _.
        HasNumbersIn names.now items.now (drop at numbers.new) scanner.old.rest.now) }
    ensures kept { take at numbers.new ≡ take at numbers.old }
{
    match items {
        [] => scanner.end(),
        [item, others @ ..] => {
            numbers[at] = scan_item(*item, names, scanner)?;
            scan_items(others, names, scanner, numbers, at + 1)
        }
    }
}

/// Parses the items up to the end of the text, whatever their numbers are.
pub(crate) fn scan_form(items: &[Item], names: &Names, scanner: &mut Scanner) -> Option<()>
    ensures { ScansWhole (shape_in names.now items.now) scanner.old.rest.now scanner.new.rest.now
        result }
{
    match items {
        [] => scanner.end(),
        [item, others @ ..] => {
            scan_item(*item, names, scanner)?;
            scan_form(others, names, scanner)
        }
    }
}

/// Parses the item at the front of a text, and returns its number.
fn scan_item(item: Item, names: &Names, scanner: &mut Scanner) -> Option<u64>
    ensures scans { Scans (item_shape_in names.now item) scanner.old.rest.now scanner.new.rest.now result }
    ensures value { IfSome result (λ n.
        scanner.old.rest.now ≡ numbered_item_in names.now item n ++ scanner.new.rest.now) }
    ensures range { IfSome result (λ n. IsNumber item n) }
{
    match item {
        Item::Name(name) => scan_name(names, name, scanner),
        _ => item.scan(scanner),
    }
}
