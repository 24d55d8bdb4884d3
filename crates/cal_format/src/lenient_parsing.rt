//! Parsing leniently: the numbers of a variant, and the moment that they determine.
ghost use Rattle.std.specs.Prelude.{◌≡◌, ℕ, ◌+◌, ◌*◌, ◌<◌, ◌≤◌, List, length, Ok, IsTrue, IfOk, IfErr};
ghost use Rattle.cal_format.specs.declared.moment.Moment.{Moment};
ghost use Rattle.cal_format.specs.Moment.{IsMoment};
ghost use Rattle.cal_format.specs.Lenient.{CanRead, items_of, HasKnown, IsRead, IsLenientRejection};
ghost use Rattle.cal_format.specs.Reading.{are_apart, shows};
ghost use Rattle.cal_format.specs.Values.{Holds, number_in};

use crate::error::ParseError;
use crate::format::Format;
use crate::item::{Component, Item};
use crate::lenient::LenientFormat;
use crate::moment::Moment;
use crate::parsing::{moment_of_numbers, unexpected};
use crate::variants::scan_variants;
use cal_text::Scanner;

/// Parses a variant of what a format prints. Returns the moment that the format holds and prints
/// so, or why there is none. The known items are the items of the format and, with a pivot, the
/// century before them.
pub(crate) fn parse_leniently(
    format: &LenientFormat,
    known: &Format,
    text: &[u8],
) -> Result<Moment, ParseError>
    requires known { known.now ≡ items_of format.now }
    requires read { CanRead format.now }
    requires apart { IsTrue (are_apart known.now) }
    ensures every { (v : Moment) → Holds known.now v → IsRead format.now v text.now
        → result ≡ Ok v }
    ensures range { IfOk result IsMoment }
    ensures value { IfOk result (λ v. IsRead format.now v text.now) }
    ensures error { IfErr result (IsLenientRejection format.now text.now) }
{
    let mut buffer = [0u64; 64];
    let numbers = &mut buffer[..known.items().len()];
    let mut scanner = Scanner { rest: text };
    if !scan_known(format, &mut scanner, numbers) {
        return Err(unexpected(text.len() - scanner.rest.len(), text.len()));
    }
    moment_of_numbers(known, numbers)
}

/// Parses the numbers of the known items up to the end of a text. With a pivot the first number is
/// the century.
pub(crate) fn scan_known(format: &LenientFormat, scanner: &mut Scanner, numbers: &mut [u64]) -> bool
    requires read { CanRead format.now }
    requires length { length numbers.old ≡ length (items_of format.now) }
    ensures value { IsTrue result
        → HasKnown format.now.pivot format.now.format numbers.new scanner.old.rest.now }
    ensures every { (ns : List ℕ)
        → HasKnown format.now.pivot format.now.format ns scanner.old.rest.now
        → IsTrue result × (numbers.new ≡ ns) }
    ensures shorter { length scanner.new.rest.now ≤ length scanner.old.rest.now }
{
    let items = format.format.items();
    let Some(pivot) = format.pivot else {
        return scan_variants(items, false, scanner, numbers, 0).is_some();
    };
    if scan_variants(items, false, scanner, numbers, 1).is_none() {
        return false;
    }
    let pair = number_in(items, &numbers[1..], Component::YearOfCentury);
    numbers[0] = century_of(u64::from(pivot), pair);
    true
}

/// Returns the number of the first item that shows a component, or 0.
fn number_in(items: &[Item], numbers: &[u64], component: Component) -> u64
    ensures { result ≡ number_in items.now numbers.now component }
{
    match items {
        [] => 0,
        [item, others @ ..] => match numbers {
            [] => 0,
            [number, rest @ ..] => {
                if item.shows(component) {
                    *number
                } else {
                    number_in(others, rest, component)
                }
            }
        },
    }
}

impl Item {
    fn shows(self, component: Component) -> bool
        ensures { result ≡ shows component self }
    {
        match self.component() {
            None => false,
            Some(own) => own.index() == component.index(),
        }
    }
}

/// Returns the century of a year with these last two digits, from a pivot on.
fn century_of(pivot: u64, pair: u64) -> u64
    requires pivot { pivot ≤ 9_900 }
    requires pair { pair < 100 }
    ensures first { pivot ≤ result * 100 + pair }
    ensures last { result * 100 + pair < pivot + 100 }
{
    let century = pivot / 100;
    if century * 100 + pair < pivot {
        century + 1
    } else {
        century
    }
}
