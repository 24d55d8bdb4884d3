//! The formats and tables whose strings read back.
ghost use Rattle.std.specs.Prelude.{◌≡◌, ℕ, ◌+◌, ◌<◌, ◌≤◌, ◌^◌, ◌↔◌, length, IsTrue, IfNone, IfSome, IsOk, IfErr};
ghost use Rattle.cal_names.specs.Apart.{texts};
ghost use Rattle.cal_named_format.specs.Named.{CanBegin};
ghost use Rattle.cal_named_format.specs.Ambiguity.{Ambiguous, AreAmbiguous, EndsBefore, GoesOn, IsFirst, IsFirstPair, IsItemError, IsNamesError, ReadBack};

use crate::error::NamesError;
use crate::parsing::scan_form;
use crate::scanning::table_of;
use cal_format::{Item, Padding};
use cal_names::{Names, table};
use cal_text::Scanner;

/// Checks that each string of the items with these names has one value. The names of each table that
/// they show must be distinct, and no name, number, fraction or sign may go on with what comes after
/// it. The longest name wins: `Pazar` ends before the digits in `%A%F`.
///
/// Returns `AmbiguousNames` or `AmbiguousNumber` for the first item that can be read in two ways, with
/// the first two names or the first byte. For `%-d%B` it is `AmbiguousNumber(0, b'1')` in Japanese,
/// whose months begin with digits.
pub fn check_names(items: &[Item], names: &Names) -> Result<(), NamesError>
    ensures reads { IsOk result ↔ ReadBack names.now items.now }
    ensures error { IfErr result (IsNamesError names.now items.now 0) }
{
    match first_error(items, names, 0) {
        Some(error) => Err(error),
        None => Ok(()),
    }
}

/// Returns the error of the first item that has one. The items are counted from `at`.
fn first_error(items: &[Item], names: &Names, at: usize) -> Option<NamesError>
    requires { at + length items.now < 2 ^ 63 }
    ensures none { IfNone result (ReadBack names.now items.now) }
    ensures error { IfSome result (IsNamesError names.now items.now at) }
{
    match items {
        [] => None,
        [item, others @ ..] => match item_error(*item, names, others, at) {
            Some(error) => Some(error),
            None => first_error(others, names, at + 1),
        },
    }
}

/// Returns the error of the item with the index `at`, which comes before the other items.
fn item_error(item: Item, names: &Names, others: &[Item], at: usize) -> Option<NamesError>
    ensures none { IfNone result (EndsBefore names.now item others.now) }
    ensures error { IfSome result (IsItemError names.now item others.now at) }
{
    match item {
        Item::Name(name) => match first_pair(table_of(names, name), names, others) {
            Some((index, other)) => Some(NamesError::AmbiguousNames(at, index, other)),
            None => None,
        },
        _ => match first_byte(item, names, others) {
            Some(byte) => Some(NamesError::AmbiguousNumber(at, byte)),
            None => None,
        },
    }
}

/// Returns the first two names of a table that are ambiguous before the items.
fn first_pair(table: &[&str], names: &Names, items: &[Item]) -> Option<(usize, usize)>
    ensures none { IfNone result ((i j : ℕ)
        → ¬ Ambiguous (texts table.now) names.now items.now i j) }
    ensures first { IfSome result (λ pair.
        IsFirstPair (Ambiguous (texts table.now) names.now items.now) pair.0 pair.1) }
{
    for index in 0..table.len() {
        if let Some(other) = first_other(table, index, names, items) {
            return Some((index, other));
        }
    }
    None
}

/// Returns the first name of a table that is ambiguous beside the name with an index.
fn first_other(table: &[&str], index: usize, names: &Names, items: &[Item]) -> Option<usize>
    requires { index < length table.now }
    ensures none { IfNone result ((j : ℕ)
        → ¬ Ambiguous (texts table.now) names.now items.now index j) }
    ensures first { IfSome result
        (IsFirst (Ambiguous (texts table.now) names.now items.now index)) }
{
    for other in 0..table.len() {
        if is_pair(table, index, other, names, items) {
            return Some(other);
        }
    }
    None
}

/// Returns `true` if the names with these indices are ambiguous before the items.
fn is_pair(table: &[&str], index: usize, other: usize, names: &Names, items: &[Item]) -> bool
    requires index { index < length table.now }
    requires other { other < length table.now }
    ensures { IsTrue result
        ↔ Ambiguous (texts table.now) names.now items.now index other }
{
    if other == index {
        return false;
    }
    let name = table::name_at(table, index).as_bytes();
    are_ambiguous(name, table::name_at(table, other).as_bytes(), names, items)
}

/// Returns `true` if a name is the other one, or goes on to it with a byte with which a string of
/// the items can begin.
fn are_ambiguous(name: &[u8], other: &[u8], names: &Names, items: &[Item]) -> bool
    ensures { IsTrue result ↔ AreAmbiguous names.now items.now name.now other.now }
{
    if other.len() < name.len() || !is_same(&other[..name.len()], name) {
        return false;
    }
    match &other[name.len()..] {
        [] => true,
        [byte, ..] => can_begin(*byte, names, items),
    }
}

fn is_same(text: &[u8], other: &[u8]) -> bool
    ensures { IsTrue result ↔ (text.now ≡ other.now) }
{
    text == other
}

/// Returns the first byte with which the item goes on and a string of the other items can begin.
fn first_byte(item: Item, names: &Names, others: &[Item]) -> Option<u8>
    ensures none { IfNone result ((b : ℕ) → GoesOn item b → ¬ CanBegin names.now others.now b) }
    ensures first { IfSome result
        (IsFirst (λ b. GoesOn item b × CanBegin names.now others.now b)) }
{
    for byte in 0..b'9' + 1 {
        if goes_on(item, byte) && can_begin(byte, names, others) {
            return Some(byte);
        }
    }
    None
}

/// Returns `true` if the item goes on with this byte.
fn goes_on(item: Item, byte: u8) -> bool
    ensures { IsTrue result ↔ GoesOn item byte }
{
    match item {
        Item::Number(_, Padding::None) | Item::Signed(_, Padding::None) | Item::Decimals =>
            is_digit(byte),
        Item::Fraction => is_digit(byte) || byte == b'.',
        Item::OffsetMinus | Item::TimestampMinus => byte == b'-',
        _ => false,
    }
}

fn is_digit(byte: u8) -> bool
    ensures { IsTrue result ↔ ((48 ≤ byte) × (byte ≤ 57)) }
{
    byte >= b'0' && byte <= b'9'
}

/// Returns `true` if a string of the items can begin with this byte.
fn can_begin(byte: u8, names: &Names, items: &[Item]) -> bool
    ensures { IsTrue result ↔ CanBegin names.now items.now byte }
{
    let text = [byte];
    let mut scanner = Scanner { rest: &text };
    match scan_form(items, names, &mut scanner) {
        Some(()) => true,
        None => scanner.rest.is_empty(),
    }
}
