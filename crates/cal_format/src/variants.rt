//! Parsing the variants of what items print.
ghost use Rattle.std.specs.Prelude.{◌≡◌, ◌⊎◌, ℕ, ◌+◌, ◌*◌, ◌≤◌, ◌^◌, ◌++◌, true, false, Some, List, length, take, drop, replicate, IsTrue, IsSome, IfSome};
ghost use Rattle.cal_text.specs.Shape.{GoesPast, ParsesMoreDigits};
ghost use Rattle.cal_format.specs.Form.{IsNumber, numbered_item};
ghost use Rattle.cal_format.specs.Lenient.{are_leniently_apart, IsOut, IsLenientlyEnded};
ghost use Rattle.cal_format.specs.Moment.{width};
ghost use Rattle.cal_format.specs.Variants.{is_free, is_white, is_exact, all_spaces, IsRun, IsNumberVariant, IsVariant, HasVariants};

use crate::description::{is_space, spaces};
use crate::form::scan_item;
use crate::item::{Component, Item, Padding};
use crate::letters::scan_any_name;
use cal_text::Scanner;

/// Parses variants of the items up to the end of the text, and writes their numbers from this place
/// on. The item before them is white space if `after` is `true`.
pub(crate) fn scan_variants(
    items: &[Item],
    after: bool,
    scanner: &mut Scanner,
    numbers: &mut [u64],
    at: usize,
) -> Option<()>
    requires { at + length items.now ≡ length numbers.old }
    ensures value { IfSome result (λ _.
        HasVariants after items.now (drop at numbers.new) scanner.old.rest.now) }
    ensures every { (ns : List ℕ) → IsTrue (are_leniently_apart items.now)
        → HasVariants after items.now ns scanner.old.rest.now
        → IsSome result × (drop at numbers.new ≡ ns) }
    ensures kept { take at numbers.new ≡ take at numbers.old }
    ensures shorter { length scanner.new.rest.now ≤ length scanner.old.rest.now }
{
    match items {
        [] => scanner.end(),
        [item, others @ ..] => {
            numbers[at] = scan_variant(scanner, *item, after)?;
            scan_variants(others, item.is_white(), scanner, numbers, at + 1)
        }
    }
}

/// Parses a variant of an item, and returns its number.
fn scan_variant(scanner: &mut Scanner, item: Item, after: bool) -> Option<u64>
    ensures value { IfSome result (λ n.
        GoesPast (IsVariant after item n) scanner.old.rest.now scanner.new.rest.now) }
    ensures every { (n : ℕ) (front rest : List ℕ) → IsVariant after item n front
        → IsLenientlyEnded item rest → scanner.old.rest.now ≡ front ++ rest
        → (result ≡ Some n) × (scanner.new.rest.now ≡ rest) }
    ensures shorter { length scanner.new.rest.now ≤ length scanner.old.rest.now }
{
    match item {
        Item::Number(component, padding) if component.is_free() => {
            let may_fill = padding == Padding::Space && !after;
            scan_free_number(scanner, component.width(), may_fill)
        }
        Item::Name(name) => scan_any_name(scanner, name),
        Item::Literal(byte) if is_space(byte) => scan_white(scanner, after),
        _ => scan_exact(scanner, item),
    }
}

impl Item {
    /// Returns `true` for a byte of white space.
    pub(crate) fn is_white(self) -> bool
        ensures { result ≡ is_white self }
    {
        match self {
            Item::Literal(byte) => is_space(byte),
            _ => false,
        }
    }
}

impl Component {
    /// Returns `true` if a number of the component may have any padding.
    pub(crate) fn is_free(self) -> bool
        ensures { result ≡ is_free self }
    {
        self.index() < 18
    }
}

/// Parses an item whose text has no variants.
fn scan_exact(scanner: &mut Scanner, item: Item) -> Option<u64>
    ensures value { IfSome result (λ n. IsNumber item n
        × (scanner.old.rest.now ≡ numbered_item item n ++ scanner.new.rest.now)) }
    ensures every { (n : ℕ) (rest : List ℕ) → IsTrue (is_exact item) → IsNumber item n
        → IsLenientlyEnded item rest → scanner.old.rest.now ≡ numbered_item item n ++ rest
        → (result ≡ Some n) × (scanner.new.rest.now ≡ rest) }
    ensures shorter { length scanner.new.rest.now ≤ length scanner.old.rest.now }
{
    let before = scanner.rest;
    match scan_item(scanner, item) {
        Some(number) => Some(number),
        None => {
            scanner.rest = before;
            None
        }
    }
}

/// Parses a run of white space, or nothing after white space, and returns 0.
fn scan_white(scanner: &mut Scanner, after: bool) -> Option<u64>
    ensures after { after ≡ true
        → (result ≡ Some 0) × (scanner.new.rest.now ≡ scanner.old.rest.now) }
    ensures value { after ≡ false → IfSome result (λ n. (n ≡ 0)
        × GoesPast IsRun scanner.old.rest.now scanner.new.rest.now) }
    ensures every { (front rest : List ℕ) → after ≡ false → IsRun front
        → IsOut 5 9 rest → IsOut 1 32 rest → scanner.old.rest.now ≡ front ++ rest
        → (result ≡ Some 0) × (scanner.new.rest.now ≡ rest) }
    ensures shorter { length scanner.new.rest.now ≤ length scanner.old.rest.now }
{
    if after {
        return Some(0);
    }
    let count = spaces(scanner.rest);
    if count == 0 {
        return None;
    }
    scanner.rest = &scanner.rest[count..];
    Some(0)
}

/// Parses a number of up to `width` bytes: digits, after spaces if these may fill it.
fn scan_free_number(scanner: &mut Scanner, width: u8, may_fill: bool) -> Option<u64>
    requires { (1 ≤ width) × (width ≤ 4) }
    ensures value { IfSome result (λ n. GoesPast (IsNumberVariant may_fill width n)
        scanner.old.rest.now scanner.new.rest.now) }
    ensures every { (n : ℕ) (front rest : List ℕ) → IsNumberVariant may_fill width n front
        → IsOut 10 48 rest → scanner.old.rest.now ≡ front ++ rest
        → (result ≡ Some n) × (scanner.new.rest.now ≡ rest) }
    ensures shorter { length scanner.new.rest.now ≤ length scanner.old.rest.now }
{
    let fill = skip_fill(scanner, width - 1, may_fill);
    let first = scanner.digit()?;
    Some(scan_up_to(scanner, u64::from(first), width - fill - 1))
}

/// Skips up to `most` spaces if these may fill a number, and returns how many.
fn skip_fill(scanner: &mut Scanner, most: u8, may_fill: bool) -> u8
    ensures value { scanner.old.rest.now ≡ replicate result 32 ++ scanner.new.rest.now }
    ensures range { result ≤ most }
    ensures unfilled { may_fill ≡ false → result ≡ 0 }
    ensures every { (k : ℕ) (rest : List ℕ) → (may_fill ≡ false → k ≡ 0) → k ≤ most
        → IsOut 1 32 rest → scanner.old.rest.now ≡ replicate k 32 ++ rest
        → (result ≡ k) × (scanner.new.rest.now ≡ rest) }
{
    if !may_fill {
        return 0;
    }
    skip_spaces(scanner, most)
}

/// Skips up to `most` spaces, and returns how many.
fn skip_spaces(scanner: &mut Scanner, most: u8) -> u8
    ensures value { scanner.old.rest.now ≡ replicate result 32 ++ scanner.new.rest.now }
    ensures range { result ≤ most }
    ensures every { (fill : ℕ) (rest : List ℕ) → fill ≤ most → IsOut 1 32 rest
        → scanner.old.rest.now ≡ replicate fill 32 ++ rest
        → (result ≡ fill) × (scanner.new.rest.now ≡ rest) }
{
    if most == 0 {
        return 0;
    }
    match scanner.byte(b' ') {
        Some(()) => skip_spaces(scanner, most - 1) + 1,
        None => 0,
    }
}

/// Parses up to `most` digits after the digits of `number`, and returns the new number.
fn scan_up_to(scanner: &mut Scanner, number: u64, most: u8) -> u64
    requires { (number + 1) * 10 ^ most ≤ 10 ^ 9 }
    ensures value { ParsesMoreDigits scanner.old.rest.now scanner.new.rest.now most number result }
    ensures end { (length scanner.old.rest.now ≡ most + length scanner.new.rest.now)
        ⊎ IsOut 10 48 scanner.new.rest.now }
{
    if most == 0 {
        return number;
    }
    match scanner.digit() {
        Some(digit) => scan_up_to(scanner, number * 10 + u64::from(digit), most - 1),
        None => number,
    }
}
