//! The form of the texts of a format: digits, names and literal bytes, whatever the numbers are.
ghost use Rattle.std.specs.Prelude.{◌≡◌, ◌+◌, ◌-◌, ◌*◌, ◌<◌, ◌≤◌, ◌^◌, ◌++◌, length, take, drop, IfSome, decimal};
ghost use Rattle.cal_text.specs.Shape.{Scans, ScansWhole, ParsesDigits, ParsesMoreDigits, Digits};
ghost use Rattle.cal_format.specs.declared.item.Padding.TheVariants as paddings;
ghost use Rattle.cal_format.specs.declared.item.Item.TheVariants as item_variants;
ghost use Rattle.cal_time.specs.Digits.{decimals};
ghost use Rattle.cal_format.specs.Moment.{width, width_of};
ghost use Rattle.cal_format.specs.Text.{padded, fraction_text};
ghost use Rattle.cal_format.specs.Form.{AfterSpaces, Decimal, Padded, Decimals, ItemShape, shape_of, numbered_item, IsNumber, HasNumbers, ParsesDecimals};

use crate::form_names::scan_name;
use crate::item::{Component, Item, Padding};
use cal_text::{Scanner, scan_positive_number};

/// Parses the numbers of the items up to the end of the text, and writes them from this place on. A
/// literal has the number 0.
pub(crate) fn scan_items(
    items: &[Item],
    scanner: &mut Scanner,
    numbers: &mut [u64],
    at: usize,
) -> Option<()>
    requires { at + length items.now ≡ length numbers.old }
    ensures scans { ScansWhole (shape_of items.now) scanner.old.rest.now scanner.new.rest.now
        result }
    ensures value { IfSome result (λ _.
        HasNumbers items.now (drop at numbers.new) scanner.old.rest.now) }
    ensures kept { take at numbers.new ≡ take at numbers.old }
{
    match items {
        [] => scanner.end(),
        [item, others @ ..] => {
            numbers[at] = scan_item(scanner, *item)?;
            scan_items(others, scanner, numbers, at + 1)
        }
    }
}

/// Parses the items up to the end of the text, whatever their numbers are.
pub(crate) fn scan_form(items: &[Item], scanner: &mut Scanner) -> Option<()>
    ensures { ScansWhole (shape_of items.now) scanner.old.rest.now scanner.new.rest.now result }
{
    match items {
        [] => scanner.end(),
        [item, others @ ..] => {
            scan_item(scanner, *item)?;
            scan_form(others, scanner)
        }
    }
}

/// Parses the number of an item.
#[inline(always)]
pub(crate) fn scan_item(scanner: &mut Scanner, item: Item) -> Option<u64>
    ensures scans { Scans (ItemShape item) scanner.old.rest.now scanner.new.rest.now result }
    ensures value { IfSome result (λ n.
        scanner.old.rest.now ≡ numbered_item item n ++ scanner.new.rest.now) }
    ensures range { IfSome result (λ n. IsNumber item n) }
{
    match item {
        Item::Literal(byte) => {
            scanner.byte(byte)?;
            Some(0)
        }
        Item::Number(component, pad) => scan_number(scanner, pad, component),
        Item::Signed(component, pad) => {
            scanner.byte(b'+')?;
            scan_number(scanner, pad, component)
        }
        Item::Name(name) => scan_name(scanner, name),
        Item::Fraction => scan_fraction(scanner),
        Item::Decimals => scan_some_decimals(scanner),
        Item::OffsetSign | Item::TimestampSign => {
            let is_minus = scanner.sign()?;
            Some(u64::from(is_minus))
        }
        Item::OffsetMinus | Item::TimestampMinus => match scanner.byte(b'-') {
            Some(()) => Some(1),
            None => Some(0),
        },
        Item::Abbreviation => Some(0),
    }
}

#[inline(always)]
fn scan_number(scanner: &mut Scanner, pad: Padding, component: Component) -> Option<u64>
    ensures scans { Scans (Padded pad (width_of pad component)) scanner.old.rest.now
        scanner.new.rest.now result }
    ensures value { IfSome result (λ n.
        scanner.old.rest.now ≡ padded pad (width component) n ++ scanner.new.rest.now) }
    ensures range { IfSome result (λ n. n < 10 ^ width_of pad component) }
{
    match pad {
        Padding::Zero => match component.width() {
            1 => scan_one_digit(scanner),
            2 => scan_two_digits(scanner),
            3 => scan_three_digits(scanner),
            4 => scan_four_digits(scanner),
            width => scan_digits(scanner, 0, width),
        },
        Padding::Space => scan_after_spaces(scanner, component.width() - 1),
        Padding::None => scan_decimal(scanner, component.most_digits() - 1),
    }
}

/// Parses one digit.
#[inline(always)]
fn scan_one_digit(scanner: &mut Scanner) -> Option<u64>
    ensures scans { Scans (Digits 1) scanner.old.rest.now scanner.new.rest.now result }
    ensures value { IfSome result (ParsesDigits scanner.old.rest.now scanner.new.rest.now 1) }
    ensures range { IfSome result (λ n. n < 10) }
{
    let number = scanner.digit()?;
    Some(u64::from(number))
}

/// Parses two digits.
#[inline(always)]
fn scan_two_digits(scanner: &mut Scanner) -> Option<u64>
    ensures scans { Scans (Digits 2) scanner.old.rest.now scanner.new.rest.now result }
    ensures value { IfSome result (ParsesDigits scanner.old.rest.now scanner.new.rest.now 2) }
    ensures range { IfSome result (λ n. n < 100) }
{
    let number = scanner.two_digits()?;
    Some(u64::from(number))
}

/// Parses three digits.
#[inline(always)]
fn scan_three_digits(scanner: &mut Scanner) -> Option<u64>
    ensures scans { Scans (Digits 3) scanner.old.rest.now scanner.new.rest.now result }
    ensures value { IfSome result (ParsesDigits scanner.old.rest.now scanner.new.rest.now 3) }
    ensures range { IfSome result (λ n. n < 1000) }
{
    let number = scanner.three_digits()?;
    Some(u64::from(number))
}

/// Parses four digits.
#[inline(always)]
fn scan_four_digits(scanner: &mut Scanner) -> Option<u64>
    ensures scans { Scans (Digits 4) scanner.old.rest.now scanner.new.rest.now result }
    ensures value { IfSome result (ParsesDigits scanner.old.rest.now scanner.new.rest.now 4) }
    ensures range { IfSome result (λ n. n < 10000) }
{
    let number = scanner.four_digits()?;
    Some(u64::from(number))
}

/// Parses this many digits after the digits of `number`, and returns the new number.
fn scan_digits(scanner: &mut Scanner, number: u64, count: u8) -> Option<u64>
    requires { (number + 1) * 10 ^ count ≤ 10 ^ 9 }
    ensures scans { Scans (Digits count) scanner.old.rest.now scanner.new.rest.now result }
    ensures value { IfSome result (ParsesMoreDigits scanner.old.rest.now scanner.new.rest.now count
        number) }
    ensures count { IfSome result (λ _.
        length scanner.old.rest.now ≡ count + length scanner.new.rest.now) }
    ensures range { IfSome result (λ n. n < (number + 1) * 10 ^ count) }
{
    if count == 0 {
        return Some(number);
    }
    let digit = scanner.digit()?;
    scan_digits(scanner, number * 10 + u64::from(digit), count - 1)
}

/// Parses spaces and a number without leading zeros, `more + 1` bytes in all.
fn scan_after_spaces(scanner: &mut Scanner, more: u8) -> Option<u64>
    requires { more ≤ 8 }
    ensures scans { Scans (AfterSpaces more) scanner.old.rest.now scanner.new.rest.now result }
    ensures value { IfSome result (λ n.
        scanner.old.rest.now ≡ padded paddings.Space (more + 1) n ++ scanner.new.rest.now) }
    ensures range { IfSome result (λ n. n < 10 ^ (more + 1)) }
{
    if more == 0 {
        let digit = scanner.digit()?;
        return Some(u64::from(digit));
    }
    match scanner.byte(b' ') {
        Some(()) => scan_after_spaces(scanner, more - 1),
        None => {
            let first = scanner.digit_from_1()?;
            scan_digits(scanner, u64::from(first), more)
        }
    }
}

/// Parses a number without leading zeros, of up to `more + 1` digits.
fn scan_decimal(scanner: &mut Scanner, more: u8) -> Option<u64>
    requires { more ≤ 13 }
    ensures scans { Scans (Decimal more) scanner.old.rest.now scanner.new.rest.now result }
    ensures value { IfSome result (λ n.
        scanner.old.rest.now ≡ decimal n ++ scanner.new.rest.now) }
    ensures range { IfSome result (λ n. n < 10 ^ (more + 1)) }
{
    match scanner.byte(b'0') {
        Some(()) => Some(0),
        None => scan_positive_number(scanner, usize::from(more)),
    }
}

/// Parses a fraction of a second, and returns its nanoseconds: nothing, or a point and up to nine
/// digits, of which the last is not 0.
fn scan_fraction(scanner: &mut Scanner) -> Option<u64>
    ensures scans { Scans (ItemShape item_variants.Fraction) scanner.old.rest.now scanner.new.rest.now result }
    ensures value { IfSome result (λ n.
        scanner.old.rest.now ≡ fraction_text n ++ scanner.new.rest.now) }
    ensures range { IfSome result (λ n. n < 1_000_000_000) }
{
    match scanner.byte(b'.') {
        Some(()) => scan_decimals(scanner, 100_000_000, 8, false),
        None => Some(0),
    }
}

/// Parses one to nine digits of a fraction, of which the last is not 0 if there are several, and
/// returns their nanoseconds.
fn scan_some_decimals(scanner: &mut Scanner) -> Option<u64>
    ensures scans { Scans (ItemShape item_variants.Decimals) scanner.old.rest.now scanner.new.rest.now result }
    ensures value { IfSome result (λ n.
        scanner.old.rest.now ≡ decimals n ++ scanner.new.rest.now) }
    ensures range { IfSome result (λ n. n < 1_000_000_000) }
{
    let digit = scanner.digit()?;
    let others = scan_decimals(scanner, 10_000_000, 7, true)?;
    Some(u64::from(digit) * 100_000_000 + others)
}

/// Parses up to `more + 1` digits of a fraction, of which the last is not 0, and returns their
/// nanoseconds. The first digit counts `unit` nanoseconds. There may be no digit if `may_end` is
/// `true`.
fn scan_decimals(scanner: &mut Scanner, unit: u64, more: u8, may_end: bool) -> Option<u64>
    requires { unit * 10 ≤ 1_000_000_000 }
    ensures scans { Scans (Decimals may_end more) scanner.old.rest.now scanner.new.rest.now
        result }
    ensures value { IfSome result (ParsesDecimals scanner.old.rest.now scanner.new.rest.now may_end
        more unit) }
    ensures range { IfSome result (λ n. n ≤ unit * 10) }
{
    if let Some(digit) = scanner.digit_from_1() {
        if more == 0 {
            return Some(u64::from(digit) * unit);
        }
        let others = scan_decimals(scanner, unit / 10, more - 1, true)?;
        return Some(u64::from(digit) * unit + others);
    }
    if more == 0 {
        return if may_end { Some(0) } else { None };
    }
    match scanner.byte(b'0') {
        Some(()) => scan_decimals(scanner, unit / 10, more - 1, false),
        None => { if may_end { Some(0) } else { None } }
    }
}
