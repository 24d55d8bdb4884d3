//! The texts that a format prints.
ghost use Rattle.std.specs.Prelude.{◌≡◌, ℕ, ◌+◌, ◌-◌, ◌<◌, ◌≤◌, ◌/◌, ◌%◌, ◌^◌, ◌++◌, ◌∷◌, [], ◌↔◌, IsSome, IfSome, IfNone, codes, if◌then◌else◌, int_lt, nat_lt, length, pos, take, drop, decimal, replicate, unsigned_abs};
ghost use Rattle.cal_time.specs.Time.{hour_of, nanosecond_of};
ghost use Rattle.cal_time.specs.UtcOffset.{sign as offset_sign};
ghost use Rattle.cal_time.specs.Digits.{decimals};
ghost use Rattle.cal_time.specs.DateText.{digits_at_least, sign_text};
ghost use Rattle.cal_format.specs.declared.item.Item.TheVariants as items;
ghost use Rattle.cal_format.specs.Names.{name_text};
ghost use Rattle.cal_format.specs.Printing.{Writes};
ghost use Rattle.cal_format.specs.Moment.{number, timestamp_of, width};
ghost use Rattle.cal_format.specs.Text.{sign, or_plus, padded, fraction_text, item_text, text_in_zone};

use crate::item::{Component, Item, Name, Padding};
use crate::moment::{Moment, iso_year};
use cal_time::ShortText;

/// Writes what the items print of a value to the buffer, from this position on, with an abbreviation
/// for `%Z`. Returns the end. Returns `None` if the buffer is too short, and then leaves only the
/// bytes before the position as they are. The items of `%d.%m.` write `29.02.` for 2024-02-29.
pub fn print_items(
    items: &[Item],
    moment: &Moment,
    abbreviation: &[u8],
    buffer: &mut [u8],
    at: usize,
) -> Option<usize>
    requires { at ≤ length buffer.old }
    ensures { Writes (text_in_zone abbreviation.now items.now moment.now) at buffer.old buffer.new result }
{
    match items {
        [] => Some(at),
        [item, others @ ..] => {
            let next = print_item(*item, moment, abbreviation, buffer, at)?;
            print_items(others, moment, abbreviation, buffer, next)
        }
    }
}

impl Item {
    /// Writes what the item prints of a value to the buffer, from this position on. Returns the
    /// end, and leaves all other bytes as they are. Returns `None` if the buffer is too short, and
    /// then leaves only the bytes before the position as they are. An abbreviation prints nothing.
    /// The year `%Y` writes `2024` at position 3 of a buffer, and returns 7.
    #[inline(always)]
    pub fn print(self, moment: &Moment, buffer: &mut [u8], at: usize) -> Option<usize>
        ensures { Writes (item_text [] moment.now self) at buffer.old buffer.new result }
    {
        if at > buffer.len() {
            return None;
        }
        print_item(self, moment, b"", buffer, at)
    }
}

#[inline(always)]
fn print_item(
    item: Item,
    moment: &Moment,
    abbreviation: &[u8],
    buffer: &mut [u8],
    at: usize,
) -> Option<usize>
    requires { at ≤ length buffer.old }
    ensures { Writes (item_text abbreviation.now moment.now item) at buffer.old buffer.new result }
{
    match item {
        Item::Literal(byte) => put(buffer, at, &[byte]),
        Item::Number(component, pad) => print_number(component, pad, moment, buffer, at),
        Item::Signed(component, pad) => print_signed(component, pad, moment, buffer, at),
        Item::Name(name) => print_name(name, moment, buffer, at),
        Item::Fraction => print_fraction(moment.time.nanosecond(), buffer, at),
        Item::Decimals => print_decimals(moment.time.nanosecond(), buffer, at),
        Item::OffsetSign => put(buffer, at, offset_sign(moment)),
        Item::OffsetMinus => put(buffer, at, offset_minus(moment)),
        Item::TimestampSign => put(buffer, at, timestamp_sign(moment, b"+")),
        Item::TimestampMinus => put(buffer, at, timestamp_sign(moment, b"")),
        Item::Abbreviation => put(buffer, at, abbreviation),
    }
}

fn print_number(
    component: Component,
    pad: Padding,
    moment: &Moment,
    buffer: &mut [u8],
    at: usize,
) -> Option<usize>
    requires { at ≤ length buffer.old }
    ensures { Writes (sign component moment.now ++ padded pad (width component) (number component moment.now)) at buffer.old buffer.new result }
{
    let sign = sign_of(component, moment);
    if !sign.is_empty() {
        return print_after_sign(sign, component, pad, moment, buffer, at);
    }
    put_padded(moment.number(component), component.width(), pad, buffer, at)
}

/// Writes a number with its sign, or with a plus sign if it has none.
#[inline(never)]
fn print_signed(
    component: Component,
    pad: Padding,
    moment: &Moment,
    buffer: &mut [u8],
    at: usize,
) -> Option<usize>
    requires { at ≤ length buffer.old }
    ensures { Writes (or_plus (sign component moment.now) ++ padded pad (width component) (number component moment.now)) at buffer.old buffer.new result }
{
    let sign = sign_of(component, moment);
    let sign = if sign.is_empty() { b"+" } else { sign };
    print_after_sign(sign, component, pad, moment, buffer, at)
}

/// Writes a number after this sign.
#[cold]
#[inline(never)]
fn print_after_sign(
    sign: &[u8],
    component: Component,
    pad: Padding,
    moment: &Moment,
    buffer: &mut [u8],
    at: usize,
) -> Option<usize>
    requires { at ≤ length buffer.old }
    ensures { Writes (sign.now ++ padded pad (width component) (number component moment.now)) at buffer.old buffer.new result }
{
    let next = put(buffer, at, sign)?;
    put_padded(
        moment.number(component),
        component.width(),
        pad,
        buffer,
        next,
    )
}

/// Returns the sign before the digits of a component.
#[inline(always)]
pub(crate) fn sign_of(component: Component, moment: &Moment) -> &'static [u8]
    ensures { result.now ≡ sign component moment.now }
{
    match component {
        Component::Year => year_sign(moment.date.year()),
        Component::Century => year_sign(moment.date.year()),
        Component::IsoYear => year_sign(iso_year(moment.date)),
        _ => b"",
    }
}

#[inline(always)]
fn year_sign(year: i32) -> &'static [u8]
    ensures { result.now ≡ sign_text year }
{
    if year < 0 {
        b"-"
    } else if year > 9999 {
        b"+"
    } else {
        b""
    }
}

/// Writes the digits of a number.
#[inline(always)]
fn put_padded(number: u64, width: u8, pad: Padding, buffer: &mut [u8], at: usize) -> Option<usize>
    requires at { at ≤ length buffer.old }
    requires width { width ≤ 9 }
    ensures { Writes (padded pad width number) at buffer.old buffer.new result }
{
    match pad {
        Padding::Zero if width == 2 && number < 100 => put(buffer, at, &two_digits(number as u8)),
        Padding::Zero if width == 3 && number < 1_000 => {
            put(buffer, at, &three_digits(number as u16))
        }
        Padding::Zero if width == 4 && number < 10_000 => {
            put(buffer, at, &four_digits(number as u16))
        }
        Padding::Zero => put_filled(b'0', number, width, buffer, at),
        Padding::Space => put_filled(b' ', number, width, buffer, at),
        Padding::None => put_decimal(number, buffer, at),
    }
}

/// Writes the digits of a number, with this byte before them up to the width.
#[tactic(auto, using(crate::proofs::Digits::short_decimals))]
#[inline(never)]
fn put_filled(byte: u8, number: u64, width: u8, buffer: &mut [u8], at: usize) -> Option<usize>
    requires at { at ≤ length buffer.old }
    requires width { width ≤ 9 }
    ensures { Writes (replicate (width - length (decimal number)) byte ++ decimal number) at buffer.old buffer.new result }
{
    let mut digits = ShortText::new();
    digits.push_number(number);
    let fill = usize::from(width).saturating_sub(digits.len());
    let next = put_fill(byte, fill, buffer, at)?;
    put(buffer, next, digits.as_bytes())
}

/// Writes this byte the given number of times.
#[inline(always)]
#[tactic(auto, using(crate::proofs::Digits::fills))]
fn put_fill(byte: u8, count: usize, buffer: &mut [u8], at: usize) -> Option<usize>
    requires at { at ≤ length buffer.old }
    requires count { count ≤ 9 }
    ensures { Writes (replicate count byte) at buffer.old buffer.new result }
{
    let filler = [byte; 9];
    put(buffer, at, &filler[..count])
}

/// Writes the digits of a number without padding.
#[inline(always)]
#[tactic(auto, using(crate::proofs::Digits::short_numbers, crate::proofs::Digits::digits))]
fn put_decimal(number: u64, buffer: &mut [u8], at: usize) -> Option<usize>
    requires { at ≤ length buffer.old }
    ensures { Writes (decimal number) at buffer.old buffer.new result }
{
    // One or two digits take a shorter way.
    if number < 10 {
        return put(buffer, at, &[b'0' + number as u8]);
    }
    if number < 100 {
        return put(buffer, at, &two_digits(number as u8));
    }
    put_long_decimal(number, buffer, at)
}

#[tactic(auto, using(crate::proofs::Digits::short_decimals))]
#[inline(never)]
fn put_long_decimal(number: u64, buffer: &mut [u8], at: usize) -> Option<usize>
    requires { at ≤ length buffer.old }
    ensures { Writes (decimal number) at buffer.old buffer.new result }
{
    let mut digits = ShortText::new();
    digits.push_number(number);
    put(buffer, at, digits.as_bytes())
}

#[tactic(auto, using(crate::proofs::EnglishNames::long_names))]
#[inline(never)]
fn print_name(name: Name, moment: &Moment, buffer: &mut [u8], at: usize) -> Option<usize>
    requires { at ≤ length buffer.old }
    ensures { Writes (name_text name moment.now) at buffer.old buffer.new result }
{
    match name {
        Name::Month | Name::MonthAlone => put(buffer, at, moment.month().name().as_bytes()),
        Name::ShortMonth => put(buffer, at, &moment.month().name().as_bytes()[..3]),
        Name::Weekday => put(buffer, at, moment.weekday().name().as_bytes()),
        Name::ShortWeekday => put(buffer, at, &moment.weekday().name().as_bytes()[..3]),
        Name::Period => put(buffer, at, &half_of_day(moment, b'A', b'P', b'M')),
        Name::LowerPeriod => put(buffer, at, &half_of_day(moment, b'a', b'p', b'm')),
    }
}

/// Returns the two letters of the half of the day. The choice of the first one needs no branch.
#[inline(always)]
fn half_of_day(moment: &Moment, before_noon: u8, after_noon: u8, last: u8) -> [u8; 2]
    ensures { result ≡ (if nat_lt (hour_of moment.now.time) 12 then before_noon else after_noon) ∷ last ∷ [] }
{
    let first = if moment.time.hour() < 12 {
        before_noon
    } else {
        after_noon
    };
    [first, last]
}

#[inline(never)]
fn print_fraction(nanosecond: u32, buffer: &mut [u8], at: usize) -> Option<usize>
    requires at { at ≤ length buffer.old }
    requires range { nanosecond < 1_000_000_000 }
    ensures { Writes (fraction_text nanosecond) at buffer.old buffer.new result }
{
    if nanosecond == 0 {
        return put(buffer, at, b"");
    }
    let next = put(buffer, at, b".")?;
    print_decimals(nanosecond, buffer, next)
}

#[tactic(auto, using(crate::proofs::Digits::short_fractions))]
#[inline(never)]
fn print_decimals(nanosecond: u32, buffer: &mut [u8], at: usize) -> Option<usize>
    requires at { at ≤ length buffer.old }
    requires range { nanosecond < 1_000_000_000 }
    ensures { Writes (decimals nanosecond) at buffer.old buffer.new result }
{
    let mut digits = ShortText::new();
    digits.push_decimals(nanosecond);
    put(buffer, at, digits.as_bytes())
}

/// Returns the minus sign of a negative Unix time, or else this sign.
#[inline(never)]
fn timestamp_sign(moment: &Moment, sign: &'static [u8]) -> &'static [u8]
    ensures { result.now
        ≡ (if int_lt (timestamp_of moment.now) (pos 0) then codes "-" else sign.now) }
{
    if moment.timestamp() < 0 { b"-" } else { sign }
}

/// Returns the minus sign of a negative offset.
fn offset_minus(moment: &Moment) -> &'static [u8]
    ensures { result.now ≡ item_text [] moment.now items.OffsetMinus }
{
    if moment.offset.whole_seconds() < 0 {
        b"-"
    } else {
        b""
    }
}

/// Returns the sign of the offset.
fn offset_sign(moment: &Moment) -> &'static [u8]
    ensures { result.now ≡ offset_sign moment.now.offset }
{
    if moment.offset.whole_seconds() < 0 {
        b"-"
    } else {
        b"+"
    }
}

/// Returns the two digits of a number below 100: `07` for 7.
#[inline(always)]
#[tactic(auto, using(crate::proofs::Digits::digits))]
fn two_digits(number: u8) -> [u8; 2]
    requires { number < 100 }
    ensures { result ≡ digits_at_least 2 number }
{
    [b'0' + number / 10, b'0' + number % 10]
}

/// Returns the three digits of a number below 1000.
#[inline(always)]
#[tactic(auto, using(crate::proofs::Digits::digits))]
fn three_digits(number: u16) -> [u8; 3]
    requires { number < 1000 }
    ensures { result ≡ digits_at_least 3 number }
{
    let front = (number / 100) as u8;
    let back = (number % 100) as u8;
    [b'0' + front, b'0' + back / 10, b'0' + back % 10]
}

/// Returns the four digits of a number below 10000.
#[inline(always)]
#[tactic(auto, using(crate::proofs::Digits::digits))]
fn four_digits(number: u16) -> [u8; 4]
    requires { number < 10000 }
    ensures { result ≡ digits_at_least 4 number }
{
    let front = (number / 100) as u8;
    let back = (number % 100) as u8;
    [
        b'0' + front / 10,
        b'0' + front % 10,
        b'0' + back / 10,
        b'0' + back % 10,
    ]
}

/// Writes bytes to the buffer, from this position on.
#[inline(always)]
pub(crate) fn put(buffer: &mut [u8], at: usize, bytes: &[u8]) -> Option<usize>
    requires { at ≤ length buffer.old }
    ensures written { Writes bytes.now at buffer.old buffer.new result }
    ensures unchanged { IfNone result (buffer.new ≡ buffer.old) }
{
    if bytes.len() > buffer.len() - at {
        return None;
    }
    let end = at + bytes.len();
    buffer[at..end].copy_from_slice(bytes);
    Some(end)
}
