//! Lenient formats.
ghost use Rattle.std.specs.Prelude.{◌≡◌, ◌+◌, ◌<◌, ◌↔◌, Some, None, IsSome, IfSome};
ghost use Rattle.cal_format.specs.Lenient.{CanRead, items_of, lacks_century, is_digit, item_begins, may_be_empty, can_begin, none_begins, ends_leniently, are_leniently_apart};

use crate::description::is_space;
use crate::determines::any_shows;
use crate::format::Format;
use crate::item::{Component, Item, Padding};
use crate::letters::is_letter;

/// A format that also reads variants of the texts that it prints:
///
/// - the numbers of a date, and of a time of day down to the second, with or without zeros before
///   them, and with the spaces that the format prints before them;
/// - names in any case, and their first three letters;
/// - any run of white space for white space.
///
/// A text is read if and only if it is such a variant of a text that the format prints, and then as
/// the value of that text. `%d %B %Y` reads `29 FEB 2024`. Contracts see the items and the pivot.
#[derive(Debug, Drop)]
pub struct LenientFormat {
    pub(crate) format: Format,
    pub(crate) pivot: Option<u16>,
}

impl Format {
    /// Returns `true` if the format shows the last two digits of the year, and neither the year nor
    /// the century, such as `%m/%d/%y`. Its texts determine no date without a pivot.
    pub fn lacks_century(&self) -> bool
        ensures { result ≡ lacks_century self.now }
    {
        let shows_more = any_shows(self, Component::Year) || any_shows(self, Component::Century);
        any_shows(self, Component::YearOfCentury) && !shows_more
    }

    /// Returns the format as a format that also reads variants of the texts that it prints.
    pub fn lenient(self) -> LenientFormat
        ensures items { result.format ≡ self }
        ensures pivot { result.pivot ≡ None }
    {
        LenientFormat {
            format: self,
            pivot: None,
        }
    }
}

impl LenientFormat {
    /// Returns the format with a pivot, the first of the 100 years that two digits of a year may
    /// mean. With the pivot 1970, `%y` reads `70` as 1970 and `69` as 2069. The maximum pivot is
    /// 9900.
    pub fn with_pivot(self, year: u16) -> LenientFormat
        ensures items { result.format ≡ self.format }
        ensures pivot { result.pivot ≡ Some year }
    {
        LenientFormat {
            format: self.format,
            pivot: Some(year),
        }
    }

    /// Returns the items that determine the value: the items that are read and, with a pivot, the
    /// century. Returns `None` if two values could have the same text, or if the pivot doesn't fit.
    /// `%D` with the pivot 1970 has the century and the items of `%D`.
    pub fn known_items(&self) -> Option<Format>
        ensures some { IsSome result ↔ CanRead self.now }
        ensures items { IfSome result (λ items. items ≡ items_of self.now) }
    {
        if !are_leniently_apart(self.format.items()) {
            return None;
        }
        let mut known = Format::empty();
        if let Some(pivot) = self.pivot {
            let fits = self.format.lacks_century() && self.format.items().len() < 64;
            if pivot > 9_900 || !fits {
                return None;
            }
            known.push(Item::Number(Component::Century, Padding::Zero));
        }
        known.extend(self.format.items());
        Some(known)
    }
}

/// Returns `true` if no variant of an item goes on into the variants of the items after it.
fn are_leniently_apart(items: &[Item]) -> bool
    ensures { result ≡ are_leniently_apart items.now }
{
    match items {
        [] => true,
        [item, others @ ..] => item.ends_leniently(others) && are_leniently_apart(others),
    }
}

impl Item {
    /// Returns `true` if no variant of the item goes on into the variants of these items.
    fn ends_leniently(self, others: &[Item]) -> bool
        ensures { result ≡ ends_leniently self others.now }
    {
        match self {
            Item::Literal(byte) => {
                !is_space(byte)
                    || (none_begins(5, 9, true, others) && none_begins(1, 32, true, others))
            }
            Item::Number(component, padding) => !(component.is_free() || padding == Padding::None)
                || none_begins(10, 48, false, others),
            Item::Signed(_, Padding::None) | Item::Decimals => none_begins(10, 48, false, others),
            Item::Name(_) => none_begins(26, 65, false, others)
                && none_begins(26, 97, false, others),
            Item::Fraction => none_begins(10, 48, false, others)
                && none_begins(1, 46, false, others),
            Item::OffsetMinus | Item::TimestampMinus => none_begins(1, 45, false, others),
            _ => true,
        }
    }

    /// Returns `true` if the byte may begin a variant of the item.
    fn begins(self, after: bool, byte: u8) -> bool
        ensures { result ≡ item_begins after self byte }
    {
        match self {
            Item::Literal(literal) => {
                if is_space(literal) {
                    !after && is_space(byte)
                } else {
                    byte == literal
                }
            }
            Item::Number(component, padding) => {
                is_digit(byte)
                    || (byte == b' '
                        && padding == Padding::Space
                        && !(component.is_free() && after))
            }
            Item::Signed(_, _) => byte == b'+',
            Item::Name(_) => is_letter(byte),
            Item::Fraction => byte == b'.',
            Item::Decimals => is_digit(byte),
            Item::OffsetSign | Item::TimestampSign => byte == b'+' || byte == b'-',
            Item::OffsetMinus | Item::TimestampMinus => byte == b'-',
            Item::Abbreviation => false,
        }
    }

    /// Returns `true` if the item may have an empty text.
    fn may_be_empty(self, after: bool) -> bool
        ensures { result ≡ may_be_empty after self }
    {
        match self {
            Item::Literal(byte) => is_space(byte) && after,
            Item::Fraction | Item::OffsetMinus | Item::TimestampMinus | Item::Abbreviation => true,
            _ => false,
        }
    }
}

/// Returns `true` if none of `count` bytes from `low` on may begin the items.
fn none_begins(count: u8, low: u8, after: bool, items: &[Item]) -> bool
    requires { low + count < 256 }
    ensures { result ≡ none_begins count low after items.now }
{
    if count == 0 {
        return true;
    }
    !can_begin(after, items, low) && none_begins(count - 1, low + 1, after, items)
}

/// Returns `true` if the byte may begin a variant of the items.
fn can_begin(after: bool, items: &[Item], byte: u8) -> bool
    ensures { result ≡ can_begin after items.now byte }
{
    match items {
        [] => false,
        [item, others @ ..] => {
            item.begins(after, byte)
                || (item.may_be_empty(after) && can_begin(item.is_white(), others, byte))
        }
    }
}

fn is_digit(byte: u8) -> bool
    ensures { result ≡ is_digit byte }
{
    48 <= byte && byte <= 57
}
