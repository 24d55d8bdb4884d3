//! A format as numbers.
ghost use Rattle.std.specs.Prelude.{◌≡◌, ◌+◌, ◌<◌, ◌≤◌, ◌++◌, ℕ, List, None, Some, IfSome, IsTrue, length, take, map};
ghost use Rattle.cal_format.specs.declared.item.Item.{Item};
ghost use Rattle.cal_c.specs.Formats.{HasItems, format_of, item_parts, no_format};

use super::items::{item_parts, item_with};
use cal_format::{Format, Item};

/// The maximum number of items.
const MAX: usize = 64;

/// A kind and a number, which are 0 after the last item.
const NO_ITEM: FormatItem = FormatItem { kind: 0, value: 0 };

/// An item of a format: its kind, and a number for what it shows.
#[repr(C)]
#[derive(Clone, Copy, Debug, PartialEq, Eq)]
pub struct FormatItem {
    /// 0 for a byte, 1 to 3 for a number with zeros, with spaces or without padding, 4 for a name,
    /// 5 for a fraction, 6 for the sign of the offset, 7 for the sign of the Unix time, 8 for the
    /// digits of a fraction, 9 for the abbreviation of a zone.
    pub kind: u8,
    /// The byte, the component or the name, or 0.
    pub value: u8,
}

/// A format: as many items as its length says.
#[repr(C)]
#[derive(Clone, Copy, Debug)]
pub struct FormatParts {
    pub length: u32,
    pub items: [FormatItem; MAX],
}

impl FormatParts {
    /// Returns the numbers of a format.
    pub(super) fn from_format(format: &Format) -> Self
        ensures { result ≡ format_of format.now }
    {
        let items = format.items();
        FormatParts {
            length: items.len() as u32,
            items: all_item_parts(items),
        }
    }

    /// Returns the numbers for a string that is not a format. They are not a format either.
    pub(super) fn invalid() -> Self
        ensures { result ≡ no_format }
    {
        FormatParts {
            length: u32::MAX,
            items: [NO_ITEM; MAX],
        }
    }

    /// Returns the numbers of the items, or `None` if the length is more than 64.
    #[inline(always)]
    pub(super) fn parts(&self) -> Option<&[FormatItem]>
        ensures few { IfSome result (λ _. self.now.length ≤ 64) }
        ensures value { IfSome result (λ parts. parts.now ≡ take self.now.length self.now.items) }
        ensures length { IfSome result (λ parts. length parts.now ≡ self.now.length) }
        ensures none { result ≡ None → 64 < self.now.length }
    {
        let length = self.length as usize;
        if length > MAX {
            return None;
        }
        Some(&self.items[..length])
    }

    /// Returns the format of these numbers, or `None` if they are not a format.
    pub fn to_format(&self) -> Option<Format>
        ensures every { (items : List Item) → HasItems self.now items → result ≡ Some items }
        ensures value { IfSome result (HasItems self.now) }
    {
        let parts = self.parts()?;
        let mut format = Format::empty();
        if push_items(&mut format, parts) {
            Some(format)
        } else {
            None
        }
    }
}

/// Returns the numbers of items.
fn all_item_parts(items: &[Item]) -> [FormatItem; MAX]
    requires { length items.now ≤ 64 }
    ensures { result ≡ (format_of items.now).items }
{
    let mut parts = [NO_ITEM; MAX];
    for index in 0..items.len() {
        parts[index] = item_parts(items[index]);
    }
    parts
}

/// Appends the items with these numbers, or returns `false` if one of them is not an item.
fn push_items(format: &mut Format, parts: &[FormatItem]) -> bool
    requires { length format.old + length parts.now ≤ 64 }
    ensures every { (items : List Item) → parts.now ≡ map item_parts items
        → IsTrue result × (format.new ≡ format.old ++ items) }
    ensures value { IsTrue result → ((items : List Item) × (parts.now ≡ map item_parts items)
        × (format.new ≡ format.old ++ items)) }
{
    match parts {
        [] => true,
        [part, others @ ..] => match item_with(*part) {
            Some(item) => format.try_push(item) && push_items(format, others),
            None => false,
        },
    }
}
