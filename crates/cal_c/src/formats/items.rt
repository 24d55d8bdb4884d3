//! Items of a format as numbers.
ghost use Rattle.std.specs.Prelude.{◌≡◌, Some, IfSome, SomeIff};
ghost use Rattle.cal_format.specs.declared.item.Item.{Item};
ghost use Rattle.cal_c.specs.Formats.{item_parts, padding_kind};

use super::components::component_with;
use super::format_parts::FormatItem;
use super::names::{name_number, name_with};
use cal_format::{Item, Padding};

/// Returns the kind of a number.
fn padding_kind(padding: Padding) -> u8
    ensures { result ≡ padding_kind padding }
{
    match padding {
        Padding::Zero => 1,
        Padding::Space => 2,
        Padding::None => 3,
    }
}

/// Returns the kind and the number of an item.
pub(super) fn item_parts(item: Item) -> FormatItem
    ensures { result ≡ item_parts item }
{
    let (kind, value) = match item {
        Item::Literal(byte) => (0, byte),
        Item::Number(component, padding) => (padding_kind(padding), component.index() as u8),
        Item::Name(name) => (4, name_number(name)),
        Item::Fraction => (5, 0),
        Item::OffsetSign => (6, 0),
        Item::TimestampMinus => (7, 0),
        Item::Decimals => (8, 0),
        Item::Abbreviation => (9, 0),
        Item::Signed(component, padding) => (9 + padding_kind(padding), component.index() as u8),
        Item::OffsetMinus => (13, 0),
        Item::TimestampSign => (14, 0),
    };
    FormatItem { kind, value }
}

/// Returns the item with a kind and a number, or `None`.
pub(super) fn item_with(part: FormatItem) -> Option<Item>
    ensures every { (item : Item) → part ≡ item_parts item → result ≡ Some item }
    ensures value { IfSome result (λ item. part ≡ item_parts item) }
{
    match part.kind {
        0 => Some(Item::Literal(part.value)),
        1 => Some(Item::Number(component_with(part.value)?, Padding::Zero)),
        2 => Some(Item::Number(component_with(part.value)?, Padding::Space)),
        3 => Some(Item::Number(component_with(part.value)?, Padding::None)),
        4 => Some(Item::Name(name_with(part.value)?)),
        5 => single_item(part.value, Item::Fraction),
        6 => single_item(part.value, Item::OffsetSign),
        7 => single_item(part.value, Item::TimestampMinus),
        8 => single_item(part.value, Item::Decimals),
        9 => single_item(part.value, Item::Abbreviation),
        10 => Some(Item::Signed(component_with(part.value)?, Padding::Zero)),
        11 => Some(Item::Signed(component_with(part.value)?, Padding::Space)),
        12 => Some(Item::Signed(component_with(part.value)?, Padding::None)),
        13 => single_item(part.value, Item::OffsetMinus),
        14 => single_item(part.value, Item::TimestampSign),
        _ => None,
    }
}

/// Returns the item of a kind that has no numbers but 0.
fn single_item(value: u8, item: Item) -> Option<Item>
    ensures { SomeIff result (value ≡ 0) item }
{
    if value == 0 { Some(item) } else { None }
}
