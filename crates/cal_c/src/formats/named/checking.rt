//! The formats and names whose strings read back.
ghost use Rattle.std.specs.Prelude.{◌≡◌, List};
ghost use Rattle.cal_format.specs.declared.item.Item.{Item};
ghost use Rattle.cal_c.specs.Formats.{HasItems, IsFormat};
ghost use Rattle.cal_c.specs.NamedFormats.{AreNames, IsCheckOf, WithNames, check_error, names_item, names_status};

use super::names_parts::NamesParts;
use crate::formats::format_parts::FormatParts;
use crate::status::{AMBIGUOUS_NAMES, AMBIGUOUS_NUMBER, INVALID_FORMAT, INVALID_NAMES, OK};
use cal_named_format::{NamesError, check_names};

/// Why two values could have the same string in a format with names.
#[repr(C)]
#[derive(Clone, Copy, Debug)]
pub struct NamesCheckResult {
    pub status: i32,
    /// The first byte with which a number goes on, or 0.
    pub byte: u32,
    /// The index of the item in the format, or the maximum.
    pub item: usize,
    /// The index of a name in its table, or the maximum.
    pub name: usize,
    /// The index of the other name, or the maximum.
    pub other: usize,
}

impl NamesCheckResult {
    /// Returns the result of a status without an item.
    fn error(status: i32) -> Self
        ensures { result ≡ check_error status }
    {
        NamesCheckResult {
            status,
            byte: 0,
            item: usize::MAX,
            name: usize::MAX,
            other: usize::MAX,
        }
    }
}

/// Returns the status of an error, and the index of its item.
pub(super) fn names_status_and_item(error: NamesError) -> (i32, usize)
    ensures { (result.0 ≡ names_status error) × (result.1 ≡ names_item error) }
{
    match error {
        NamesError::AmbiguousNames(item, _, _) => (AMBIGUOUS_NAMES, item),
        NamesError::AmbiguousNumber(item, _) => (AMBIGUOUS_NUMBER, item),
    }
}

/// Checks that each string of a format with these names has one value, like `check_names`. Fails
/// for the first item that can be read in two ways, with two names of its table, or with the first
/// byte with which its number goes on. In Japanese, the number of `%-d%B` goes on with `1`.
#[unsafe(no_mangle)]
pub extern "C" fn fots_names_check(format: &FormatParts, names: &NamesParts<'_>) -> NamesCheckResult
    ensures invalid_format { ¬ IsFormat format.now → result ≡ check_error INVALID_FORMAT }
    ensures invalid_names { IsFormat format.now → ¬ AreNames names.now
        → result ≡ check_error INVALID_NAMES }
    ensures value { AreNames names.now → (items : List Item) → HasItems format.now items
        → WithNames names.now (λ t. IsCheckOf items t result) }
{
    let format = or_error!(NamesCheckResult, format.to_format(), INVALID_FORMAT);
    let names = or_error!(NamesCheckResult, names.to_names(), INVALID_NAMES);
    match check_names(format.items(), &names) {
        Ok(()) => NamesCheckResult::error(OK),
        Err(NamesError::AmbiguousNames(item, name, other)) => NamesCheckResult {
            status: AMBIGUOUS_NAMES,
            byte: 0,
            item,
            name,
            other,
        },
        Err(NamesError::AmbiguousNumber(item, byte)) => NamesCheckResult {
            status: AMBIGUOUS_NUMBER,
            byte: u32::from(byte),
            item,
            name: usize::MAX,
            other: usize::MAX,
        },
    }
}
