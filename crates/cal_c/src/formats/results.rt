//! Results of calls for formats.
ghost use Rattle.std.specs.Prelude.{◌≡◌, List, Ok, Err};
ghost use Rattle.cal_format.specs.declared.format.FormatError.{FormatError};
ghost use Rattle.cal_format.specs.declared.item.Item.{Item};
ghost use Rattle.cal_c.specs.Formats.{format_error, format_error_at, format_ok};
ghost use Rattle.cal_c.specs.FormatTexts.{length_error, length_ok, too_short};

use super::format_parts::FormatParts;
use crate::status::{BUFFER_TOO_SHORT, OK, TOO_MANY_ITEMS, UNKNOWN_ITEM};
use cal_format::{Format, FormatError};

/// A format, or the position at which no item begins.
#[repr(C)]
#[derive(Clone, Copy, Debug)]
pub struct FormatResult {
    pub status: i32,
    pub format: FormatParts,
    pub position: usize,
}

/// The length of a string.
#[repr(C)]
#[derive(Clone, Copy, Debug)]
pub struct LengthResult {
    pub status: i32,
    /// 0, in place of padding.
    pub unused: u32,
    pub length: usize,
}

impl FormatResult {
    pub fn from_result(format: Result<Format, FormatError>) -> Self
        ensures ok { (items : List Item) → format ≡ Ok items → result ≡ format_ok items }
        ensures error { (why : FormatError) → format ≡ Err why → result ≡ format_error why }
    {
        match format {
            Ok(format) => FormatResult {
                status: OK,
                format: FormatParts::from_format(&format),
                position: usize::MAX,
            },
            Err(FormatError::UnknownItem(position)) => Self::error_at(UNKNOWN_ITEM, position),
            Err(FormatError::TooLong) => Self::error_at(TOO_MANY_ITEMS, usize::MAX),
        }
    }

    pub fn error_at(status: i32, position: usize) -> Self
        ensures { result ≡ format_error_at status position }
    {
        FormatResult {
            status,
            format: FormatParts::invalid(),
            position,
        }
    }
}

impl LengthResult {
    pub fn ok(length: usize) -> Self
        ensures { result ≡ length_ok length }
    {
        LengthResult {
            status: OK,
            unused: 0,
            length,
        }
    }

    pub fn error(status: i32) -> Self
        ensures { result ≡ length_error status }
    {
        LengthResult {
            status,
            unused: 0,
            length: 0,
        }
    }

    /// Returns the result of a string of this length that a buffer has no room for.
    pub fn too_short(length: usize) -> Self
        ensures { result ≡ too_short length }
    {
        LengthResult {
            status: BUFFER_TOO_SHORT,
            unused: 0,
            length,
        }
    }
}
