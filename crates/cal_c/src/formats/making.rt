//! Formats from strings.
//!
//! A call fails at the first byte that is not UTF-8, at a position where no item begins, or for
//! more than 64 items.
ghost use Rattle.cal_format.specs.declared.item.Syntax.TheVariants.{Percent, Brackets};
ghost use Rattle.cal_c.specs.Formats.{IsFormatOf};

use super::results::FormatResult;
use crate::status::UNEXPECTED_BYTE;
use cal_format::Format;
use std::str::from_utf8;

/// Creates a format from a string in the syntax of `strftime`, such as `%d/%m/%Y`.
#[unsafe(no_mangle)]
pub extern "C" fn fots_format_new(text: &[u8]) -> FormatResult
    ensures { IsFormatOf Percent text.now result }
{
    match from_utf8(text) {
        Ok(text) => FormatResult::from_result(Format::new(text)),
        Err(error) => FormatResult::error_at(UNEXPECTED_BYTE, error.valid_up_to()),
    }
}

/// Creates a format from a string in the syntax of `time`, such as `[day]/[month]/[year]`.
#[unsafe(no_mangle)]
pub extern "C" fn fots_format_from_description(text: &[u8]) -> FormatResult
    ensures { IsFormatOf Brackets text.now result }
{
    match from_utf8(text) {
        Ok(text) => FormatResult::from_result(Format::from_description(text)),
        Err(error) => FormatResult::error_at(UNEXPECTED_BYTE, error.valid_up_to()),
    }
}
