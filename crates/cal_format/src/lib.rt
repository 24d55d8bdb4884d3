//! Dates, times of day, offsets and date-times as texts of a format that is chosen when the program
//! runs.
//!
//! A [`Format`] is made from a text in the syntax of `strftime` or of the crate `time`. A
//! [`DateFormat`], [`TimeFormat`], [`OffsetFormat`], [`DateTimeFormat`] or [`OffsetDateTimeFormat`]
//! also parses: it accepts exactly the texts that the format prints of the values that it holds. It
//! checks a weekday beside a date, and rejects other spellings and other bytes after the value. A
//! [`ParseError`] says why.
#![tactic(auto)]

/// Returns a format for values of one type if these items show components within a range and pass
/// these tests, or `None`.
macro_rules! determining {
    ($items:ident, [$low:tt..$high:ident] $($shows:ident),+ => $format:expr) => {{
        if $items.is_apart()
            && $items.is_within($low, $high)
            $(&& $shows(&$items))+
        {
            Some($format)
        } else {
            None
        }
    }};
}

mod date_parts;
mod description;
mod determines;
mod directive;
mod error;
mod fields;
mod form;
mod form_names;
mod format;
mod item;
mod laws;
mod lenient;
mod lenient_formats;
mod lenient_parsing;
mod letters;
mod moment;
mod numbers;
mod numbers_of_texts;
mod offset_parts;
mod one_pass;
mod parsing;
mod print;
mod ranges;
mod shown;
mod time_parts;
mod timestamp;
mod value;
mod value_formats;
mod variants;

pub use determines::any_shows;
pub use error::ParseError;
pub use fields::Fields;
pub use format::{Format, FormatError};
pub use item::{Component, Item, Name, Padding, Syntax};
pub use lenient::LenientFormat;
pub use lenient_formats::{
    LenientDateFormat, LenientDateTimeFormat, LenientOffsetDateTimeFormat, LenientTimeFormat,
};
pub use moment::Moment;
pub use print::print_items;
pub use value_formats::{
    DateFormat, DateTimeFormat, OffsetDateTimeFormat, OffsetFormat, TimeFormat,
};
