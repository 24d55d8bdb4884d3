//! The sentences of components of a string that are out of range: `day 29 is out of range 1 to 28
//! (February 2023)` for `2023-02-29`.
//!
//! [`string_sentence`] is for strings of ISO 8601 and RFC 3339, and [`format_sentence`] for those of a
//! format.
#![tactic(auto)]

mod formats;
mod parts;
mod shown;

pub use formats::{format_sentence, lenient_sentence};
pub use shown::string_sentence;
