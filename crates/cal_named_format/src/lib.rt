//! Formats with the names of a language in place of the English names.
//!
//! [`print`] prints any format. [`parse_date`] and the like accept exactly the strings that a format
//! prints of the values that it holds, if [`check_names`] returns `Ok` for the format and the names.
#![tactic(auto)]

mod error;
mod formats;
mod parsing;
mod printing;
mod reading;
mod scanning;

pub use error::NamesError;
pub use formats::{parse_date, parse_date_time, parse_offset_date_time, parse_time};
pub use printing::print;
pub use reading::check_names;
pub use scanning::{table_counts, table_of};
