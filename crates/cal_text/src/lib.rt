//! Dates and moments in text: ISO 8601, Julian days, RFC 3339 and Unix times. Times of day, offsets
//! and date-times in text.
//!
//! A text parses as a date exactly if the date prints it in one of the forms.
#![tactic(auto)]

mod any;
pub mod date;
mod date_numbers;
mod digits;
mod error;
mod fraction;
pub mod julian_day;
mod laws;
pub mod offset;
pub mod offset_date_time;
pub mod plain;
pub mod rfc3339;
mod scanner;
pub mod time;
pub mod unix;
mod year;

pub use any::{DateForm, DateOrMoment, MomentForm, parse_any};
pub use date::from_numbers::date_from_numbers;
pub use date_numbers::DateNumbers;
pub use date_numbers::parsing::scan_date;
pub use digits::scan_positive_number;
pub use error::ParseError;
pub use fraction::{push_fraction, scan_more_decimals};
pub use offset::numbers::OffsetNumbers;
pub use offset_date_time::from_numbers::moment_from_numbers;
pub use offset_date_time::numbers::OffsetDateTimeNumbers;
pub use plain::form::scan_plain;
pub use plain::from_numbers::plain_from_numbers;
pub use plain::numbers::PlainNumbers;
pub use rfc3339::form::scan_separator;
pub use scanner::Scanner;
pub use time::from_numbers::time_from_numbers;
pub use time::numbers::TimeNumbers;
