//! Durations and periods in text (ISO 8601-1, with the sign and the weeks of ISO 8601-2).
#![tactic(auto)]

mod digits;
pub mod duration;
mod error;
mod form;
mod from_numbers;
mod laws;
mod numbers;
pub mod period;
mod text;

pub use digits::scan_number;
pub use error::{DurationComponent, ParseDurationError};
pub use form::scan_body;
pub use from_numbers::period_from_numbers;
pub use numbers::{DateNumbers, Numbers, TimeNumbers};
