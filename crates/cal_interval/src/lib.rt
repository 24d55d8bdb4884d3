//! Intervals and repeated intervals as strings (ISO 8601-1), of dates or of local date-times.
#![tactic(auto)]

pub mod date;
mod error;
pub mod laws;
mod period;
pub mod plain;

pub use error::{IntervalComponent, IntervalError, ParseIntervalError};
