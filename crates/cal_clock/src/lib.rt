//! Times of day with nanosecond precision, and offsets from UTC.
#![tactic(auto)]

mod laws;
mod time;
mod units;
mod utc_offset;

pub use time::Time;
pub use utc_offset::UtcOffset;
