//! The calendar: dates, times of day, offsets from UTC, durations, months and weekdays.
//!
//! The names are the names of the crate `time`. Dates are from -999999-01-01 to 999999-12-31, in
//! the proleptic Gregorian calendar of ISO 8601 with its year 0. Each call is proved to return the
//! exact result, and to fail if and only if it doesn't exist.
#![tactic(auto)]

pub mod error;
pub mod iter;
mod laws;
mod pair;
pub mod util;

pub use cal_clock::{Time, UtcOffset};
pub use cal_date::{Date, limits};
pub use cal_span::SignedDuration;
pub use cal_units::{Counted, Cycle, Month, ShortText, Weekday, extent, is_rising, nth_in};
pub use pair::{add_to_pair, sub_from_pair};
