//! The lowest layer of the calendar: errors, lengths of years and months, months and weekdays, and
//! endless iterators over them.
//!
//! Years are years of the proleptic Gregorian calendar, with a year 0 before the year 1. Weeks are
//! weeks of ISO 8601.
#![tactic(auto)]

mod counted;
mod cycle;
pub mod error;
pub mod iter;
mod laws;
mod month;
mod steps;
mod text;
pub mod util;
mod weekday;

pub use counted::{Counted, extent, is_rising};
pub use cycle::Cycle;
pub use month::Month;
pub use steps::nth_in;
pub use text::ShortText;
pub use weekday::Weekday;
