//! Rounding of times of day, date-times, also in a zone, and durations to multiples of a unit.
#![tactic(auto)]

mod date_time;
mod duration;
mod in_zone;
pub mod laws;
mod magnitude;
mod next_start;
mod rounding_mode;
mod rounding_unit;
mod time;
pub mod unchecked;

pub use date_time::{round_date_time, round_offset_date_time};
pub use duration::round_duration;
pub use in_zone::round_zoned;
pub use rounding_mode::RoundingMode;
pub use rounding_unit::RoundingUnit;
pub use time::round_time;
