//! Date-times in a zone: an instant and a zone, seen as what its clocks show.
//!
//! Days, weeks, months and years move what the clocks show, and durations move the instant.
#![tactic(auto)]

mod day;
pub mod laws;
mod period;
mod steps;
pub mod unchecked;
mod until;
mod zoned_date_time;
mod zoned_steps;

pub use day::start_of_day;
pub use period::{checked_add_period, nth_period};
pub use steps::{Steps, step_of};
pub use until::period_until;
pub use zoned_date_time::ZonedDateTime;
pub use zoned_steps::ZonedSteps;
