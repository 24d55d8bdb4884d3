//! Dates, times of day and date-times in the formats of ISO 8601 that people's data has: basic and
//! extended, with the letter T or a space, and with a comma or a point.
#![tactic(auto)]

mod clock;
pub mod date;
mod fraction;
mod offset;
pub mod offset_date_time;
pub mod plain;
pub mod time;
