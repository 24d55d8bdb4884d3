//! Dates of the proleptic Gregorian calendar, counted one day at a time.
//!
//! Each conversion is proved to equal this count, and to fail if and only if no day of the range
//! matches.
#![tactic(auto)]

mod date;
pub mod day_number;
pub mod error;
pub mod iter;
pub mod kernel;
pub mod laws;
pub mod limits;

pub use date::Date;
pub use iter::DateIter;
pub use kernel::{JulianKernel, date_of_kernel, julian_kernel};
