//! Working days: the days with a marked weekday, except the holidays.
//!
//! A weekmask is a sum of 1 for Monday, 2 for Tuesday, 4, 8, 16, 32, and 64 for Sunday;
//! 31 is Monday to Friday. The holidays are dates in ascending order, at most 1024 in a struct and any
//! number in a view.

mod adjusting;
mod calls;
pub mod checked_workdays;
mod checking;
pub mod ranks;
mod sorting;
pub mod workdays_view;
