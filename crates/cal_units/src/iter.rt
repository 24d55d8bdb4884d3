//! Endless iterators over the months and the weekdays, forward and backward.
use crate::month::Month;
use crate::weekday::Weekday;

mod backward;
mod forward;

pub use backward::Rev;
pub use forward::CycleIter;

/// An endless iterator over the months.
pub type MonthIter = CycleIter<Month>;

/// An endless iterator over the weekdays.
pub type WeekdayIter = CycleIter<Weekday>;
