//! Iterators over days, and endless iterators over months and weekdays.

pub use cal_date::iter::DateIter;
pub use cal_units::iter::{CycleIter, MonthIter, Rev, WeekdayIter};
