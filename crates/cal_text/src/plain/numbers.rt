//! The numbers of a date-time in text.

use crate::date_numbers::DateNumbers;
use crate::time::numbers::TimeNumbers;

/// The numbers of a date-time in text. They need not be in range.
#[derive(Clone, Copy, Debug)]
pub struct PlainNumbers {
    /// The numbers of the date.
    pub date: DateNumbers,
    /// The numbers of the time of day.
    pub time: TimeNumbers,
}
