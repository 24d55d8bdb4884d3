//! A string that a scan finds.

use cal_text::DateOrMoment;
use caldate_lines::no_answer::NoAnswer;

/// A string in a line.
#[derive(Clone, Copy)]
pub struct FoundText {
    /// The index of its first byte in the line.
    pub place: usize,
    /// Its number of bytes.
    pub count: usize,
    /// The date or the moment that it is read as, or why it has none.
    pub read: Result<DateOrMoment, NoAnswer>,
}
