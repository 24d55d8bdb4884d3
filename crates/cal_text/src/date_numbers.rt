//! The numbers of a date in text.

pub(crate) mod parsing;

pub(crate) use parsing::{parse_numbers, scan_date};

/// The numbers of a date in text, by its form. They need not be in range.
#[derive(Clone, Copy, Debug)]
pub enum DateNumbers {
    /// A year, a month and a day of the month.
    Calendar(i32, u8, u8),
    /// A year and an ordinal.
    Ordinal(i32, u16),
    /// An ISO year, a week and the number of a weekday.
    Week(i32, u8, u8),
}
