//! Errors of periods added to dates.

/// Why a period can't be added to a date.
#[derive(Clone, Copy, Debug, PartialEq, Eq, Hash)]
pub enum PeriodError {
    /// The period has an exact duration, and a date has no time of day.
    HasDuration,
    /// The resulting date is out of range.
    OutOfRange,
}
