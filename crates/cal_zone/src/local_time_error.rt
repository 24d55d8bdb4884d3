//! Errors of readings that mean no date-time.

/// An error: a reading means no date-time by a policy.
#[derive(Clone, Copy, Debug, PartialEq, Eq)]
pub enum LocalTimeError {
    /// The policy rejects a reading in a gap.
    Skipped,
    /// The policy rejects a reading in a fold.
    Repeated,
    /// The result is out of range.
    OutOfRange,
}
