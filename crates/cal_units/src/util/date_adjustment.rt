//! The change of day when a time of day is moved.

/// A change of day when a time of day is moved by a duration.
///
/// Two hours after 23:00 it is 1:00 on the `Next` day, and two hours before 1:00 it is 23:00 on the
/// `Previous` day. Two hours after 12:00 it is 14:00 on the same day: `None`.
#[derive(Clone, Copy, Debug, PartialEq, Eq)]
pub enum DateAdjustment {
    /// The day before.
    Previous,
    /// The day after.
    Next,
    /// The same day.
    None,
}
