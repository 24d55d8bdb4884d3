//! The numbers of a time of day in text.

/// The numbers of a time of day in text. They need not be in range.
#[derive(Clone, Copy, Debug)]
pub struct TimeNumbers {
    /// The hour.
    pub hour: u8,
    /// The minute.
    pub minute: u8,
    /// The second.
    pub second: u8,
    /// The nanoseconds past the second.
    pub nanosecond: u32,
}
