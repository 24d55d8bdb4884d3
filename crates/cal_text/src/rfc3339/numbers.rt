//! The numbers of a moment in text.

/// The numbers of a moment in text. They need not be in range.
#[derive(Clone, Copy, Debug)]
pub struct Numbers {
    /// The year.
    pub year: u16,
    /// The month.
    pub month: u8,
    /// The day of the month.
    pub day: u8,
    /// The hour.
    pub hour: u8,
    /// The minute.
    pub minute: u8,
    /// The second.
    pub second: u8,
    /// The nanoseconds past the second.
    pub nanosecond: u32,
    /// The offset.
    pub offset: TimeOffset,
}

/// The offset of a moment in text.
#[derive(Clone, Copy, Debug)]
pub enum TimeOffset {
    /// The letter Z.
    Utc,
    /// `true` for a minus sign, the hours and the minutes.
    Signed(bool, u8, u8),
}
