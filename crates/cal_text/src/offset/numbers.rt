//! The numbers of an offset in text.

/// The numbers of an offset in text. They need not be in range.
#[derive(Clone, Copy, Debug)]
pub struct OffsetNumbers {
    /// `true` for a minus sign: west of UTC.
    pub is_negative: bool,
    /// The hours.
    pub hours: u8,
    /// The minutes past the hours.
    pub minutes: u8,
    /// The seconds past the minutes.
    pub seconds: u8,
}

impl OffsetNumbers {
    /// The numbers of the letter Z.
    pub const UTC: OffsetNumbers = OffsetNumbers {
        is_negative: false,
        hours: 0,
        minutes: 0,
        seconds: 0,
    };
}
