//! The numbers of a moment in text.

use crate::offset::numbers::OffsetNumbers;
use crate::plain::numbers::PlainNumbers;

/// The numbers of a moment in text. They need not be in range.
#[derive(Clone, Copy, Debug)]
pub struct OffsetDateTimeNumbers {
    /// The numbers of the local date-time.
    pub local: PlainNumbers,
    /// The numbers of the offset.
    pub offset: OffsetNumbers,
}
