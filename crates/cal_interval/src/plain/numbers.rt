//! The numbers of an interval of local date-times in a string.

use cal_duration::Numbers;
use cal_text::PlainNumbers;

/// The numbers of an interval of local date-times in a string. They need not be in range.
#[derive(Clone, Copy)]
pub(crate) enum DateTimeIntervalNumbers {
    /// A start and an end.
    StartAndEnd(PlainNumbers, PlainNumbers),
    /// A start and a period.
    StartAndPeriod(PlainNumbers, Numbers),
    /// A period and an end.
    PeriodAndEnd(Numbers, PlainNumbers),
}
