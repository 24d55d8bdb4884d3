//! The numbers of an interval of dates in a string.

use cal_duration::Numbers;
use cal_text::DateNumbers;

/// The numbers of an interval of dates in a string. They need not be in range.
#[derive(Clone, Copy)]
pub(crate) enum DateIntervalNumbers {
    /// A start and an end.
    StartAndEnd(DateNumbers, DateNumbers),
    /// A start and a period.
    StartAndPeriod(DateNumbers, Numbers),
    /// A period and an end.
    PeriodAndEnd(Numbers, DateNumbers),
}
