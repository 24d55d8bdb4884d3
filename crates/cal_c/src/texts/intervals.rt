//! Intervals in text (ISO 8601), with errors of parsing as for a date.
ghost use Rattle.std.specs.Prelude.{◌≡◌};
ghost use Rattle.cal_c.specs.Intervals.{interval_part_status, interval_status};

/// Returns the result of a parser's error for an interval: the status of a wrong form with its
/// position, or the status of a part.
macro_rules! interval_error_result {
    ($error:expr) => {
        match $error {
            ParseIntervalError::UnexpectedByte(position) => {
                Self::error_at(UNEXPECTED_BYTE, position)
            }
            ParseIntervalError::UnexpectedEnd(position) => Self::error_at(UNEXPECTED_END, position),
            ParseIntervalError::OutOfRange(part) => Self::error_at(part_status(part), usize::MAX),
        }
    };
}

pub mod laws;
mod ranges;
mod repeated_pairs;
mod repeats;

use crate::status::{
    COUNT_OUT_OF_RANGE, END_BEFORE_START, MISSING_START, PERIOD_HAS_DURATION, PERIOD_NOT_POSITIVE,
    RESULT_OUT_OF_RANGE, error_status,
};
use crate::texts::durations;
use cal_interval::{IntervalComponent, IntervalError};

/// Returns the status of a part of an interval that is out of range.
fn part_status(part: IntervalComponent) -> i32
    ensures { result ≡ interval_part_status part }
{
    match part {
        IntervalComponent::End(error) => error_status(error),
        IntervalComponent::Period(part) => durations::part_status(part),
    }
}

/// Returns the status of an interval without a range, or that can't be repeated.
fn interval_status(error: IntervalError) -> i32
    ensures { result ≡ interval_status error }
{
    match error {
        IntervalError::EndBeforeStart => END_BEFORE_START,
        IntervalError::HasDuration => PERIOD_HAS_DURATION,
        IntervalError::OutOfRange => RESULT_OUT_OF_RANGE,
        IntervalError::MissingStart => MISSING_START,
        IntervalError::NotPositive => PERIOD_NOT_POSITIVE,
        IntervalError::CountOutOfRange => COUNT_OUT_OF_RANGE,
    }
}
