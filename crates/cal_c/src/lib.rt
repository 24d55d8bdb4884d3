//! The calendar for C: calls over `cal_time`, `cal_datetime`, `cal_format`, `cal_schedule` and
//! `cal_text`, for any arguments that C can pass.
//!
//! Values are plain numbers: a date is its Julian day, a time of day its nanoseconds since
//! midnight, an offset its seconds, a duration its seconds and nanoseconds, a month is from 1 to
//! 12, and a weekday from 1, Monday, to 7, Sunday.
//!
//! A call returns its value with a status. If it fails, the status names the first invalid
//! argument, in parameter order, or else the error of the call: a component out of range, such as
//! `month`, or a result out of range. No call keeps a pointer, allocates, or has a state.
#![tactic(auto)]

/// Returns the value, or makes the function return `$answer`.
macro_rules! or_return {
    ($option:expr, $answer:expr) => {
        match $option {
            Some(value) => value,
            None => return $answer,
        }
    };
    ($result:expr, $error:pat => $answer:expr) => {
        match $result {
            Ok(value) => value,
            Err($error) => return $answer,
        }
    };
}

/// Returns the value, or makes the function return the result of a status.
macro_rules! or_error {
    ($answer:ident, $option:expr, $status:expr) => {
        match $option {
            Some(value) => value,
            None => return $answer::error($status),
        }
    };
}

/// Returns the result of a value, or the result of its error.
macro_rules! ok_or_error {
    ($answer:ident, $made:expr) => {
        match $made {
            Ok(made) => $answer::ok(made),
            Err(error) => $answer::error($crate::status::error_status(error)),
        }
    };
}

/// Returns the result of a parser's error: the status of a wrong form with its position, or the
/// status of a component.
macro_rules! parse_error_result {
    ($error:expr) => {
        match $error {
            cal_text::ParseError::UnexpectedByte(position) => {
                Self::error_at($crate::status::UNEXPECTED_BYTE, position)
            }
            cal_text::ParseError::UnexpectedEnd(position) => {
                Self::error_at($crate::status::UNEXPECTED_END, position)
            }
            cal_text::ParseError::OutOfRange(error) => {
                Self::error_at($crate::status::error_status(error), usize::MAX)
            }
        }
    };
}

mod columns;
mod cycle;
mod date;
mod day_number;
mod duration;
mod errors;
mod formats;
mod laws;
mod moment;
mod offset;
mod pair;
mod results;
mod rounding;
mod schedule;
mod status;
mod texts;
mod time;
mod values;
mod version;
mod zones;
