//! Periods repeated from a local date-time.
ghost use Rattle.std.specs.Prelude.{◌≡◌, ℕ, Option};
ghost use Rattle.cal_text.specs.Position.{HasSome};
ghost use Rattle.cal_interval.specs.Form.{HasDateTimeInterval, HasRepeated};
ghost use Rattle.cal_interval.specs.Parsing.{HasError};
ghost use Rattle.cal_interval.specs.Values.{IsDateTimeIntervalError, IsRepeatedDateTimesText, IsRepeatedError};
ghost use Rattle.cal_interval.specs.declared.error.IntervalComponent.{IntervalComponent};
ghost use Rattle.cal_interval.specs.declared.plain.interval.DateTimeInterval.{DateTimeInterval};
ghost use Rattle.cal_c.specs.Intervals.{interval_part_status, of_interval_error, repeated_pairs_error_at, repeated_pairs_ok, IsRepeatedPairsResult};
ghost use Rattle.cal_c.specs.Texts.{no_position, IsSyntaxError};

use super::repeats::count_or_none;
use super::{interval_status, part_status};
use crate::schedule::pair_periods::ExactPeriodResult;
use crate::schedule::periods::PeriodParts;
use crate::status::{OK, UNEXPECTED_BYTE, UNEXPECTED_END};
use crate::values::nanoseconds_since_midnight;
use cal_interval::ParseIntervalError;
use cal_interval::plain::{self, DateTimeInterval, RepeatedDateTimes};

/// A parsed repetition: the date and the time of its start, its period and the number of its
/// occurrences, which is 0 without an end; or a position as for a date. After an error the date is
/// `i32::MIN`, the time `u64::MAX`, and each part of the period the minimum. The unused number is 0.
#[repr(C)]
#[derive(Clone, Copy, Debug)]
pub struct ParseRepeatedPairsResult {
    pub status: i32,
    pub start_date: i32,
    pub start_time: u64,
    pub count: u32,
    pub unused: u32,
    pub period: PeriodParts,
    pub position: usize,
}

impl ParseRepeatedPairsResult {
    fn ok(repeated: RepeatedDateTimes) -> Self
        ensures { result ≡ repeated_pairs_ok repeated }
    {
        ParseRepeatedPairsResult {
            status: OK,
            start_date: repeated.start.date().to_julian_day(),
            start_time: nanoseconds_since_midnight(repeated.start.time()),
            count: count_or_none(repeated.count),
            unused: 0,
            period: ExactPeriodResult::ok(repeated.period).period,
            position: usize::MAX,
        }
    }

    fn error(error: ParseIntervalError) -> Self
        ensures { result ≡ of_interval_error repeated_pairs_error_at error }
    {
        interval_error_result!(error)
    }

    fn error_at(status: i32, position: usize) -> Self
        ensures { result ≡ repeated_pairs_error_at status position }
    {
        ParseRepeatedPairsResult {
            status,
            start_date: i32::MIN,
            start_time: u64::MAX,
            count: 0,
            unused: 0,
            period: ExactPeriodResult::error(status).period,
            position,
        }
    }
}

/// Parses a repeated interval of dates and times, such as `R12/2024-01-31T09:00/P1M`, or
/// `R/2024-01-31T09:00/PT8H` without an end, and returns its start, its period and the number of its
/// occurrences. The n-th one after the start is that of `fots_pair_nth_period`. An interval of two
/// date-times repeats its exact duration. Fails if the number is 0 or too large, if the start is
/// missing, if the end is before the start, and if the period isn't positive.
#[unsafe(no_mangle)]
pub extern "C" fn fots_repeated_pairs_parse(text: &[u8]) -> ParseRepeatedPairsResult
    ensures value { (v : Option ℕ × DateTimeInterval) → IsRepeatedDateTimesText text.now v
        → IsRepeatedPairsResult v result }
    ensures syntax_error { ¬ HasSome (HasRepeated HasDateTimeInterval) text.now
        → IsSyntaxError (HasSome (HasRepeated HasDateTimeInterval)) text.now repeated_pairs_error_at result }
    ensures out_of_range { (why : IntervalComponent)
        → HasError (HasRepeated HasDateTimeInterval) (IsRepeatedError IsDateTimeIntervalError) text.now why
        → result ≡ repeated_pairs_error_at (interval_part_status why) no_position }
{
    let (count, interval) = or_return!(
        plain::parse_repeated(text),
        error => ParseRepeatedPairsResult::error(error)
    );
    repeated_result(count, interval)
}

/// Returns the result of a repeated interval.
fn repeated_result(count: Option<u64>, interval: DateTimeInterval) -> ParseRepeatedPairsResult
    ensures { IsRepeatedPairsResult (count, interval) result }
{
    match RepeatedDateTimes::new(count, interval) {
        Ok(repeated) => ParseRepeatedPairsResult::ok(repeated),
        Err(error) => ParseRepeatedPairsResult::error_at(interval_status(error), usize::MAX),
    }
}
