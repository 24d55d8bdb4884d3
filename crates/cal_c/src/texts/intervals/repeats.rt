//! Periods repeated from a date.
ghost use Rattle.std.specs.Prelude.{◌≡◌, ℕ, Option};
ghost use Rattle.cal_text.specs.Position.{HasSome};
ghost use Rattle.cal_interval.specs.Form.{HasDateInterval, HasRepeated};
ghost use Rattle.cal_interval.specs.Parsing.{HasError};
ghost use Rattle.cal_interval.specs.Values.{IsDateIntervalError, IsRepeatedDatesText, IsRepeatedError};
ghost use Rattle.cal_interval.specs.declared.date.interval.DateInterval.{DateInterval};
ghost use Rattle.cal_interval.specs.declared.error.IntervalComponent.{IntervalComponent};
ghost use Rattle.cal_c.specs.Intervals.{count_or_none, interval_part_status, of_interval_error, repeated_dates_error_at, repeated_dates_ok, IsRepeatedDatesResult};
ghost use Rattle.cal_c.specs.Texts.{no_position, IsSyntaxError};

use super::{interval_status, part_status};
use crate::schedule::pair_periods::ExactPeriodResult;
use crate::schedule::periods::PeriodParts;
use crate::status::{OK, UNEXPECTED_BYTE, UNEXPECTED_END};
use cal_interval::ParseIntervalError;
use cal_interval::date::{self, DateInterval, RepeatedDates};

/// A parsed repetition: its start, its period and the number of its occurrences, which is 0 without an
/// end; or a position as for a date. After an error the start is `i32::MIN`, and each part of the
/// period the minimum. The unused number is 0.
#[repr(C)]
#[derive(Clone, Copy, Debug)]
pub struct ParseRepeatedDatesResult {
    pub status: i32,
    pub start: i32,
    pub count: u32,
    pub unused: u32,
    pub period: PeriodParts,
    pub position: usize,
}

/// Returns a number of occurrences, or 0 without an end.
pub(super) fn count_or_none(count: Option<u32>) -> u32
    ensures { result ≡ count_or_none count }
{
    match count {
        Some(count) => count,
        None => 0,
    }
}

impl ParseRepeatedDatesResult {
    fn ok(repeated: RepeatedDates) -> Self
        ensures { result ≡ repeated_dates_ok repeated }
    {
        ParseRepeatedDatesResult {
            status: OK,
            start: repeated.start.to_julian_day(),
            count: count_or_none(repeated.count),
            unused: 0,
            period: ExactPeriodResult::ok(repeated.period).period,
            position: usize::MAX,
        }
    }

    fn error(error: ParseIntervalError) -> Self
        ensures { result ≡ of_interval_error repeated_dates_error_at error }
    {
        interval_error_result!(error)
    }

    fn error_at(status: i32, position: usize) -> Self
        ensures { result ≡ repeated_dates_error_at status position }
    {
        ParseRepeatedDatesResult {
            status,
            start: i32::MIN,
            count: 0,
            unused: 0,
            period: ExactPeriodResult::error(status).period,
            position,
        }
    }
}

/// Parses a repeated interval of dates, such as `R12/2024-01-31/P1M`, or `R/2024-01-31/P1M` without
/// an end, and returns its start, its period and the number of its occurrences. The n-th one after
/// the start is that of `fots_date_nth_period`. An interval of two dates repeats its number of days.
/// Fails if the number is 0 or too large, if the start is missing, if the end is before the start,
/// and if the period has a duration or isn't positive.
#[unsafe(no_mangle)]
pub extern "C" fn fots_repeated_dates_parse(text: &[u8]) -> ParseRepeatedDatesResult
    ensures value { (v : Option ℕ × DateInterval) → IsRepeatedDatesText text.now v
        → IsRepeatedDatesResult v result }
    ensures syntax_error { ¬ HasSome (HasRepeated HasDateInterval) text.now
        → IsSyntaxError (HasSome (HasRepeated HasDateInterval)) text.now repeated_dates_error_at result }
    ensures out_of_range { (why : IntervalComponent)
        → HasError (HasRepeated HasDateInterval) (IsRepeatedError IsDateIntervalError) text.now why
        → result ≡ repeated_dates_error_at (interval_part_status why) no_position }
{
    let (count, interval) = or_return!(
        date::parse_repeated(text),
        error => ParseRepeatedDatesResult::error(error)
    );
    repeated_result(count, interval)
}

/// Returns the result of a repeated interval.
fn repeated_result(count: Option<u64>, interval: DateInterval) -> ParseRepeatedDatesResult
    ensures { IsRepeatedDatesResult (count, interval) result }
{
    match RepeatedDates::new(count, interval) {
        Ok(repeated) => ParseRepeatedDatesResult::ok(repeated),
        Err(error) => ParseRepeatedDatesResult::error_at(interval_status(error), usize::MAX),
    }
}
