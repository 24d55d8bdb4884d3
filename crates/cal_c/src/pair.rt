//! Pairs of a date and a time of day.
ghost use Rattle.std.specs.Prelude.{◌≡◌, ◌+ℤ◌, ◌-ℤ◌};
ghost use Rattle.cal_time.specs.Pair.{pair_number};
ghost use Rattle.cal_time.specs.Time.{IsTime};
ghost use Rattle.cal_c.specs.Results.{pair_error, IsPairOrOutOfRange};
ghost use Rattle.cal_c.specs.Values.{need◌else◌then◌, IsJulianDay, IsDurationPair, day_of, nanoseconds_in};

use crate::results::{Duration, PairResult};
use crate::status::{INVALID_DATE, INVALID_DURATION, INVALID_TIME};
use crate::values::{valid_date, valid_duration, valid_time};
use cal_time::{add_to_pair, sub_from_pair};

/// Adds a duration to a date and a time. Fails if the resulting date is out of range. 2 hours after
/// 2000-02-29 23:00 it is 2000-03-01 1:00.
#[unsafe(no_mangle)]
pub extern "C" fn fots_add_to_pair(date: i32, time: u64, duration: Duration) -> PairResult
    ensures { need IsJulianDay date else result ≡ pair_error INVALID_DATE then
        need IsTime time else result ≡ pair_error INVALID_TIME then
        need IsDurationPair duration else result ≡ pair_error INVALID_DURATION then
        IsPairOrOutOfRange (pair_number (day_of date) time +ℤ nanoseconds_in duration) result }
{
    let date = or_error!(PairResult, valid_date(date), INVALID_DATE);
    let time = or_error!(PairResult, valid_time(time), INVALID_TIME);
    let duration = or_error!(PairResult, valid_duration(duration), INVALID_DURATION);
    PairResult::from_option(add_to_pair(date, time, duration))
}

/// Subtracts a duration from a date and a time. Fails if the resulting date is out of range. 2
/// hours before 2000-03-01 1:00 it is 2000-02-29 23:00.
#[unsafe(no_mangle)]
pub extern "C" fn fots_sub_from_pair(date: i32, time: u64, duration: Duration) -> PairResult
    ensures { need IsJulianDay date else result ≡ pair_error INVALID_DATE then
        need IsTime time else result ≡ pair_error INVALID_TIME then
        need IsDurationPair duration else result ≡ pair_error INVALID_DURATION then
        IsPairOrOutOfRange (pair_number (day_of date) time -ℤ nanoseconds_in duration) result }
{
    let date = or_error!(PairResult, valid_date(date), INVALID_DATE);
    let time = or_error!(PairResult, valid_time(time), INVALID_TIME);
    let duration = or_error!(PairResult, valid_duration(duration), INVALID_DURATION);
    PairResult::from_option(sub_from_pair(date, time, duration))
}
