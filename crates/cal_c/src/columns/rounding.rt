//! Columns of times of day, and of dates and times, rounded to multiples of a unit.
ghost use Rattle.std.specs.Prelude.{◌≡◌, length, ◌∷◌, []};
ghost use Rattle.cal_c.specs.Columns.{int_at, nat_at, SameLength, AreRows};
ghost use Rattle.cal_c.specs.DurationColumns.{pair_row, time_row};
ghost use Rattle.cal_c.specs.Rounding.{IsPairRoundedTo, IsTimeRoundedTo};
ghost use Rattle.cal_c.specs.Values.{need◌else◌then◌};

use super::statuses::byte_status;
use super::{LENGTH_MISMATCH, count_errors};
use crate::results::Duration;
use crate::rounding::{fots_pair_round, fots_time_round};

/// Rounds times of day to multiples of a unit, like `fots_time_round`.
#[unsafe(no_mangle)]
pub extern "C" fn fots_times_round(
    times: &[u64],
    unit: Duration,
    mode: u32,
    rounded_times: &mut [u64],
    statuses: &mut [u8],
) -> usize
    ensures { need SameLength (length times.now) (length rounded_times.old ∷ length statuses.old ∷ [])
        else (result ≡ usize.MAX) × (rounded_times.new ≡ rounded_times.old)
        × (statuses.new ≡ statuses.old) then
        AreRows statuses.new result (λ k. IsTimeRoundedTo (nat_at times.now k) unit mode
        (time_row (nat_at rounded_times.new k) (nat_at statuses.new k))) }
{
    write_rows!(rounded_time(times; unit, mode) => rounded_times; statuses)
}

/// Returns the row of a rounded time of day.
fn rounded_time(time: u64, unit: Duration, mode: u32) -> (u64, u8)
    ensures { IsTimeRoundedTo time unit mode (time_row result.0 result.1) }
{
    let rounded = fots_time_round(time, unit, mode);
    (rounded.time, byte_status(rounded.status))
}

/// Rounds the times of day of dates and times, like `fots_pair_round`.
#[unsafe(no_mangle)]
pub extern "C" fn fots_pairs_round(
    dates: &[i32],
    times: &[u64],
    unit: Duration,
    mode: u32,
    rounded_dates: &mut [i32],
    rounded_times: &mut [u64],
    statuses: &mut [u8],
) -> usize
    ensures { need SameLength (length dates.now) (length times.now ∷ length rounded_dates.old ∷ length rounded_times.old ∷ length statuses.old ∷ [])
        else (result ≡ usize.MAX) × (rounded_dates.new ≡ rounded_dates.old)
        × (rounded_times.new ≡ rounded_times.old) × (statuses.new ≡ statuses.old) then
        AreRows statuses.new result (λ k. IsPairRoundedTo (int_at dates.now k) (nat_at times.now k)
        unit mode (pair_row (int_at rounded_dates.new k) (nat_at rounded_times.new k)
        (nat_at statuses.new k))) }
{
    write_rows!(rounded_pair(dates, times; unit, mode) => rounded_dates, rounded_times; statuses)
}

/// Returns the row of a rounded date and time.
fn rounded_pair(date: i32, time: u64, unit: Duration, mode: u32) -> (i32, u64, u8)
    ensures { IsPairRoundedTo date time unit mode (pair_row result.0 result.1 result.2) }
{
    let rounded = fots_pair_round(date, time, unit, mode);
    (rounded.date, rounded.time, byte_status(rounded.status))
}
