//! Columns of dates plus days.
ghost use Rattle.std.specs.Prelude.{◌≡◌, ℕ, ◌<◌, ◌≤◌, ◌+ℤ◌, length, get_or, pos, ◌∷◌, []};
ghost use Rattle.std.specs.Int.{int_min, int_max};
ghost use Rattle.cal_time.specs.Date.{last_day};
ghost use Rattle.cal_time.specs.Arithmetic.{IsDateNumber};
ghost use Rattle.cal_c.specs.Columns.{int_at, nat_at, SameLength, AreRows, date_row, IsDateDaysLater};
ghost use Rattle.cal_c.specs.Values.{need◌else◌then◌};

use super::{LENGTH_MISMATCH, NO_VALUE, count_errors};
use crate::day_number::{LAST_DAY_NUMBER, clamped_number, is_julian_day, julian_day};
use crate::status::{INVALID_DATE, OK, RESULT_OUT_OF_RANGE};

/// The number of rows whose days are clamped at once.
const CLAMPED: usize = 256;

/// Adds days to dates, like `fots_date_add_days`.
#[unsafe(no_mangle)]
pub extern "C" fn fots_dates_add_days(
    dates: &[i32],
    days: &[i64],
    moved: &mut [i32],
    statuses: &mut [u8],
) -> usize
    ensures { need SameLength (length dates.now) (length days.now ∷ length moved.old ∷ length statuses.old ∷ [])
        else (result ≡ usize.MAX) × (moved.new ≡ moved.old) × (statuses.new ≡ statuses.old) then
        AreRows statuses.new result (λ k. IsDateDaysLater (int_at dates.now k) (int_at days.now k)
        (date_row (int_at moved.new k) (nat_at statuses.new k))) }
{
    let rows = dates.len();
    if days.len() != rows || moved.len() != rows || statuses.len() != rows {
        return LENGTH_MISMATCH;
    }
    // Not in `moved`, which may be the array of the dates.
    let mut clamped = [0; CLAMPED];
    let mut start = 0;
    while start < rows {
        let end = rows.min(start + CLAMPED);
        clamp_days(&days[start..end], &mut clamped);
        for row in start..end {
            (moved[row], statuses[row]) = date_days_later(dates[row], clamped[row - start]);
        }
        start = end;
    }
    count_errors(statuses)
}

/// Clamps the days of each row to 32 bits. Days that don't fit go past the range either way. Only
/// this loop has rows of 64 bits, so the next one takes twice as many rows at a time.
fn clamp_days(days: &[i64], held: &mut [i32])
    requires { length days.now ≤ length held.old }
    ensures length { length held.new ≡ length held.old }
    ensures rows { (k : ℕ) → k < length days.now
        → get_or held.new k (pos 0)
        ≡ int_min (int_max (get_or days.now k (pos 0)) i32.MIN) i32.MAX }
{
    for row in 0..days.len() {
        held[row] = days[row].max(i64::from(i32::MIN)).min(i64::from(i32::MAX)) as i32;
    }
}

/// Returns the row of a date plus days.
fn date_days_later(date: i32, days: i32) -> (i32, u8)
    ensures { IsDateDaysLater date days (date_row result.0 result.1) }
{
    let moved = wrapped_day_number(clamped_number(date), days);
    if !is_julian_day(date) {
        (NO_VALUE, INVALID_DATE as u8)
    } else if moved > LAST_DAY_NUMBER {
        (NO_VALUE, RESULT_OUT_OF_RANGE as u8)
    } else {
        (julian_day(moved), OK as u8)
    }
}

/// Returns the number of a day plus days, or a number after the last day if it is out of range.
fn wrapped_day_number(number: u32, days: i32) -> u32
    requires { number ≤ last_day }
    ensures value { IsDateNumber (pos number +ℤ days) → pos result ≡ pos number +ℤ days }
    ensures past { ¬ IsDateNumber (pos number +ℤ days) → last_day < result }
{
    // A negative sum wraps to a number far above the last day.
    number.wrapping_add(days.cast_unsigned())
}
