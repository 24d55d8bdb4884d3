//! Columns of dates plus months.
ghost use Rattle.std.specs.Prelude.{◌≡◌, length, ◌∷◌, []};
ghost use Rattle.cal_c.specs.Columns.{int_at, nat_at, SameLength, AreRows, date_row, IsDateMonthsLater};
ghost use Rattle.cal_c.specs.Values.{need◌else◌then◌};

use super::constructors::error_row;
use super::{LENGTH_MISMATCH, count_errors};
use crate::day_number::{clamped_number, is_julian_day, julian_day};
use crate::status::{INVALID_DATE, OK, RESULT_OUT_OF_RANGE};
use cal_schedule::day_number::{clamped_date_in_month, month_number_and_day};
use cal_time::limits::MONTHS;

/// The index of the last month of the range.
const LAST_MONTH: u32 = MONTHS - 1;

/// Adds months to dates, like `fots_date_add_months`.
#[unsafe(no_mangle)]
pub extern "C" fn fots_dates_add_months(
    dates: &[i32],
    months: &[i32],
    moved: &mut [i32],
    statuses: &mut [u8],
) -> usize
    ensures { need SameLength (length dates.now) (length months.now ∷ length moved.old ∷ length statuses.old ∷ [])
        else (result ≡ usize.MAX) × (moved.new ≡ moved.old) × (statuses.new ≡ statuses.old) then
        AreRows statuses.new result (λ k. IsDateMonthsLater (int_at dates.now k)
        (int_at months.now k) (date_row (int_at moved.new k) (nat_at statuses.new k))) }
{
    write_rows!(date_months_later(dates, months) => moved; statuses)
}

/// Returns the row of a date plus months.
fn date_months_later(date: i32, months: i32) -> (i32, u8)
    ensures { IsDateMonthsLater date months (date_row result.0 result.1) }
{
    let (index, day) = month_number_and_day(clamped_number(date));
    // A negative sum wraps to a number far above the last month.
    let index = index.wrapping_add(months.cast_unsigned());
    let later = clamped_date_in_month(index.min(LAST_MONTH), day);
    if !is_julian_day(date) {
        error_row(INVALID_DATE as u8)
    } else if index > LAST_MONTH {
        error_row(RESULT_OUT_OF_RANGE as u8)
    } else {
        (julian_day(later), OK as u8)
    }
}
