//! Columns of dates plus working days, and of working days between dates.
ghost use Rattle.std.specs.Prelude.{◌≡◌, IfErr, IfOk, length, pos, ◌∷◌, []};
ghost use Rattle.cal_schedule.specs.Workdays.{nth_workday};
ghost use Rattle.cal_c.specs.CheckedWorkdays.{week_of, AreCounted, IsDateLaterInView, IsDateWorkdaysLater, IsNumberBetweenInView, IsSomeDate, IsWorkdaysBetween};
ghost use Rattle.cal_c.specs.Columns.{int_at, nat_at, SameLength, AreRows, date_row, number_row, IsByte};
ghost use Rattle.cal_c.specs.Results.{date_or_out_of_range, date_error, number_ok, number_error};
ghost use Rattle.cal_c.specs.Values.{need◌else◌then◌, IsJulianDay, day_of};
ghost use Rattle.cal_c.specs.Weekmasks.{workdays_between};

use super::statuses::byte_status;
use super::{LENGTH_MISMATCH, NO_VALUE, count_errors};
use crate::day_number::{day_number, julian_day};
use crate::schedule::workdays::checked_workdays::CheckedWorkdays;
use crate::schedule::workdays::ranks::RankedWorkdays;
use crate::schedule::workdays::workdays_view::WorkdaysView;
use crate::status::{INVALID_DATE, OK, RESULT_OUT_OF_RANGE};

/// Adds working days to dates, like `fots_workdays_add`.
#[unsafe(no_mangle)]
pub extern "C" fn fots_workdays_add_dates(
    workdays: &CheckedWorkdays,
    dates: &[i32],
    days: &[i32],
    moved: &mut [i32],
    statuses: &mut [u8],
) -> usize
    ensures { need SameLength (length dates.now) (length days.now ∷ length moved.old ∷ length statuses.old ∷ [])
        else (result ≡ usize.MAX) × (moved.new ≡ moved.old) × (statuses.new ≡ statuses.old) then
        AreRows statuses.new result (λ k. IsDateWorkdaysLater workdays.now (int_at dates.now k)
        (int_at days.now k) (date_row (int_at moved.new k) (nat_at statuses.new k))) }
{
    let ranked = RankedWorkdays::new(workdays);
    write_rows!(add_row(dates, days; &ranked) => moved; statuses)
}

/// Counts the working days between dates, like `fots_workdays_between`.
#[unsafe(no_mangle)]
pub extern "C" fn fots_workdays_between_dates(
    workdays: &CheckedWorkdays,
    dates: &[i32],
    others: &[i32],
    numbers: &mut [i32],
    statuses: &mut [u8],
) -> usize
    ensures { need SameLength (length dates.now) (length others.now ∷ length numbers.old ∷ length statuses.old ∷ [])
        else (result ≡ usize.MAX) × (numbers.new ≡ numbers.old) × (statuses.new ≡ statuses.old) then
        AreRows statuses.new result (λ k. IsWorkdaysBetween workdays.now (int_at dates.now k)
        (int_at others.now k) (number_row (int_at numbers.new k) (nat_at statuses.new k))) }
{
    let ranked = RankedWorkdays::new(workdays);
    write_rows!(between_row(dates, others; &ranked) => numbers; statuses)
}

/// Adds working days of a view to dates, like `fots_workdays_view_add`.
#[unsafe(no_mangle)]
pub extern "C" fn fots_workdays_view_add_dates(
    workdays: &WorkdaysView<'_>,
    dates: &[i32],
    days: &[i32],
    moved: &mut [i32],
    statuses: &mut [u8],
) -> usize
    ensures { need SameLength (length dates.now) (length days.now ∷ length moved.old ∷ length statuses.old ∷ [])
        else (result ≡ usize.MAX) × (moved.new ≡ moved.old) × (statuses.new ≡ statuses.old) then
        AreRows statuses.new result (λ k. IsDateLaterInView workdays.now (int_at dates.now k)
        (int_at days.now k) (date_row (int_at moved.new k) (nat_at statuses.new k))) }
{
    let ranked = RankedWorkdays::from_view(workdays);
    write_rows!(add_row(dates, days; &ranked) => moved; statuses)
}

/// Counts the working days of a view between dates, like `fots_workdays_view_between`.
#[unsafe(no_mangle)]
pub extern "C" fn fots_workdays_view_between_dates(
    workdays: &WorkdaysView<'_>,
    dates: &[i32],
    others: &[i32],
    numbers: &mut [i32],
    statuses: &mut [u8],
) -> usize
    ensures { need SameLength (length dates.now) (length others.now ∷ length numbers.old ∷ length statuses.old ∷ [])
        else (result ≡ usize.MAX) × (numbers.new ≡ numbers.old) × (statuses.new ≡ statuses.old) then
        AreRows statuses.new result (λ k. IsNumberBetweenInView workdays.now (int_at dates.now k)
        (int_at others.now k) (number_row (int_at numbers.new k) (nat_at statuses.new k))) }
{
    let ranked = RankedWorkdays::from_view(workdays);
    write_rows!(between_row(dates, others; &ranked) => numbers; statuses)
}

/// Returns the row of a date plus working days.
fn add_row(date: i32, days: i32, workdays: &Result<RankedWorkdays<'_>, i32>) -> (i32, u8)
    ensures error { IfErr workdays.now (λ status. IsByte status
        → date_row result.0 result.1 ≡ date_error status) }
    ensures invalid_date { IfOk workdays.now (λ c. ¬ IsJulianDay date
        → date_row result.0 result.1 ≡ date_error INVALID_DATE) }
    ensures any { IfOk workdays.now (λ c. IsJulianDay date → IsSomeDate (date_row result.0 result.1)) }
    ensures value { IfOk workdays.now (λ c. AreCounted c → IsJulianDay date → date_row result.0 result.1
        ≡ date_or_out_of_range (nth_workday (week_of c) days (day_of date))) }
{
    let workdays = or_return!(workdays, status => (NO_VALUE, byte_status(*status)));
    let day = or_return!(day_number(date), (NO_VALUE, INVALID_DATE as u8));
    match workdays.add(day, days) {
        Some(day) => (julian_day(day), OK as u8),
        None => (NO_VALUE, RESULT_OUT_OF_RANGE as u8),
    }
}

/// Returns the row of the working days between two dates.
fn between_row(date: i32, other: i32, workdays: &Result<RankedWorkdays<'_>, i32>) -> (i32, u8)
    ensures error { IfErr workdays.now (λ status. IsByte status
        → number_row result.0 result.1 ≡ number_error status) }
    ensures invalid_date { IfOk workdays.now (λ c. ¬ (IsJulianDay date × IsJulianDay other)
        → number_row result.0 result.1 ≡ number_error INVALID_DATE) }
    ensures any { IfOk workdays.now (λ c. IsJulianDay date → IsJulianDay other
        → pos result.1 ≡ OK) }
    ensures value { IfOk workdays.now (λ c. AreCounted c → IsJulianDay date → IsJulianDay other
        → number_row result.0 result.1
        ≡ number_ok (workdays_between (week_of c) (day_of date) (day_of other))) }
{
    let workdays = or_return!(workdays, status => (NO_VALUE, byte_status(*status)));
    let day = or_return!(day_number(date), (NO_VALUE, INVALID_DATE as u8));
    let other = or_return!(day_number(other), (NO_VALUE, INVALID_DATE as u8));
    (workdays.between(day, other), OK as u8)
}
