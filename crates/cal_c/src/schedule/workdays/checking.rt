//! Holidays checked and counted once.
ghost use Rattle.std.specs.Prelude.{◌≡◌, ◌↔◌, ℕ, ◌+◌, ◌<◌, ◌≤◌, Ok, Err, IfOk, IsTrue, SomeIff, length, get_or, pos, take};
ghost use Rattle.cal_time.specs.Date.{last_day};
ghost use Rattle.cal_schedule.specs.WorkdaysSplit.{marked_count};
ghost use Rattle.cal_c.specs.CheckedWorkdays.{counted, counted_in, week_of, AreCounted, HasLimits, HavePlaces, IsChecked, IsNext};
ghost use Rattle.cal_c.specs.Results.{number_error, number_ok};
ghost use Rattle.cal_c.specs.Values.{need◌else◌then◌, IsJulianDay, max_dates};
ghost use Rattle.cal_c.specs.Weekmasks.{weekmask_in, work_week, AreHolidays, IsWeekmask};

use crate::day_number::{is_julian_day, wrapped_number};
use crate::results::NumberResult;
use crate::schedule::workdays::checked_workdays::{
    CheckedWorkdays, MAX, MAX_INDEXES, WorkdaysResult,
};
use crate::status::{INVALID_HOLIDAYS, INVALID_WEEKMASK, OK, TOO_MANY_HOLIDAYS};

/// A weekmask that each call rejects.
const NO_WEEKMASK: u32 = u32::MAX;

/// The most holidays: one on each day of the range.
const MOST_HOLIDAYS: usize = 730_484_634;

/// Returns `true` if there can be so many holidays, and if an array has one place more than they.
pub(super) fn have_places(holidays: usize, places: usize) -> bool
    ensures { IsTrue result ↔ HavePlaces holidays places }
{
    holidays <= MOST_HOLIDAYS && places == holidays + 1
}

/// Returns the marks of a number, or `None` if it is above 127.
pub(super) fn valid_weekmask(weekmask: u32) -> Option<[bool; 7]>
    ensures { SomeIff result (IsWeekmask weekmask) (weekmask_in weekmask) }
{
    if weekmask >= 128 {
        return None;
    }
    Some([
        weekmask % 2 == 1,
        weekmask / 2 % 2 == 1,
        weekmask / 4 % 2 == 1,
        weekmask / 8 % 2 == 1,
        weekmask / 16 % 2 == 1,
        weekmask / 32 % 2 == 1,
        weekmask / 64 % 2 == 1,
    ])
}

/// Returns `true` if the number at an index is the Julian day of a date, and greater than the number
/// before it.
fn is_next(holidays: &[i32], index: usize) -> bool
    requires { index < length holidays.now }
    ensures { IsTrue result ↔ IsNext holidays.now index }
{
    let holiday = holidays[index];
    if !is_julian_day(holiday) {
        return false;
    }
    index == 0 || holidays[index - 1] < holiday
}

/// Returns `true` if numbers are the Julian days of dates, in ascending order.
fn are_holidays(holidays: &[i32]) -> bool
    ensures { IsTrue result ↔ AreHolidays holidays.now }
{
    for index in 0..holidays.len() {
        if !is_next(holidays, index) {
            return false;
        }
    }
    true
}

/// Writes the number of holidays with a marked weekday before each index.
fn count_marked(weekmask: u32, marks: [bool; 7], holidays: &[i32], marked_before: &mut [u32])
    requires weekmask { IsWeekmask weekmask × (marks ≡ weekmask_in weekmask) }
    requires holidays { AreHolidays holidays.now × (length holidays.now ≤ last_day + 1) }
    requires length { length holidays.now < length marked_before.old }
    ensures { (i : ℕ) → i ≤ length holidays.now
        → get_or marked_before.new i 0 ≡ marked_count (work_week weekmask holidays.now) i }
{
    let mut marked = 0;
    marked_before[0] = 0;
    for index in 0..holidays.len() {
        marked += u32::from(marks[(wrapped_number(holidays[index]) % 7) as usize]);
        marked_before[index + 1] = marked;
    }
}

/// Returns the marks of a weekmask with holidays, or the status of the first error.
fn checked_marks(weekmask: u32, holidays: &[i32]) -> Result<[bool; 7], i32>
    ensures invalid_weekmask { ¬ IsWeekmask weekmask → result ≡ Err INVALID_WEEKMASK }
    ensures too_many_holidays { IsWeekmask weekmask → max_dates < length holidays.now
        → result ≡ Err TOO_MANY_HOLIDAYS }
    ensures invalid_holidays { IsWeekmask weekmask → length holidays.now ≤ max_dates
        → ¬ AreHolidays holidays.now → result ≡ Err INVALID_HOLIDAYS }
    ensures value { IsWeekmask weekmask → length holidays.now ≤ max_dates
        → AreHolidays holidays.now → result ≡ Ok (weekmask_in weekmask) }
    ensures valid { IfOk result (λ marks. IsWeekmask weekmask × (length holidays.now ≤ max_dates)
        × AreHolidays holidays.now × (marks ≡ weekmask_in weekmask)) }
{
    let marks = or_return!(valid_weekmask(weekmask), Err(INVALID_WEEKMASK));
    if holidays.len() > MAX {
        return Err(TOO_MANY_HOLIDAYS);
    }
    if !are_holidays(holidays) {
        return Err(INVALID_HOLIDAYS);
    }
    Ok(marks)
}

impl CheckedWorkdays {
    /// Creates working days without holidays.
    fn without_holidays(weekmask: u32) -> Self
        ensures { result.weekmask ≡ weekmask }
    {
        CheckedWorkdays {
            weekmask,
            holidays_length: 0,
            holidays: [0; MAX],
            marked_before: [0; MAX_INDEXES],
        }
    }

    /// Creates working days from valid holidays, and counts those with a marked weekday.
    fn from_valid(weekmask: u32, marks: [bool; 7], holidays: &[i32]) -> Self
        requires weekmask { IsWeekmask weekmask × (marks ≡ weekmask_in weekmask) }
        requires holidays { (length holidays.now ≤ max_dates) × AreHolidays holidays.now }
        ensures { IsChecked result × (week_of (counted_in result) ≡ work_week weekmask holidays.now) }
    {
        let mut held = [0; MAX];
        held[..holidays.len()].copy_from_slice(holidays);
        let mut marked_before = [0; MAX_INDEXES];
        count_marked(weekmask, marks, holidays, &mut marked_before);
        CheckedWorkdays {
            weekmask,
            holidays_length: holidays.len() as u32,
            holidays: held,
            marked_before,
        }
    }
}

/// Checks a weekmask and holidays once for many calls. If they are invalid, so is the result, and
/// each call rejects it.
#[unsafe(no_mangle)]
pub extern "C" fn fots_workdays_new(weekmask: u32, holidays: &[i32]) -> WorkdaysResult
    ensures invalid_weekmask { ¬ IsWeekmask weekmask → result.status ≡ INVALID_WEEKMASK }
    ensures too_many_holidays { IsWeekmask weekmask → max_dates < length holidays.now
        → result.status ≡ TOO_MANY_HOLIDAYS }
    ensures invalid_holidays { IsWeekmask weekmask → length holidays.now ≤ max_dates
        → ¬ AreHolidays holidays.now → result.status ≡ INVALID_HOLIDAYS }
    ensures value { IsWeekmask weekmask → length holidays.now ≤ max_dates
        → AreHolidays holidays.now → (result.status ≡ OK) × IsChecked result.workdays
        × (week_of (counted_in result.workdays) ≡ work_week weekmask holidays.now) }
    ensures rejected { (¬ (result.status ≡ OK)) → ¬ IsWeekmask result.workdays.weekmask }
{
    match checked_marks(weekmask, holidays) {
        Ok(marks) => WorkdaysResult {
            status: OK,
            workdays: CheckedWorkdays::from_valid(weekmask, marks, holidays),
        },
        Err(status) => WorkdaysResult {
            status,
            workdays: CheckedWorkdays::without_holidays(NO_WEEKMASK),
        },
    }
}

/// Checks a weekmask and any number of holidays once for a view, and writes the number of holidays
/// with a marked weekday before each index. Returns the number of all of these. Fails unless the
/// holidays are dates in ascending order, and the second array has one place more than they. After
/// an error the array is as it was. From 2460310, Sunday 2023-12-31, and 2460311, with the marks
/// 31, it writes 0, 0 and 1.
#[unsafe(no_mangle)]
pub extern "C" fn fots_workdays_view_count(
    weekmask: u32,
    holidays: &[i32],
    marked_before: &mut [u32],
) -> NumberResult
    ensures { need IsWeekmask weekmask
        else (result ≡ number_error INVALID_WEEKMASK) × (marked_before.new ≡ marked_before.old) then
        need HavePlaces (length holidays.now) (length marked_before.old)
        else (result ≡ number_error INVALID_HOLIDAYS) × (marked_before.new ≡ marked_before.old) then
        need AreHolidays holidays.now
        else (result ≡ number_error INVALID_HOLIDAYS) × (marked_before.new ≡ marked_before.old) then
        HasLimits (counted weekmask holidays.now marked_before.new)
        × AreCounted (counted weekmask holidays.now marked_before.new)
        × (result ≡ number_ok (pos (marked_count (work_week weekmask holidays.now) (length holidays.now)))) }
{
    let marks = or_error!(NumberResult, valid_weekmask(weekmask), INVALID_WEEKMASK);
    let length = holidays.len();
    if !have_places(length, marked_before.len()) {
        return NumberResult::error(INVALID_HOLIDAYS);
    }
    if !are_holidays(holidays) {
        return NumberResult::error(INVALID_HOLIDAYS);
    }
    count_marked(weekmask, marks, holidays, marked_before);
    NumberResult::ok(marked_before[length] as i32)
}
