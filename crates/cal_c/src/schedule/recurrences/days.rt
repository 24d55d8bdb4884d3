//! The days of recurrences in text.
ghost use Rattle.std.specs.Prelude.{◌≡◌, Err, Ok, drop, filter, nat_le};
ghost use Rattle.cal_recurrence.specs.Cursors.{days_left};
ghost use Rattle.cal_recurrence.specs.Days.{days_of};
ghost use Rattle.cal_recurrence.specs.Text.{day_recurrence_of};
ghost use Rattle.cal_recurrence.specs.declared.fault.ParseRuleError.{ParseRuleError};
ghost use Rattle.cal_recurrence.specs.declared.recurrence.Recurrence.{Recurrence};
ghost use Rattle.cal_c.specs.RecurrenceTexts.{recurrence_ok, recurrence_error, recurrence_parse_error};
ghost use Rattle.cal_c.specs.Recurrences.{AreDatesWritten};
ghost use Rattle.cal_c.specs.Values.{IsJulianDay, day_of};

use super::results::RecurrenceResult;
use crate::status::INVALID_DATE;
use crate::values::valid_date;
use cal_recurrence::{DayCursor, Recurrence, parse_days};
use cal_schedule::Rule;
use cal_time::Date;

/// Writes the days of a recurrence in text with this start, from the date `from` on, in ascending
/// order, as many as fit in the array. Returns their number. The rest of the array stays as it is.
///
/// `COUNT` counts from the start. For `FREQ=MONTHLY;BYDAY=-1FR;COUNT=3` with the start 2460311,
/// 2024-01-01, the days from 2460350 on are 2460364 and 2460399.
#[unsafe(no_mangle)]
pub extern "C" fn fots_recurrence_days(
    text: &[u8],
    start: i32,
    from: i32,
    days: &mut [i32],
) -> RecurrenceResult
    ensures error { (fault : ParseRuleError) → day_recurrence_of text.now ≡ Err fault
        → (result ≡ recurrence_parse_error fault) × (days.new ≡ days.old) }
    ensures invalid_date { (its : Recurrence) → day_recurrence_of text.now ≡ Ok its
        → ¬ (IsJulianDay start × IsJulianDay from)
        → (result ≡ recurrence_error INVALID_DATE) × (days.new ≡ days.old) }
    ensures value { (its : Recurrence) → day_recurrence_of text.now ≡ Ok its
        → IsJulianDay start → IsJulianDay from
        → (result ≡ recurrence_ok result.length)
        × AreDatesWritten (filter (nat_le (day_of from)) (days_of its (day_of start)))
        days.old days.new result.length }
{
    let recurrence = or_return!(parse_days(text), fault => RecurrenceResult::parse_error(fault));
    let (Some(start), Some(from)) = (valid_date(start), valid_date(from)) else {
        return RecurrenceResult::error(INVALID_DATE);
    };
    RecurrenceResult::ok(write_days_from(&recurrence, start, from, days))
}

/// Writes the days of a recurrence from a date on, as many as fit, and returns their number.
fn write_days_from(recurrence: &Recurrence, start: Date, from: Date, days: &mut [i32]) -> usize
    ensures { AreDatesWritten (filter (nat_le from) (days_of recurrence.now start))
        days.old days.new result }
{
    let mut cursor = recurrence.day_cursor();
    write_page(&mut cursor, &recurrence.rule(start), from, days)
}

/// More days than the range has. So a cursor with so many days left leaves all the days of the rule
/// after the last one that is counted.
const ALL_DAYS: u32 = 1 << 30;

/// Counts the days of a rule before a date, or passes over them if a cursor leaves them all.
fn skip_to(cursor: &mut DayCursor, rule: &Rule, from: Date)
    ensures { days_left rule.now cursor.new ≡ filter (nat_le from) (days_left rule.now cursor.old) }
{
    if cursor.left < ALL_DAYS {
        cursor.skip_to(rule, from);
        return;
    }
    let Some(before) = from.previous_day() else {
        return;
    };
    let is_past = match cursor.last {
        Some(last) => last < before,
        None => true,
    };
    if is_past {
        cursor.last = Some(before);
    }
}

/// Writes the days that a cursor leaves, as many as fit, and returns their number.
fn write_left(cursor: &mut DayCursor, rule: &Rule, days: &mut [i32]) -> usize
    ensures written { AreDatesWritten (days_left rule.now cursor.old) days.old days.new result }
    ensures others { days_left rule.now cursor.new ≡ drop result (days_left rule.now cursor.old) }
{
    for index in 0..days.len() {
        let Some(day) = cursor.next_day(rule) else {
            return index;
        };
        days[index] = day.to_julian_day();
    }
    days.len()
}

/// Writes the days that a cursor leaves from a date on, as many as fit, and returns their number.
pub(super) fn write_page(cursor: &mut DayCursor, rule: &Rule, from: Date, days: &mut [i32]) -> usize
    ensures written { AreDatesWritten (filter (nat_le from) (days_left rule.now cursor.old))
        days.old days.new result }
    ensures others { days_left rule.now cursor.new
        ≡ drop result (filter (nat_le from) (days_left rule.now cursor.old)) }
{
    skip_to(cursor, rule, from);
    write_left(cursor, rule, days)
}
