//! Laws: the clauses of the calls for days of recurrences in text allow only one result.
ghost use Rattle.std.specs.Prelude.{◌≡◌, ℕ, ℤ, List, length};
ghost use Rattle.cal_recurrence.specs.Cursors.{days_left};
ghost use Rattle.cal_recurrence.specs.declared.day_cursor.DayCursor.{DayCursor};
ghost use Rattle.cal_schedule.specs.declared.rule.rule.Rule.{Rule};
ghost use Rattle.cal_c.specs.RecurrenceCursors.{IsDayCursor, IsPage};
ghost use Rattle.cal_c.specs.declared.schedule.recurrences.cursor.RecurrenceCursor.{RecurrenceCursor};

use super::days::fots_recurrence_days;
use super::results::RecurrenceResult;
use crate::values::valid_date;

/// Makes the same call over two equal arrays. The results and the arrays are equal afterwards.
pub fn days_twice(
    text: &[u8],
    start: i32,
    from: i32,
    days: &mut [i32],
    others: &mut [i32],
) -> (RecurrenceResult, RecurrenceResult)
    requires { days.old ≡ others.old }
    ensures value { result.0 ≡ result.1 }
    ensures days { days.new ≡ others.new }
{
    let _ = (valid_date(start), valid_date(from));
    (
        fots_recurrence_days(text, start, from, days),
        fots_recurrence_days(text, start, from, others),
    )
}

/// States that a page has one number of days and one array, and that its cursors leave the same
/// days.
pub fn one_page()
    ensures { (rule : Rule) (from : ℕ) (c d e : RecurrenceCursor) (old a b : List ℤ) (n m : ℕ)
        → length a ≡ length b → IsPage rule from c d old a n → IsPage rule from c e old b m
        → (n ≡ m) × (a ≡ b) × ((p q : DayCursor) → IsDayCursor d p → IsDayCursor e q
        → days_left rule p ≡ days_left rule q) }
{}
