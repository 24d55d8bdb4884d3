//! Laws of several calls of working days.
ghost use Rattle.std.specs.Prelude.{◌≡◌, ◌+ℤ◌, Some, true};
ghost use Rattle.cal_schedule.specs.Workdays.{is_workday};

use crate::{Convention, Workdays};
use cal_time::Date;

/// Moves a working day to itself, by each convention.
pub fn stays(workdays: &Workdays<'_>, date: Date, convention: Convention) -> Option<Date>
    requires { is_workday workdays.now date ≡ true }
    ensures { result ≡ Some date }
{
    workdays.adjust(date, convention)
}

/// Counts the working days between three dates in any order. The number from the first to the third
/// is the sum of the other two.
pub fn adds_up(workdays: &Workdays<'_>, first: Date, second: Date, third: Date) -> (i32, i32, i32)
    ensures { result.0 +ℤ result.1 ≡ result.2 }
{
    (
        workdays.workdays_between(first, second),
        workdays.workdays_between(second, third),
        workdays.workdays_between(first, third),
    )
}
