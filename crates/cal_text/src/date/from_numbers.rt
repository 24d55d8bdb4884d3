//! The date with the numbers of a form.
ghost use Rattle.std.specs.Prelude.{◌≡◌, ◌⊎◌, ℕ, ◌↔◌, IfOk, IfErr, Ok};
ghost use Rattle.cal_time.specs.Date.{IsDate, IsYear, IsDayOfMonth, HasCalendarDate};
ghost use Rattle.cal_time.specs.Month.{month_out_of_range};
ghost use Rattle.cal_time.specs.ComponentError.{FailsWith};
ghost use Rattle.cal_time.specs.declared.error.ComponentRange.{ComponentRange};
ghost use Rattle.cal_time.specs.DateErrors.{year_out_of_range, day_out_of_range};
ghost use Rattle.cal_text.specs.DateForms.{DigitsFit};
ghost use Rattle.cal_text.specs.Parsing.{IsOnDay, IsMonth, IsDateError};

use crate::date_numbers::DateNumbers;
use cal_time::error::ComponentRange;
use cal_time::{Cycle, Date, Month, Weekday};

/// Returns the date with the numbers of a text, or the error of the first component out of range.
/// `Calendar(2024, 2, 29)`, `Ordinal(2024, 60)` and `Week(2024, 9, 4)` are the same date.
// Inlined, so that the caller has the result in registers: in memory it is written by parts, and the
// processor waits before it reads them as one number.
#[inline(always)]
pub fn date_from_numbers(form: DateNumbers) -> Result<Date, ComponentRange>
    requires { DigitsFit form }
    ensures every { (n : ℕ) → IsDate n → IsOnDay form n → result ≡ Ok n }
    ensures value { IfOk result (λ n. IsDate n × IsOnDay form n) }
    ensures error { (why : ComponentRange) → FailsWith why result ↔ IsDateError form why }
{
    match form {
        DateNumbers::Calendar(year, month, day) => calendar_date_from_numbers(year, month, day),
        DateNumbers::Ordinal(year, ordinal) => Date::from_ordinal_date(year, ordinal),
        DateNumbers::Week(year, week, weekday) => {
            Date::from_iso_week_date(year, week, Weekday::at(weekday - 1))
        }
    }
}

/// Returns the date of a year, the number of a month and a day of the month. Returns the first
/// error that applies: `month`, `year` or `day`.
pub(crate) fn calendar_date_from_numbers(
    year: i32,
    month: u8,
    day: u8,
) -> Result<Date, ComponentRange>
    ensures every { (n : ℕ) → IsDate n → HasCalendarDate year month day n → result ≡ Ok n }
    ensures value { IfOk result (λ n. IsDate n × HasCalendarDate year month day n) }
    ensures error_kind { IfErr result (λ e.
        (e ≡ month_out_of_range) ⊎ (e ≡ year_out_of_range) ⊎ (e ≡ day_out_of_range)) }
    ensures month { FailsWith month_out_of_range result ↔ ¬ IsMonth month }
    ensures year { FailsWith year_out_of_range result ↔ IsMonth month × ¬ IsYear year }
    ensures day { FailsWith day_out_of_range result
        ↔ IsMonth month × IsYear year × ¬ IsDayOfMonth year month day }
{
    Date::from_calendar_date(year, Month::try_from(month)?, day)
}
