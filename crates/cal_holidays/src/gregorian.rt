//! Easter by the Gregorian calendar.
ghost use Rattle.std.specs.Prelude.{◌≡◌, ◌≤◌, ◌↔◌, ℕ, Ok, IfOk, IfErr, IsErr};
ghost use Rattle.cal_time.specs.Date.{IsDate, IsYear, HasCalendarDate};
ghost use Rattle.cal_time.specs.DateErrors.{year_out_of_range};
ghost use Rattle.cal_holidays.specs.Easter.{IsEaster};
ghost use Rattle.cal_holidays.specs.Epacts.{full_moon, table_year};

use cal_date::day_number;
use cal_time::error::ComponentRange;
use cal_time::{Date, Month};

/// Returns the year of the tables for a year of the range.
pub(crate) fn table_year(year: i32) -> u32
    requires { IsYear year }
    ensures value { result ≡ table_year year }
    ensures range { (4_700_001 ≤ result) × (result ≤ 6_699_999) }
{
    (year + 5_700_000) as u32
}

/// Returns the day of the paschal full moon of a year of the tables, from 21 for 21 March.
#[tactic(auto, using(crate::proofs::Epacts::full_moon_closed))]
fn full_moon(year: u32) -> u32
    requires { year ≤ 100_000_000 }
    ensures value { result ≡ full_moon year }
    ensures range { (21 ≤ result) × (result ≤ 49) }
{
    let century = year / 100;
    let golden = year % 19;
    let corrections = century - century / 4 - (8 * century + 13) / 25;
    let days = (19 * golden + corrections + 15) % 30;
    let is_earlier = days == 29 || (days == 28 && golden > 10);
    days + 21 - u32::from(is_earlier)
}

/// Returns Easter of a year of the range, whose 1 March is given.
fn easter_after(march: Date, year: i32) -> Date
    requires year { IsYear year }
    requires march { HasCalendarDate year 3 1 march }
    ensures value { IsEaster year result }
    ensures range { IsDate result }
{
    let moon = day_number::day_number(march) + full_moon(table_year(year)) - 1;
    day_number::to_date(moon + 7 - (moon + 1) % 7)
}

/// Returns Easter Sunday of a year, by the tables of the Gregorian calendar. In 2024 it is
/// 2024-03-31. Returns the error `year` if it is out of range.
///
/// Western churches have used it since 1583. Earlier years count as if they had used it.
pub fn easter(year: i32) -> Result<Date, ComponentRange>
    ensures every { (n : ℕ) → IsDate n → IsEaster year n → result ≡ Ok n }
    ensures value { IfOk result (λ n. IsDate n × IsEaster year n) }
    ensures error { IsErr result ↔ ¬ IsYear year }
    ensures error_kind { IfErr result (λ e. e ≡ year_out_of_range) }
{
    match Date::from_calendar_date(year, Month::March, 1) {
        Ok(march) => Ok(easter_after(march, year)),
        Err(error) => Err(error),
    }
}
