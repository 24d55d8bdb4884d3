//! Easter by the Julian calendar.
ghost use Rattle.std.specs.Prelude.{◌≡◌, ◌≤◌, ◌↔◌, ℕ, Ok, IfOk, IfErr, IsErr};
ghost use Rattle.cal_time.specs.Date.{IsDate, NoDate};
ghost use Rattle.cal_time.specs.DateErrors.{year_out_of_range};
ghost use Rattle.cal_holidays.specs.Easter.{IsJulianEaster};
ghost use Rattle.cal_holidays.specs.Epacts.{julian_full_moon};

use crate::gregorian::table_year;
use cal_date::day_number;
use cal_time::Date;
use cal_time::error::{Component, ComponentRange};
use cal_time::limits::{MAX_YEAR, MIN_YEAR};

/// The days from 1 March of the year 0 of the tables, by the Julian calendar, to the first day of
/// the range.
const DAYS_BEFORE_RANGE: u32 = 1_716_682_808;

/// Returns the day of the paschal full moon of a year of the tables, from 21 for 21 March, without
/// the corrections of the Gregorian calendar.
#[tactic(auto, using(crate::proofs::Epacts::julian_full_moon_closed))]
fn julian_full_moon(year: u32) -> u32
    requires { year ≤ 100_000_000 }
    ensures value { result ≡ julian_full_moon year }
    ensures range { (21 ≤ result) × (result ≤ 50) }
{
    (19 * (year % 19) + 15) % 30 + 21
}

/// Returns Easter Sunday of a year of the Julian calendar, as a date of the Gregorian calendar. In
/// 2024 it is 2024-05-05. Returns the error `year` if the year or the day is out of range: the
/// calendars differ by 20 years at its ends.
///
/// The orthodox churches use it, and all churches did until 1582.
pub fn julian_easter(year: i32) -> Result<Date, ComponentRange>
    ensures every { (n : ℕ) → IsDate n → IsJulianEaster year n → result ≡ Ok n }
    ensures value { IfOk result (λ n. IsDate n × IsJulianEaster year n) }
    ensures error { IsErr result ↔ NoDate (IsJulianEaster year) }
    ensures error_kind { IfErr result (λ e. e ≡ year_out_of_range) }
{
    if year < MIN_YEAR || year > MAX_YEAR {
        return Err(ComponentRange::unconditional(Component::Year));
    }
    let table = table_year(year);
    let moon = 365 * table + table / 4 + julian_full_moon(table) - 1;
    // Counted so, the multiples of 7 are Sundays.
    let sunday = moon + 7 - moon % 7;
    if sunday < DAYS_BEFORE_RANGE {
        return Err(ComponentRange::unconditional(Component::Year));
    }
    match day_number::date_from_number(u64::from(sunday - DAYS_BEFORE_RANGE)) {
        Some(date) => Ok(date),
        None => Err(ComponentRange::unconditional(Component::Year)),
    }
}
