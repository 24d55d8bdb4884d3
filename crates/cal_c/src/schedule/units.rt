//! The numbers of units of the calendar.
ghost use Rattle.std.specs.Prelude.{◌≡◌, MatchOption};
ghost use Rattle.cal_c.specs.Schedule.{unit_number, IsUnit};

use cal_schedule::CalendarUnit;

/// Returns the unit with a number, from 1 for a day to 5 for a year, or `None`.
pub fn valid_unit(number: u32) -> Option<CalendarUnit>
    ensures { MatchOption result (¬ IsUnit number)
        (λ found. IsUnit number × (unit_number found ≡ number)) }
{
    match number {
        1 => Some(CalendarUnit::Day),
        2 => Some(CalendarUnit::Week),
        3 => Some(CalendarUnit::Month),
        4 => Some(CalendarUnit::Quarter),
        5 => Some(CalendarUnit::Year),
        _ => None,
    }
}
