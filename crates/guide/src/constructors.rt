//! Creating dates in each of the four forms.
use cal_time::{Date, Month, Weekday};
use std::io;

/// Creates 29 February 2000 from its month, its ordinal, its ISO week and its Julian day.
fn leap_day() -> Option<[Date; 4]> {
    let by_month = Date::from_calendar_date(2000, Month::February, 29).ok()?;
    let by_ordinal = Date::from_ordinal_date(2000, 60).ok()?;
    let by_week = Date::from_iso_week_date(2000, 9, Weekday::Tuesday).ok()?;
    let by_julian_day = Date::from_julian_day(2451604).ok()?;
    Some([by_month, by_ordinal, by_week, by_julian_day])
}

pub fn show(rt: &impl Print) -> io::Result<()> {
    if let Some(dates) = leap_day() {
        for date in dates {
            println!(rt; "{date}")?;
        }
    }
    Ok(())
}
