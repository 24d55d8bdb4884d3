//! Prints when a flight arrives: a whole program that uses the calendar.
#![tactic(auto)]

use cal_time::{Date, Month, SignedDuration, Time, add_to_pair};
use std::io;

/// Returns the arrival of a two-hour flight that leaves at 23:00 on a day of December 2020.
fn arrival(day: u8) -> Option<(Date, Time)> {
    let flight = SignedDuration::hours(2);
    let time = Time::from_hms(23, 0, 0).ok()?;
    let date = Date::from_calendar_date(2020, Month::December, day).ok()?;
    add_to_pair(date, time, flight)
}

pub fn main(rt: HostRuntime) -> io::Result<()> {
    for day in [31, 32] {
        match arrival(day) {
            Some((date, time)) => println!(rt; "{date} {time}")?,
            None => println!(rt; "December has no day {day}")?,
        }
    }
    Ok(())
}
