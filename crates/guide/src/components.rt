//! The components of dates, times, offsets and durations.
use cal_time::{Date, SignedDuration, Time, UtcOffset};
use std::io;

pub fn show(rt: &impl Print) -> io::Result<()> {
    let (year, month, day) = Date::MAX.to_calendar_date();
    println!(rt; "{day} {month} {year}")?;

    let (iso_year, week, weekday) = Date::MAX.to_iso_week_date();
    println!(rt; "{weekday} of week {week} of {iso_year}")?;

    let (hour, minute, second, millisecond) = Time::MAX.as_hms_milli();
    println!(rt; "{hour} h {minute} min {second} s {millisecond} ms")?;

    let duration = SignedDuration::new(-90_061, -5);
    let (days, past_second) = (duration.whole_days(), duration.subsec_nanoseconds());
    println!(rt; "{days} day, {past_second} ns past the second")?;

    if let Ok(offset) = UtcOffset::from_whole_seconds(-19_800) {
        let (hours, minutes) = (offset.whole_hours(), offset.minutes_past_hour());
        println!(rt; "{hours} h {minutes} min")?;
    }
    Ok(())
}
