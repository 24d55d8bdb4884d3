//! Moving dates by durations and to weekdays.
use cal_time::{Date, Month, SignedDuration, Time, Weekday};
use std::io;

/// Returns the day 100 days later, or the last day of the range if that comes first.
fn in_100_days(date: Date) -> Date {
    date.saturating_add(SignedDuration::days(100))
}

/// Returns the third Thursday after the day, or `None` past the end of the range.
fn third_thursday(date: Date) -> Option<Date> {
    date.checked_nth_next_occurrence(Weekday::Thursday, 3)
}

/// Returns the same day of the month in March.
fn in_march(date: Date) -> Option<Date> {
    match date.replace_month(Month::March) {
        Ok(date) => Some(date),
        Err(_) => None,
    }
}

pub fn show(rt: &impl Print) -> io::Result<()> {
    let Ok(day) = Date::from_calendar_date(2023, Month::June, 26) else {
        return Ok(());
    };
    let moved = [
        Some(in_100_days(day)),
        third_thursday(day),
        in_march(day),
        Date::MAX.checked_add(SignedDuration::DAY),
    ];

    // A time of day wraps around midnight, and the adjustment says to which day.
    let (_, time) = Time::MIDNIGHT.adjusting_sub(SignedDuration::MINUTE);
    println!(rt; "{moved:?} {time}")
}
