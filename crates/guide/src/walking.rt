//! Iterating over days, and endlessly over months and weekdays.
use cal_time::iter::MonthIter;
use cal_time::{Date, Month, Weekday};
use std::io;

/// Counts the Fridays the 13th from one day to another, both included.
fn fridays_13th(from: Date, to: Date) -> u32 {
    let mut count = 0u32;
    for date in from.iter_to(to) {
        if date.day() == 13 && date.weekday() == Weekday::Friday {
            count = count.saturating_add(1);
        }
    }
    count
}

pub fn show(rt: &impl Print) -> io::Result<()> {
    let Ok(from) = Date::from_ordinal_date(2023, 1) else {
        return Ok(());
    };
    let Ok(to) = Date::from_ordinal_date(2023, 365) else {
        return Ok(());
    };
    println!(rt; "{}", fridays_13th(from, to))?;

    // An iterator goes from both ends and by index, and knows its length.
    let mut walk = from.iter_to(to);
    let (day, last) = (walk.nth(30), walk.next_back());
    println!(rt; "{day:?} {last:?} {}", walk.len())?;

    for month in MonthIter::new(Month::November).take(3) {
        println!(rt; "{month}")?;
    }
    Ok(())
}
