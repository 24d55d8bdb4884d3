//! Comparing and sorting values.
use cal_time::{Date, extent, is_rising};
use std::io;

pub fn show(rt: &impl Print) -> io::Result<()> {
    let Ok(one) = Date::from_ordinal_date(2020, 366) else {
        return Ok(());
    };
    let Ok(other) = Date::from_ordinal_date(2021, 1) else {
        return Ok(());
    };
    println!(rt; "{} {}", one < other, other - one)?;

    let mut dates = [other, Date::MAX, one];
    println!(rt; "{:?} {}", extent(&dates), is_rising(&dates))?;
    dates.sort_unstable();
    println!(rt; "{dates:?} {}", is_rising(&dates))
}
