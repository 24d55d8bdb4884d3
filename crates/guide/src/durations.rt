//! Durations and periods in text.
ghost use Rattle.std.specs.Prelude.{◌≡◌, Ok};

use cal_duration::{ParseDurationError, duration, period};
use cal_schedule::Period;
use cal_time::SignedDuration;
use std::io;

/// Prints a duration and parses it, which gives it back.
fn read_back(value: SignedDuration) -> Result<SignedDuration, ParseDurationError>
    ensures { result ≡ Ok value }
{
    let text = duration::text(value);
    duration::parse(text.as_bytes())
}

/// Prints a period and parses it, which gives it back.
fn period_read_back(value: Period) -> Result<Period, ParseDurationError>
    ensures { result ≡ Ok value }
{
    let text = period::Text::new(value);
    period::parse(text.as_bytes())
}

pub fn show(rt: &impl Print) -> io::Result<()> {
    println!(rt; "{:?}", read_back(SignedDuration::minutes(-90)))?;
    match period::parse(b"P1Y2M10DT2H30M") {
        Ok(found) => println!(rt;
            "{} {:?}",
            period::Text::new(found),
            period_read_back(found) == Ok(found)
        ),
        Err(error) => println!(rt; "{error}"),
    }
}
