//! Printing values.
ghost use Rattle.std.specs.Prelude.{◌≡◌, ◌≤◌, ◌++◌, codes};
ghost use Rattle.cal_time.specs.DateText.{text};
ghost use Rattle.cal_time.specs.Time.{text as time_text};
ghost use Rattle.cal_time.specs.UtcOffset.{text as offset_text};
ghost use Rattle.cal_time.specs.Weekday.{name};

use cal_time::{Date, ShortText, SignedDuration, Time, UtcOffset, Weekday};
use std::io;

/// Returns the text of a date and a time.
fn date_and_time(date: Date, time: Time) -> ShortText
    ensures { result ≡ text date ++ codes " " ++ time_text time }
{
    let mut line = date.text();
    line.push(" ");
    line.push(time.text().as_str());
    line
}

/// Returns a weekday and an offset as one text.
fn weekday_and_offset(weekday: Weekday, offset: UtcOffset) -> ShortText
    ensures { result ≡ name weekday ++ codes " " ++ offset_text offset }
{
    let mut line = ShortText::new();
    line.push(weekday.name());
    line.push(" ");
    line.push(offset.text().as_str());
    line
}

/// Returns the length of a printed duration.
fn width(duration: SignedDuration) -> usize
    ensures { result ≤ 42 }
{
    duration.text().len()
}

pub fn show(rt: &impl Print) -> io::Result<()> {
    let (date, time, offset) = (Date::MIN, Time::MAX, UtcOffset::UTC);
    println!(rt; "{date} {time} {offset}")?;
    println!(rt; "[{date:>14}] [{offset:<10}]")?;

    let duration = SignedDuration::milliseconds(-93_784_005);
    println!(rt; "{duration}")?;

    println!(rt; "{}", date_and_time(date, time).as_str())?;
    println!(rt; "{}", weekday_and_offset(date.weekday(), offset).as_str())?;
    println!(rt; "{}", width(duration))
}
