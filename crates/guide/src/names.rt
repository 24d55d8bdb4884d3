//! Dates with the names of a language.
ghost use Rattle.std.specs.Prelude.{◌≡◌, ℕ, None, Some, IfSome};
ghost use Rattle.cal_format.specs.Moment.{moment_of_date};
ghost use Rattle.cal_named_format.specs.Ambiguity.{ReadBack};
ghost use Rattle.cal_named_format.specs.Named.{text_in};
ghost use Rattle.cal_named_format.specs.Values.{HoldsDate};

use cal_format::{DateFormat, Format, Moment};
use cal_named_format::{check_names, parse_date, print};
use cal_names::{Names, names_of};
use cal_time::Date;
use std::io;
use std::str::from_utf8;

/// Parses the date that the format prints with the names as this string, and no other string.
/// Returns `None` if a string of the format could be read in two ways.
fn date_in(format: &DateFormat, names: &Names, text: &[u8]) -> Option<Date>
    ensures value { IfSome result (λ n. text.now ≡ text_in names.now format.now (moment_of_date n)) }
    ensures every { ReadBack names.now format.now → (n : ℕ) → HoldsDate format.now n
        → text.now ≡ text_in names.now format.now (moment_of_date n) → result ≡ Some n }
    ensures none { ¬ ReadBack names.now format.now → result ≡ None }
{
    if check_names(format.as_format().items(), names).is_err() {
        return None;
    }
    parse_date(format, names, text).ok()
}

/// Prints a date with the names of a language, such as `jeudi, 29 février 2024`.
fn show_date(rt: &impl Print, code: &[u8], date: Date) -> io::Result<()> {
    let Ok(format) = Format::new("%A, %-d %B %Y") else {
        return Ok(());
    };
    let (Some(format), Some(names)) = (format.for_dates(), names_of(code)) else {
        return Ok(());
    };
    let (moment, mut buffer) = (Moment::of_date(date), [0u8; 64]);
    let Some(end) = print(format.as_format().items(), names, &moment, &mut buffer, 0) else {
        return Ok(());
    };
    let text = &buffer[..end];
    println!(rt;
        "{} {:?}",
        from_utf8(text).unwrap_or(""),
        date_in(&format, names, text)
    )
}

pub fn show(rt: &impl Print) -> io::Result<()> {
    let date = Date::from_julian_day(2_460_370).unwrap_or(Date::MIN);
    for code in ["fr", "pl", "ja"] {
        show_date(rt, code.as_bytes(), date)?;
    }
    Ok(())
}
