//! Dates and moments in text.
ghost use Rattle.std.specs.Prelude.{◌≡◌, ◌↔◌, IfSome, length};
ghost use Rattle.cal_time.specs.DateText.{text};
ghost use Rattle.cal_time.specs.Month.{month_out_of_range};
ghost use Rattle.cal_text.specs.DateForms.{HasForm};
ghost use Rattle.cal_text.specs.Position.{HasSome, IsPosition};
ghost use Rattle.cal_text.specs.Parsing.{HasError, IsDateError, FailsWithComponent};

use cal_datetime::OffsetDateTime;
use cal_text::rfc3339::{self, Text};
use cal_text::{DateForm, DateOrMoment, MomentForm, ParseError, date, parse_any, unix};
use cal_time::Date;
use std::io;

/// Parses a date in any of the three forms of ISO 8601, and prints it or the error.
fn show_date(rt: &impl Print, text: &str) -> io::Result<()> {
    match date::parse(text.as_bytes()) {
        Ok(date) => println!(rt; "{date}"),
        Err(error) => println!(rt; "{text}: {error}"),
    }
}

/// Prints the time from 1970-01-01 0:00 UTC to a moment in text, and the moment at UTC.
fn show_moment(rt: &impl Print, text: &str) -> io::Result<()> {
    let moment = match rfc3339::parse(text.as_bytes()) {
        Ok(moment) => moment,
        Err(error) => return println!(rt; "{text}: {error}"),
    };
    println!(rt; "{}", moment - OffsetDateTime::unix_epoch())?;
    if let Some(at_utc) = moment.checked_to_utc() {
        if let Some(text) = Text::new(at_utc) {
            println!(rt; "{text}")?;
        }
    }
    Ok(())
}

/// Parses a calendar date, an ordinal date or a week date, and passes an error on.
fn parse_date(text: &[u8]) -> Result<Date, ParseError>
    ensures month { FailsWithComponent month_out_of_range result
        ↔ HasError HasForm IsDateError text.now month_out_of_range }
{
    date::parse(text)
}

/// Returns the length of a text that more bytes could complete to a date. `None` promises nothing.
fn bytes_so_far(text: &[u8]) -> Option<usize>
    ensures { IfSome result (λ n. IsPosition (HasSome HasForm) text.now n × (n ≡ length text.now)) }
{
    match date::parse(text) {
        Err(ParseError::UnexpectedEnd(length)) => Some(length),
        _ => None,
    }
}

/// Parses a calendar date, and no other text.
fn calendar_day(bytes: &[u8]) -> Option<Date>
    ensures { IfSome result (λ n. bytes.now ≡ text n) }
{
    match parse_any(bytes) {
        Ok(found) => match found {
            DateOrMoment::Date(form, date) => match form {
                DateForm::Calendar => Some(date),
                _ => None,
            },
            DateOrMoment::Moment(..) => None,
        },
        Err(_) => None,
    }
}

/// Prints a moment of RFC 3339 as a Unix time, a date with its form, and a Unix time in parts.
fn show_any(rt: &impl Print, text: &str) -> io::Result<()> {
    let found = match parse_any(text.as_bytes()) {
        Ok(found) => found,
        Err(error) => return println!(rt; "{text}: {error}"),
    };
    match found {
        DateOrMoment::Date(form, date) => println!(rt; "{form:?} {date}"),
        DateOrMoment::Moment(form, moment) => match form {
            MomentForm::Rfc3339 => println!(rt; "{}", unix::Text::new(moment)),
            MomentForm::Unix => println!(rt; "{} {}", moment.date(), moment.time()),
        },
    }
}

pub fn show(rt: &impl Print) -> io::Result<()> {
    for text in ["2024-060", "2024-W09-4", "2023-02-29", "2024-02-3"] {
        show_date(rt, text)?;
    }
    println!(rt; "{:?}", parse_date(b"2024-13-01"))?;
    println!(rt;
        "{:?} {:?}",
        bytes_so_far(b"2024-02-3"),
        bytes_so_far(b"2024x")
    )?;
    show_moment(rt, "2024-02-29T23:59:59.25+01:00")?;
    show_moment(rt, "1990-12-31T23:59:60Z")?;
    for text in ["2024-02-29T23:59:59.25+01:00", "@1709164800.5", "J2460370"] {
        show_any(rt, text)?;
    }
    println!(rt; "{:?}", calendar_day(b"2024-W09-4"))
}
