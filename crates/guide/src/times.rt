//! Times of day, offsets and date-times in text.
ghost use Rattle.std.specs.Prelude.{◌≡◌, ◌<◌, ℤ, IfSome, length};
ghost use Rattle.cal_datetime.specs.DateTime.{date_at};
ghost use Rattle.cal_datetime.specs.OffsetDateTime.{LocalAndOffset, instant};
ghost use Rattle.cal_text.specs.OffsetDateTimeForm.{IsOffsetDateTimeText};
ghost use Rattle.cal_text.specs.OffsetForm.{HasOffsetForm};
ghost use Rattle.cal_text.specs.PlainForm.{IsPlainText};
ghost use Rattle.cal_text.specs.Position.{HasSome, IsPosition};
ghost use Rattle.cal_text.specs.TimeForm.{IsTimeText};

use cal_datetime::OffsetDateTime;
use cal_text::{ParseError, offset, offset_date_time, plain, time};
use cal_time::{Date, Time};
use std::io;

/// Parses a time of day. Returns `None` for any other text.
fn time_in(text: &[u8]) -> Option<Time>
    ensures { IfSome result (IsTimeText text.now) }
{
    match time::parse(text) {
        Ok(time) => Some(time),
        Err(_) => None,
    }
}

/// Returns the first byte that no offset has there, and its position.
fn wrong_byte(text: &[u8]) -> Option<(usize, u8)>
    ensures { IfSome result (λ wrong. IsPosition (HasSome HasOffsetForm) text.now wrong.0
        × (wrong.0 < length text.now)) }
{
    match offset::parse(text) {
        Err(ParseError::UnexpectedByte(position)) => Some((position, text[position])),
        _ => None,
    }
}

/// Returns the date of a date-time in text.
fn date_in(text: &[u8]) -> Option<Date>
    ensures { IfSome result (λ n. (p : ℤ) × IsPlainText text.now p × (n ≡ date_at p)) }
{
    match plain::parse(text) {
        Ok(date_time) => Some(date_time.date()),
        Err(_) => None,
    }
}

/// Parses a moment, and returns the same instant at UTC.
fn at_utc(text: &[u8]) -> Option<OffsetDateTime>
    ensures { IfSome result (λ utc. (m : LocalAndOffset)
        × IsOffsetDateTimeText text.now m × (instant utc ≡ instant m)) }
{
    let Ok(moment) = offset_date_time::parse(text) else {
        return None;
    };
    let utc = moment.checked_to_utc()?;
    Some(utc)
}

pub fn show(rt: &impl Print) -> io::Result<()> {
    println!(rt; "{:?} {:?}", time_in(b"9:05"), time_in(b"24:00"))?;
    println!(rt; "{:?} {:?}", wrong_byte(b"+0530"), wrong_byte(b"+05"))?;
    println!(rt; "{:?}", date_in(b"2024-W09-4 23:59"))?;
    println!(rt; "{:?}", at_utc(b"2024-02-29 23:59:59.25 -01:00"))
}
