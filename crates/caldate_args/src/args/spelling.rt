//! Single words of the arguments.

ghost use Rattle.std.specs.Prelude.{◌≤◌, IfSome};

use crate::args::names::{
    COMMANDS, CommandName, MEASURES, PERIODS, ROUNDED_UNITS, ROUNDINGS, UNITS, VERBS, Verb, spells,
    spells_unit, value_named, value_of_unit,
};
use cal_duration::period;
use cal_rounding::RoundingUnit;
use cal_schedule::{CalendarUnit, Period};
use cal_time::{SignedDuration, Weekday};
use caldate_answers::request::{DayMove, Measure, Move, TimeUnit};
use std::str;

/// Parses the name of a command that reads no input.
pub fn command_of(word: &[u8]) -> Option<CommandName> {
    value_named(word, &COMMANDS)
}

/// Parses a verb.
pub fn verb_of(word: &[u8]) -> Option<Verb> {
    value_named(word, &VERBS)
}

/// Parses a number from -9223372036854775808 to 9223372036854775807.
pub fn parse_i64(word: &[u8]) -> Option<i64> {
    let Ok(text) = str::from_utf8(word) else {
        return None;
    };
    text.parse().ok()
}

/// Parses a number from 1 to 255.
pub fn parse_u8(word: &[u8]) -> Option<u8> {
    let number = parse_i64(word)?;
    if number < 1 || number > 255 {
        return None;
    }
    Some(number as u8)
}

/// Parses a number from 1 to 4294967295.
pub fn parse_u32(word: &[u8]) -> Option<u32>
    ensures { IfSome result (λ number. 1 ≤ number) }
{
    let number = parse_i64(word)?;
    if number < 1 || number > 4_294_967_295 {
        return None;
    }
    Some(number as u32)
}

/// Parses a weekday. `Friday`, `FRIDAY` and `fri` are the same.
pub fn weekday_of(word: &[u8]) -> Option<Weekday> {
    if spells(word, b"Monday") {
        Some(Weekday::Monday)
    } else if spells(word, b"Tuesday") {
        Some(Weekday::Tuesday)
    } else if spells(word, b"Wednesday") {
        Some(Weekday::Wednesday)
    } else if spells(word, b"Thursday") {
        Some(Weekday::Thursday)
    } else if spells(word, b"Friday") {
        Some(Weekday::Friday)
    } else if spells(word, b"Saturday") {
        Some(Weekday::Saturday)
    } else if spells(word, b"Sunday") {
        Some(Weekday::Sunday)
    } else {
        None
    }
}

/// Parses a period. `month`, `MONTHS` and `mon` are the same.
pub fn period_of(word: &[u8]) -> Option<CalendarUnit> {
    value_of_unit(word, &PERIODS)
}

/// Parses the argument of `start`.
pub fn start_of(word: &[u8]) -> Option<Move> {
    match period_of(word) {
        Some(period) => Some(Move::Day(DayMove::Start(period))),
        None => Some(Move::Floor(value_of_unit(word, &ROUNDINGS)?)),
    }
}

/// Parses a number from 1 to 1440.
pub fn minutes_of(word: &[u8]) -> Option<u16> {
    let number = parse_i64(word)?;
    if number < 1 || number > 1_440 {
        return None;
    }
    Some(number as u16)
}

/// Checks that the word is the unit `minutes`. `minute`, `Minutes` and `min` are the same.
pub fn minutes_word(word: &[u8]) -> Option<()> {
    if spells_unit(word, b"minutes") {
        Some(())
    } else {
        None
    }
}

/// Parses a unit of time.
pub fn unit_of(word: &[u8]) -> Option<TimeUnit> {
    value_of_unit(word, &UNITS)
}

/// Parses a measure: a unit of time, `P`, `PT` or `HH:MM:SS`.
pub fn measure_of(word: &[u8]) -> Option<Measure> {
    match value_named(word, &MEASURES) {
        Some(measure) => Some(measure),
        None => Some(Measure::Units(unit_of(word)?)),
    }
}

/// Parses a period, such as `P1M3DT4H`.
pub fn iso_period_of(word: &[u8]) -> Option<Period> {
    period::parse(word).ok()
}

/// Returns whether the word begins as a period does, by `P` or `-P`.
pub fn is_period_like(word: &[u8]) -> bool {
    match word {
        [b'P', ..] | [b'-', b'P', ..] => true,
        _ => false,
    }
}

/// Parses a unit of `round`, and returns its seconds.
pub fn rounded_unit_of(word: &[u8]) -> Option<u32> {
    value_of_unit(word, &ROUNDED_UNITS)
}

/// Returns the step of `number` units of `seconds` each, if it divides a day.
pub fn rounding_of(number: i64, seconds: u32) -> Option<RoundingUnit> {
    let seconds = number.checked_mul(i64::from(seconds))?;
    RoundingUnit::new(SignedDuration::seconds(seconds))
}
