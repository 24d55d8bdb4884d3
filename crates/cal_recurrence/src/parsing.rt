//! Parses the text of a recurrence.
ghost use Rattle.std.specs.Prelude.{◌≡◌, ◌+◌, ◌<◌, ◌^◌, length, IfOk};
ghost use Rattle.cal_recurrence.specs.Drafts.{read_on};
ghost use Rattle.cal_recurrence.specs.Spelled.{IsSpelled};
ghost use Rattle.cal_recurrence.specs.Text.{day_recurrence_of, days_say, later, parts_say, place_of, recurrence_of, valid_parts_say};
ghost use Rattle.cal_recurrence.specs.Words.{parts_at};

use crate::draft::Draft;
use crate::fault::{ParseRuleError, ParseRuleErrorKind, RulePart};
use crate::recurrence::Recurrence;
use crate::words::{cut, has_name, is_alike, split};

/// Parses a recurrence of RFC 5545, such as `FREQ=MONTHLY;BYDAY=-1FR;COUNT=12`, with or without
/// `RRULE:` in front.
///
/// The parts come in any order and any case, with `;` between them. `FREQ` is `DAILY`, `WEEKLY`,
/// `MONTHLY` or `YEARLY`, or within days `HOURLY`, `MINUTELY` or `SECONDLY`. It is required.
/// `INTERVAL` and `COUNT` are from 1 to 4294967295. `UNTIL`, in place of `COUNT`, is a date such as
/// `20241231`, or a date and time such as `20241231T235959` or, at UTC, `20241231T235959Z`. A leap
/// second, 60, becomes 59. `WKST` is a weekday such as `MO`.
///
/// Lists have at most 62 values with commas between them. `BYMONTH` has months from 1 to 12,
/// `BYMONTHDAY` days from 1 to 31, `BYYEARDAY` and `BYSETPOS` days from 1 to 366, and `BYWEEKNO`
/// weeks from 1 to 53. Except for months, negative values count from the end. `BYDAY` has weekdays
/// such as `FR`, with or without a number from 1 to 53 or from -1 to -53, such as `-1FR`. `BYHOUR`
/// has hours from 0 to 23, `BYMINUTE` minutes from 0 to 59, and `BYSECOND` seconds from 0 to 60.
///
/// Returns the error of the first invalid part: `Unknown` for any other name, `TooMany` for more
/// than 62 values, `Twice` for a repeated part or a second end, or `Value` for an invalid value.
/// Otherwise returns `Missing` if there is no `FREQ`, then `Excluded` for a part that an earlier
/// one excludes, and then `Alone` for a `BYSETPOS` without another list.
pub fn parse(text: &[u8]) -> Result<Recurrence, ParseRuleError>
    ensures value { result ≡ recurrence_of text.now }
    ensures spelled { IfOk result IsSpelled }
{
    if has_name(text) {
        parse_parts(6, split(text, 6).1)
    } else {
        parse_parts(0, text)
    }
}

/// Parses a recurrence for a start that is a date, such as `FREQ=MONTHLY;BYDAY=-1FR;COUNT=12`.
///
/// Returns the errors of [`parse`], then `Value` at `FREQ` for `HOURLY`, `MINUTELY` and `SECONDLY`,
/// whose start needs a time of day. `FREQ=HOURLY` is invalid at byte 0.
pub fn parse_days(text: &[u8]) -> Result<Recurrence, ParseRuleError>
    ensures { result ≡ day_recurrence_of text.now }
{
    if has_name(text) {
        parse_day_parts(6, split(text, 6).1)
    } else {
        parse_day_parts(0, text)
    }
}

/// Parses the parts from byte `position` on, without periods within days.
fn parse_day_parts(position: usize, text: &[u8]) -> Result<Recurrence, ParseRuleError>
    requires { position + length text.now < 2 ^ 64 }
    ensures { result ≡ days_say position (parts_at 59 text.now) }
{
    let recurrence = parse_parts(position, text)?;
    if recurrence.times.clock.is_some() {
        return Err(ParseRuleError {
            position: place_of(b"FREQ", position, text),
            reason: ParseRuleErrorKind::Value(RulePart::Frequency),
        });
    }
    Ok(recurrence)
}

/// Parses the parts from byte `position` on.
pub(crate) fn parse_parts(position: usize, text: &[u8]) -> Result<Recurrence, ParseRuleError>
    requires { position + length text.now < 2 ^ 64 }
    ensures value { result ≡ parts_say position (parts_at 59 text.now) }
    ensures spelled { IfOk result IsSpelled }
{
    match parse_valid_parts(position, text) {
        Ok(recurrence) => {
            if let Some((part, other)) = recurrence.excluded() {
                let place = place_of(part.name().as_bytes(), position, text);
                let other_place = place_of(other.name().as_bytes(), position, text);
                Err(later(part, place, other, other_place))
            } else if recurrence.ranks_alone() {
                Err(ParseRuleError {
                    position: place_of(b"BYSETPOS", position, text),
                    reason: ParseRuleErrorKind::Alone(RulePart::Positions),
                })
            } else {
                Ok(recurrence)
            }
        }
        Err(fault) => Err(fault),
    }
}

/// Parses the parts from byte `position` on, whether or not some exclude each other.
fn parse_valid_parts(position: usize, text: &[u8]) -> Result<Recurrence, ParseRuleError>
    requires { position + length text.now < 2 ^ 64 }
    ensures { result ≡ valid_parts_say position (parts_at 59 text.now) }
{
    read_on(position, Draft::new(), text)
}

/// Returns the error of two parts that exclude each other, at the later one.
fn later(part: RulePart, place: usize, other: RulePart, other_place: usize) -> ParseRuleError
    ensures { result ≡ later part place other other_place }
{
    let (position, part) = if place < other_place {
        (other_place, other)
    } else {
        (place, part)
    };
    ParseRuleError {
        position,
        reason: ParseRuleErrorKind::Excluded(part),
    }
}

/// Returns the position of the first part with a name, or the position of the end.
fn place_of(name: &[u8], position: usize, text: &[u8]) -> usize
    requires { position + length text.now < 2 ^ 64 }
    ensures { result ≡ place_of name.now position (parts_at 59 text.now) }
{
    let (part, rest) = cut(text, b';');
    if is_alike(cut(part, b'=').0, name) {
        return position;
    }
    match rest {
        Some(rest) => place_of(name, position + part.len() + 1, rest),
        None => position + part.len(),
    }
}

/// Parses the parts from byte `position` on, after the parts of the draft.
fn read_on(position: usize, draft: Draft, text: &[u8]) -> Result<Recurrence, ParseRuleError>
    requires { position + length text.now < 2 ^ 64 }
    ensures { result ≡ read_on position draft (parts_at 59 text.now) }
{
    let (part, rest) = cut(text, b';');
    match draft.with_part(part) {
        Ok(draft) => match rest {
            Some(rest) => read_on(position + part.len() + 1, draft, rest),
            None => draft.finished(position + part.len()),
        },
        Err(reason) => Err(ParseRuleError { position, reason }),
    }
}
