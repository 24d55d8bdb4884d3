//! The arguments of `list`.
ghost use Rattle.std.specs.Prelude.{◌≤◌, IfOk, IfSome};
ghost use Rattle.caldate_args.specs.Lists.{HasValidStep, IsStep};

use crate::args::requirement::Requirement;
use crate::args::spelling::{iso_period_of, parse_u32, unit_of};
use crate::args::word_error::{Expected, WordError, requirement_at, word_error_at};
use crate::args::words::{check_end, ends_at, found_at, keyword_at, word_as, word_at};
use crate::args::{has_period, zone_at};
use crate::command::{
    Command, EventList, EventZones, Listing, Moments, Occurrences, Span, Step, StepUnit,
};
use crate::data_files::data_error::DataError;
use crate::data_files::system_files::SystemFiles;
use crate::events::NamedZone;
use crate::events::read_events_error::{EventErrorKind, ReadEventsError};
use crate::zones::zone_with;
use cal_datetime::{OffsetDateTime, midnight};
use cal_recurrence::{Recurrence, parse, parse_days};
use cal_schedule::Period;
use cal_text::DateOrMoment;
use cal_time::{Date, UtcOffset};
use cal_zone::{Policy, Zone};
use caldate_answers::request::{Clock, TimeUnit};
use caldate_lines::lines::index_of;
use std::fs::Files;

/// Parses `list from A to B`, and perhaps `by N UNIT`, `by PERIOD`, `by RULE` or `by FILE.ics`, these
/// perhaps with `at ZONE`.
pub fn list_of<'a, S: Files>(
    words: &'a [u8],
    now: &Option<OffsetDateTime>,
    files: &mut SystemFiles<'_, 'a, S>,
) -> Result<Command<'a>, WordError>
    ensures steps { IfOk result HasValidStep }
{
    keyword_at(words, 1, b"from", Expected::From)?;
    if is_rule_like(words) {
        return Ok(Command::Recurring(occurrences_of(words, now, files)?));
    }
    if let Some(name) = calendar_name(words) {
        return Ok(Command::Events(events_of(words, name, now, files)?));
    }
    if is_in_zone(words) {
        return Ok(Command::Moments(moments_of(words, now, files)?));
    }
    let first = date_at(words, 2, now)?;
    keyword_at(words, 3, b"to", Expected::UpTo)?;
    let last = date_at(words, 4, now)?;
    let step = step_of(words)?;
    check_end(words, after_step(words))?;
    Ok(Command::Dates(Listing { first, last, step }))
}

/// Returns the index of the word after the step, which is a period, or a number and a unit.
fn after_step(words: &[u8]) -> usize
    ensures { result ≤ 8 }
{
    if has_period(words, 6) { 7 } else { 8 }
}

/// Returns whether the word after the step is `at`.
fn is_in_zone(words: &[u8]) -> bool {
    match word_at(words, after_step(words)) {
        Some(word) => word == b"at".as_slice(),
        None => false,
    }
}

/// Parses `A to B by N UNIT at ZONE` or `A to B by PERIOD at ZONE`, where A and B are two moments.
fn moments_of<'a, S: Files>(
    words: &'a [u8],
    now: &Option<OffsetDateTime>,
    files: &mut SystemFiles<'_, 'a, S>,
) -> Result<Moments<'a>, WordError>
    ensures { IfOk result (λ moments. IsStep moments.step) }
{
    let first = found_at(words, 2, Expected::Target, *now)?;
    keyword_at(words, 3, b"to", Expected::UpTo)?;
    let span = span_from(words, &first, now)?;
    let step = step_of(words)?;
    let at = after_step(words);
    let Span::Moments(first, last) = span else {
        return Err(requirement_at(at, Requirement::TwoMoments));
    };
    let zone = zone_at(words, at + 1, files)?;
    let policy = Policy::Compatible;
    Ok(Moments {
        clock: Clock { zone, policy },
        first,
        last,
        step,
    })
}

/// Parses `A to B by RULE`, where A and B are two dates or two moments, perhaps with `at ZONE`.
fn occurrences_of<'a, S: Files>(
    words: &'a [u8],
    now: &Option<OffsetDateTime>,
    files: &mut SystemFiles<'_, 'a, S>,
) -> Result<Occurrences<'a>, WordError> {
    let first = found_at(words, 2, Expected::Target, *now)?;
    keyword_at(words, 3, b"to", Expected::UpTo)?;
    let span = span_from(words, &first, now)?;
    keyword_at(words, 5, b"by", Expected::By)?;
    let recurrence = recurrence_at(words, 6, &span)?;
    let span = span_at(words, span, files)?;
    Ok(Occurrences { span, recurrence })
}

/// Parses `at ZONE` after two moments and a RULE or a file, or the end of the words.
fn span_at<'a, S: Files>(
    words: &'a [u8],
    span: Span<'a>,
    files: &mut SystemFiles<'_, 'a, S>,
) -> Result<Span<'a>, WordError> {
    if ends_at(words, 7) {
        return Ok(span);
    }
    keyword_at(words, 7, b"at", Expected::End)?;
    let Span::Moments(first, last) = span else {
        return Err(requirement_at(7, Requirement::TwoMoments));
    };
    let zone = zone_at(words, 8, files)?;
    Ok(Span::InZone(zone, first, last))
}

/// The index of the word after `by`.
const BY: usize = 6;

/// Returns the name of the calendar file after `by`, which ends with `.ics`, if there is one.
fn calendar_name(words: &[u8]) -> Option<&[u8]> {
    let name = word_at(words, BY)?;
    if name.len() > 4 && name[name.len() - 4..].eq_ignore_ascii_case(b".ics") {
        return Some(name);
    }
    None
}

/// Parses `A to B by FILE.ics`, where A and B are two dates or two moments, perhaps with `at ZONE`.
fn events_of<'a, S: Files>(
    words: &'a [u8],
    name: &'a [u8],
    now: &Option<OffsetDateTime>,
    files: &mut SystemFiles<'_, 'a, S>,
) -> Result<EventList<'a>, WordError> {
    let first = found_at(words, 2, Expected::Target, *now)?;
    keyword_at(words, 3, b"to", Expected::UpTo)?;
    let span = span_from(words, &first, now)?;
    keyword_at(words, 5, b"by", Expected::By)?;
    let has_dates = matches!(span, Span::Dates(_, _));
    let calendar = files
        .calendar(name, has_dates)
        .ok_or(word_error_at(BY, Expected::Events))?;
    let (first, last) = moments_in(&span);
    let own = own_zone(span_at(words, span, files)?, first)?;
    let zones = EventZones {
        own,
        named: named_zone(calendar.zone, files)?,
        utc: fixed_zone(UtcOffset::UTC)?,
    };
    Ok(EventList {
        text: calendar.text,
        zones,
        first,
        last,
        has_dates,
    })
}

/// Returns the first and the last moment. Dates are moments at 0:00 UTC.
fn moments_in(span: &Span<'_>) -> (OffsetDateTime, OffsetDateTime) {
    match span {
        Span::Dates(first, last) => (midnight(*first).assume_utc(), midnight(*last).assume_utc()),
        Span::Moments(first, last) | Span::InZone(_, first, last) => (*first, *last),
    }
}

/// Returns the zone of a list: that of `at ZONE`, or else the offset of the first moment.
fn own_zone<'a>(span: Span<'a>, first: OffsetDateTime) -> Result<Zone<'a>, WordError> {
    match span {
        Span::InZone(zone, _, _) => Ok(zone),
        Span::Dates(_, _) | Span::Moments(_, _) => fixed_zone(first.offset()),
    }
}

/// Returns a zone with one offset.
fn fixed_zone<'a>(offset: UtcOffset) -> Result<Zone<'a>, WordError> {
    zone_with(offset).ok_or(word_error_at(2, Expected::Moment))
}

/// Reads the zone that events name, if any does.
fn named_zone<'a, S: Files>(
    named: Option<NamedZone<'a>>,
    files: &mut SystemFiles<'_, 'a, S>,
) -> Result<Option<Zone<'a>>, WordError> {
    let Some(named) = named else {
        return Ok(None);
    };
    if let Some(zone) = files.zone(named.name) {
        return Ok(Some(zone));
    }
    let error = ReadEventsError::Line(named.line, EventErrorKind::UnknownZone);
    files.keep_reason(Some(DataError::Events(error)));
    Err(word_error_at(BY, Expected::Events))
}

/// Parses B, a date if A is one, else a moment.
fn span_from(
    words: &[u8],
    first: &DateOrMoment,
    now: &Option<OffsetDateTime>,
) -> Result<Span<'static>, WordError> {
    match first {
        DateOrMoment::Date(_, date) => Ok(Span::Dates(*date, date_at(words, 4, now)?)),
        DateOrMoment::Moment(_, moment) => Ok(Span::Moments(*moment, moment_at(words, 4, now)?)),
    }
}

/// Parses the word at an index as a date.
fn date_at(words: &[u8], at: usize, now: &Option<OffsetDateTime>) -> Result<Date, WordError> {
    let found = found_at(words, at, Expected::Date, *now)?;
    date_in(&found).ok_or(word_error_at(at, Expected::Date))
}

fn date_in(found: &DateOrMoment) -> Option<Date> {
    match found {
        DateOrMoment::Date(_, date) => Some(*date),
        DateOrMoment::Moment(_, _) => None,
    }
}

/// Parses the word at an index as a moment.
fn moment_at(
    words: &[u8],
    at: usize,
    now: &Option<OffsetDateTime>,
) -> Result<OffsetDateTime, WordError> {
    let found = found_at(words, at, Expected::Moment, *now)?;
    moment_in(&found).ok_or(word_error_at(at, Expected::Moment))
}

fn moment_in(found: &DateOrMoment) -> Option<OffsetDateTime> {
    match found {
        DateOrMoment::Date(_, _) => None,
        DateOrMoment::Moment(_, moment) => Some(*moment),
    }
}

/// The maximum of days or months: 4294967295 years.
const MAX_STEP: i64 = 51_539_607_540;

const EVERY_DAY: Step = Step {
    every: 1,
    unit: StepUnit::Days,
};

/// Parses `by N UNIT` or `by PERIOD` after the two dates. The default is every day.
fn step_of(words: &[u8]) -> Result<Step, WordError>
    ensures steps { IfOk result IsStep }
{
    if ends_at(words, 5) {
        return Ok(EVERY_DAY);
    }
    keyword_at(words, 5, b"by", Expected::By)?;
    if has_period(words, 6) {
        let period = word_as(words, 6, iso_period_of, Expected::IsoPeriod)?;
        return match step_by(period) {
            Some(step) => Ok(step),
            None => Err(word_error_at(6, Expected::StepPeriod)),
        };
    }
    let number = number_at(words, 6)?;
    let unit = word_as(words, 7, unit_of, Expected::UnitOfDays)?;
    match step_in(number, unit) {
        Some(step) => Ok(step),
        None => Err(word_error_at(7, Expected::UnitOfDays)),
    }
}

/// Returns the step of a positive period of years and months, or of weeks and days.
fn step_by(period: Period) -> Option<Step>
    ensures { IfSome result IsStep }
{
    if !period.duration().is_zero() {
        return None;
    }
    let (months, days) = (period.whole_months(), period.whole_days());
    if days == 0 {
        step_from(months, StepUnit::Months)
    } else if months == 0 {
        step_from(days, StepUnit::Days)
    } else {
        None
    }
}

/// Returns the step of a positive number of units.
fn step_from(number: i64, unit: StepUnit) -> Option<Step>
    ensures { IfSome result IsStep }
{
    if number < 1 || number > MAX_STEP {
        return None;
    }
    Some(Step {
        every: number as u64,
        unit,
    })
}

/// Parses the word at an index as a number from 1 to 4294967295.
fn number_at(words: &[u8], at: usize) -> Result<u32, WordError>
    ensures { IfOk result (λ number. 1 ≤ number) }
{
    match word_at(words, at) {
        Some(word) => parse_u32(word).ok_or(word_error_at(at, Expected::Many)),
        None => Err(word_error_at(at, Expected::Many)),
    }
}

/// Returns whether word 6 contains a `=`, as every recurrence does and no number does.
fn is_rule_like(words: &[u8]) -> bool {
    match word_at(words, 6) {
        Some(word) => index_of(b'=', word).is_some(),
        None => false,
    }
}

/// Parses the word at an index as a recurrence. Dates have no hours, so one by hours can't start at a
/// date.
fn recurrence_at(words: &[u8], at: usize, span: &Span<'_>) -> Result<Recurrence, WordError> {
    match span {
        Span::Dates(_, _) => word_as(words, at, day_rule_of, Expected::DayRule),
        Span::Moments(_, _) | Span::InZone(_, _, _) => word_as(words, at, rule_of, Expected::Rule),
    }
}

fn rule_of(text: &[u8]) -> Option<Recurrence> {
    parse(text).ok()
}

fn day_rule_of(text: &[u8]) -> Option<Recurrence> {
    parse_days(text).ok()
}

/// Returns a step of `number` days, weeks, months or years, or `None` for any other unit.
fn step_in(number: u32, unit: TimeUnit) -> Option<Step>
    ensures steps { 1 ≤ number → IfSome result IsStep }
{
    let number = u64::from(number);
    let (every, unit) = match unit {
        TimeUnit::Days => (number, StepUnit::Days),
        TimeUnit::Weeks => (number * 7, StepUnit::Days),
        TimeUnit::Months => (number, StepUnit::Months),
        TimeUnit::Years => (number * 12, StepUnit::Months),
        _ => return None,
    };
    Some(Step { every, unit })
}
