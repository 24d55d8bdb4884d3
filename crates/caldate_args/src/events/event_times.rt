//! The times of an event.
ghost use Rattle.std.specs.Prelude.{◌≡◌, filter_map};
ghost use Rattle.caldate_args.specs.Events.{date_instants, day_end, event_instants, midnight_of, only_readings};

use cal_datetime::{PlainDateTime, midnight};
use cal_recurrence::{
    DateOrTime, Recurrence, RuleEnd, SetInstants, SetLine, SetParts, SetReadings, TimesOfDay,
};
use cal_schedule::Values;
use cal_time::Date;

/// Returns the times of an event in a zone. Dates are times at 0:00.
///
/// Returns the first of the lines `Start`, `Rule`, `Dates` and `Exceptions` with a value of another
/// kind than the start. For `DTSTART;VALUE=DATE:20240101`, the time is 2024-01-01 0:00.
pub fn instants_of(parts: &SetParts<'_>) -> Result<SetInstants, SetLine>
    ensures { result ≡ event_instants parts.now }
{
    match parts.start {
        DateOrTime::Date(first) => instants_of_dates(parts, first),
        DateOrTime::Local(_) => parts.instants(),
        DateOrTime::Utc(first) => only_readings(parts.readings(), first),
    }
}

/// Returns the times of an event that starts at a reading of UTC.
fn only_readings(
    readings: Result<SetReadings, SetLine>,
    first: PlainDateTime,
) -> Result<SetInstants, SetLine>
    ensures { result ≡ only_readings readings }
{
    match readings {
        Ok(readings) => Ok(SetInstants {
            readings,
            instants: Values::none(first.assume_utc()),
            exceptions: Values::none(first.assume_utc()),
        }),
        Err(line) => Err(line),
    }
}

/// Returns the times of an event whose values are dates, from the first one on.
fn instants_of_dates(parts: &SetParts<'_>, first: Date) -> Result<SetInstants, SetLine>
    ensures { result ≡ date_instants parts.now first }
{
    if parts.recurrence.times.clock.is_some() {
        return Err(SetLine::Rule);
    }
    let dates = midnights(&parts.dates);
    if dates.as_slice().len() != parts.dates.as_slice().len() {
        return Err(SetLine::Dates);
    }
    let exceptions = midnights(&parts.exceptions);
    if exceptions.as_slice().len() != parts.exceptions.as_slice().len() {
        return Err(SetLine::Exceptions);
    }
    let start = midnight(first);
    let filler = start.assume_utc();
    Ok(SetInstants {
        readings: SetReadings {
            start,
            recurrence: Recurrence {
                end: day_end(parts.recurrence.end),
                pattern: parts.recurrence.pattern.rule(first, None).pattern,
                times: TimesOfDay::new(),
            },
            dates,
            exceptions,
        },
        instants: Values::none(filler),
        exceptions: Values::none(filler),
    })
}

/// Returns the end of a recurrence of dates. A time of day of the `UNTIL` doesn't count.
fn day_end(end: RuleEnd) -> RuleEnd
    ensures { result ≡ day_end end }
{
    match end {
        RuleEnd::Until(last) => RuleEnd::Until(DateOrTime::Date(last.date())),
        RuleEnd::Never | RuleEnd::Count(_) => end,
    }
}

/// Returns the dates of the values, in order, each at 0:00.
fn midnights(values: &Values<DateOrTime>) -> Values<PlainDateTime>
    ensures { result ≡ filter_map midnight_of values.now }
{
    let mut readings = Values::none(midnight(Date::MIN));
    for value in values.as_slice() {
        if let Some(reading) = midnight_of(*value) {
            readings.push(reading);
        }
    }
    readings
}

/// Returns the start of the day of a date.
fn midnight_of(value: DateOrTime) -> Option<PlainDateTime>
    ensures { result ≡ midnight_of value }
{
    match value {
        DateOrTime::Date(date) => Some(midnight(date)),
        DateOrTime::Local(_) | DateOrTime::Utc(_) => None,
    }
}
