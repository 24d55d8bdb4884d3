//! The days, the readings or the instants of a parsed recurrence set.
ghost use Rattle.std.specs.Prelude.{◌≡◌};
ghost use Rattle.std.specs.List.{list_any};
ghost use Rattle.cal_recurrence.specs.SetMeaning.{counted_rule, ends_with, last_counted_day, last_instant, set_days, set_instants, set_readings, readings_starting, zone_rule};
ghost use Rattle.cal_recurrence.specs.SetText.{is_date};

use crate::counted_set::CountedSet;
use crate::counted_zoned_set::CountedZonedSet;
use crate::date_or_time::DateOrTime;
use crate::recurrence::{Recurrence, RuleEnd};
use crate::set::RecurrenceSet;
use crate::set_fault::SetLine;
use crate::set_parameters::is_date;
use crate::set_parts::SetParts;
use crate::set_values::kept;
use cal_date::day_number::to_date;
use cal_datetime::{OffsetDateTime, PlainDateTime};
use cal_schedule::{Rule, Values};
use cal_time::Date;
use cal_zone::Zone;

/// The days of a parsed set: its rule and its lists.
#[derive(Debug, Drop)]
pub struct SetDays {
    /// The rule (`DTSTART` and `RRULE`). A `COUNT` ends it at the last of the days.
    pub rule: Rule,
    /// The other days (`RDATE`).
    pub dates: Values<Date>,
    /// The days to leave out (`EXDATE`).
    pub exceptions: Values<Date>,
}

/// The readings of a parsed set: its recurrence and its lists.
#[derive(Debug, Drop)]
pub struct SetReadings {
    /// The start (`DTSTART`).
    pub start: PlainDateTime,
    /// The recurrence (`RRULE`).
    pub recurrence: Recurrence,
    /// The other readings (`RDATE`).
    pub dates: Values<PlainDateTime>,
    /// The readings to leave out (`EXDATE`).
    pub exceptions: Values<PlainDateTime>,
}

/// The readings of a parsed set in a zone, other instants and the instants that it leaves out.
#[derive(Debug, Drop)]
pub struct SetInstants {
    /// The readings (`DTSTART`, `RRULE`, `RDATE` and `EXDATE` with local times).
    pub readings: SetReadings,
    /// The other instants (`RDATE` in UTC), at the offset 0.
    pub instants: Values<OffsetDateTime>,
    /// The instants to leave out (`EXDATE` in UTC).
    pub exceptions: Values<OffsetDateTime>,
}

impl SetDays {
    /// Returns the set of the days, which borrows the lists. For `DTSTART:20240101` and
    /// `RRULE:FREQ=DAILY;COUNT=3`, it has 1, 2 and 3 January 2024.
    pub fn set(&self) -> RecurrenceSet<'_>
        ensures rule { result.rule ≡ self.now.rule }
        ensures dates { result.dates.now ≡ self.now.dates }
        ensures exceptions { result.exceptions.now ≡ self.now.exceptions }
    {
        RecurrenceSet {
            rule: self.rule.pattern.rule(self.rule.start, self.rule.until),
            dates: self.dates.as_slice(),
            exceptions: self.exceptions.as_slice(),
        }
    }
}

impl SetReadings {
    /// Returns the set of the readings, which borrows the lists. For `DTSTART:20240101T090000` and
    /// `RRULE:FREQ=DAILY;COUNT=3`, it has 9:00 on 1, 2 and 3 January 2024.
    pub fn set(&self) -> CountedSet<'_>
        ensures rule { result.rule ≡ counted_rule self.now.recurrence self.now.start }
        ensures dates { result.dates.now ≡ self.now.dates }
        ensures exceptions { result.exceptions.now ≡ self.now.exceptions }
    {
        let (dates, exceptions) = (self.dates.as_slice(), self.exceptions.as_slice());
        self.recurrence.counted_set(self.start, dates, exceptions)
    }
}

impl SetInstants {
    /// Returns the set of the instants in a zone, which borrows the lists and the zone. For
    /// `DTSTART:20240330T023000` and `RRULE:FREQ=DAILY;COUNT=2` in Berlin, it has 2024-03-30 2:30
    /// +01:00:00 and 2024-03-31 3:30 +02:00:00.
    pub fn set<'a>(&'a self, zone: &'a Zone<'a>) -> CountedZonedSet<'a>
        ensures zone { result.zone.now ≡ zone.now }
        ensures rule { result.readings.rule ≡ zone_rule self.now.readings.recurrence self.now.readings.start }
        ensures dates { result.readings.dates.now ≡ self.now.readings.dates }
        ensures readings { result.readings.exceptions.now ≡ self.now.readings.exceptions }
        ensures until { result.until ≡ last_instant self.now.readings.recurrence.end }
        ensures instants { result.instants.now ≡ self.now.instants }
        ensures exceptions { result.exceptions.now ≡ self.now.exceptions }
    {
        let its = &self.readings;
        let (dates, exceptions) = (its.dates.as_slice(), its.exceptions.as_slice());
        its.recurrence
            .zoned_set(its.start, dates, exceptions, zone)
            .with_instants(self.instants.as_slice(), self.exceptions.as_slice())
    }
}

impl Recurrence {
    /// Returns the last possible day from a start: the day of an `UNTIL`, or the last of `COUNT`
    /// days. Without such a day it is the first day of the range.
    fn last_counted_day(&self, first: Date) -> Option<Date>
        ensures { result ≡ last_counted_day self.now first }
    {
        match self.end {
            RuleEnd::Never => None,
            RuleEnd::Until(last) => Some(last.date()),
            RuleEnd::Count(_) => {
                let mut last = Some(to_date(0));
                for day in self.days(first) {
                    last = Some(day);
                }
                last
            }
        }
    }
}

/// Returns `true` unless the end is an `UNTIL` with `Z` and the start has none, or the other way
/// round.
fn ends_with(end: RuleEnd, is_utc: bool) -> bool
    ensures { result ≡ ends_with is_utc end }
{
    match end {
        RuleEnd::Until(DateOrTime::Local(_)) => !is_utc,
        RuleEnd::Until(DateOrTime::Utc(_)) => is_utc,
        RuleEnd::Until(DateOrTime::Date(_)) | RuleEnd::Never | RuleEnd::Count(_) => true,
    }
}

/// Returns `true` if one of the values is a date.
fn any_date(values: &[DateOrTime]) -> bool
    ensures { result ≡ list_any is_date values.now }
{
    values.iter().any(is_date)
}

impl SetParts<'_> {
    /// Returns the days of a set of dates. A time of day of the `UNTIL` doesn't count.
    ///
    /// Returns the first of the lines `Start`, `Rule`, `Dates` and `Exceptions` with a time of day or
    /// with periods within days, such as `FREQ=HOURLY`. With a `COUNT` it walks over the days of the
    /// rule once. For `DTSTART:20240101` and `RRULE:FREQ=DAILY;COUNT=3`, the rule ends on 3 January
    /// 2024.
    pub fn days(&self) -> Result<SetDays, SetLine>
        ensures { result ≡ set_days self.now }
    {
        let DateOrTime::Date(first) = self.start else {
            return Err(SetLine::Start);
        };
        if self.recurrence.times.clock.is_some() {
            return Err(SetLine::Rule);
        }
        let dates = kept(&self.dates, false, first);
        if dates.as_slice().len() != self.dates.as_slice().len() {
            return Err(SetLine::Dates);
        }
        let exceptions = kept(&self.exceptions, false, first);
        if exceptions.as_slice().len() != self.exceptions.as_slice().len() {
            return Err(SetLine::Exceptions);
        }
        let last = self.recurrence.last_counted_day(first);
        Ok(SetDays {
            rule: self.recurrence.pattern.rule(first, last),
            dates,
            exceptions,
        })
    }

    /// Returns the readings of a set with times of day. If the start has a `Z`, they are readings
    /// of UTC; otherwise they are readings of any clock. An `UNTIL` that is a date includes the
    /// whole day.
    ///
    /// Returns the first of the lines `Start`, `Rule`, `Dates` and `Exceptions` with a value of
    /// another kind: a date, except in an `UNTIL`, or a time with `Z` if the start has none, or
    /// without it. For `DTSTART:20240101T090000` and `RDATE:20240102T100000Z`, it returns `Dates`.
    pub fn readings(&self) -> Result<SetReadings, SetLine>
        ensures { result ≡ set_readings self.now }
    {
        match self.start {
            DateOrTime::Date(_) => Err(SetLine::Start),
            DateOrTime::Local(first) => self.readings_from(first, false),
            DateOrTime::Utc(first) => self.readings_from(first, true),
        }
    }

    /// Returns the readings of a set that starts at a reading, which is at UTC or not.
    fn readings_from(&self, first: PlainDateTime, is_utc: bool) -> Result<SetReadings, SetLine>
        ensures { result ≡ readings_starting self.now is_utc first }
    {
        if !ends_with(self.recurrence.end, is_utc) {
            return Err(SetLine::Rule);
        }
        let dates = kept(&self.dates, is_utc, first);
        if dates.as_slice().len() != self.dates.as_slice().len() {
            return Err(SetLine::Dates);
        }
        let exceptions = kept(&self.exceptions, is_utc, first);
        if exceptions.as_slice().len() != self.exceptions.as_slice().len() {
            return Err(SetLine::Exceptions);
        }
        Ok(SetReadings {
            start: first,
            recurrence: self.recurrence.copy(),
            dates,
            exceptions,
        })
    }

    /// Returns the readings and the instants of a set in a zone. Local values are readings of the
    /// zone, and values with `Z` are instants. An `UNTIL` that is a date includes the whole day.
    ///
    /// Returns the first of the lines `Start`, `Dates` and `Exceptions` with another value. A
    /// `DTSTART` with `Z` means UTC, so it is one; then use `readings`. For `DTSTART:20240101T090000`
    /// and `RDATE:20240102T100000Z`, 9:00 on 1 January is a reading, and 10:00 UTC on 2 January is
    /// another instant.
    pub fn instants(&self) -> Result<SetInstants, SetLine>
        ensures { result ≡ set_instants self.now }
    {
        let DateOrTime::Local(first) = self.start else {
            return Err(SetLine::Start);
        };
        if any_date(self.dates.as_slice()) {
            return Err(SetLine::Dates);
        }
        if any_date(self.exceptions.as_slice()) {
            return Err(SetLine::Exceptions);
        }
        let filler = first.assume_utc();
        Ok(SetInstants {
            readings: SetReadings {
                start: first,
                recurrence: self.recurrence.copy(),
                dates: kept(&self.dates, false, first),
                exceptions: kept(&self.exceptions, false, first),
            },
            instants: kept(&self.dates, true, filler),
            exceptions: kept(&self.exceptions, true, filler),
        })
    }
}
