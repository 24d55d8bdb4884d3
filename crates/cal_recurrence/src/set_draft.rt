//! A recurrence set while it is parsed.
ghost use Rattle.std.specs.Prelude.{◌≡◌, ◌+◌, ◌≤◌, ◌++◌, [], length, option_map, unwrap_or};
ghost use Rattle.cal_schedule.specs.Values.{most_values};
ghost use Rattle.cal_recurrence.specs.SetText.{error_after, has_periods, kind_of, line_of, list_error, once, parameters_of, parts_from, parts_of, recurrence_on, unless_error, value_error, value_of, value_on, values_on, with_line, with_value, with_zone, zone_error, zone_on};
ghost use Rattle.cal_recurrence.specs.Text.{list_of};
ghost use Rattle.cal_recurrence.specs.Words.{parts_at, rest_outside};

use crate::date_or_time::DateOrTime;
use crate::date_words::date_or_time_of;
use crate::fault::{ParseRuleError, ParseRuleErrorKind};
use crate::lists::has_room;
use crate::parsing::parse_parts;
use crate::recurrence::{Recurrence, RuleEnd};
use crate::rule_count::RuleCount;
use crate::set_fault::{ParseSetErrorKind, SetLine};
use crate::set_parameters::{all_allow, all_ignored, all_name, are_periods, first_zone, read_part};
use crate::set_parts::SetParts;
use crate::times_of_day::TimesOfDay;
use crate::words::{cut, cut_outside, is_alike};
use crate::zone_name::ZoneName;
use cal_date::day_number::to_date;
use cal_schedule::{Frequency, Pattern, Values};

/// The parts of a set that were parsed so far.
#[derive(Debug, Drop)]
pub struct SetDraft<'a> {
    pub start: Option<DateOrTime>,
    pub recurrence: Option<Recurrence>,
    pub dates: Values<DateOrTime>,
    pub exceptions: Values<DateOrTime>,
    pub zone: Option<ZoneName<'a>>,
}

/// Parses a value that each parameter allows, or returns `None`.
fn value_of(head: &[u8], word: &[u8]) -> Option<DateOrTime>
    ensures { result ≡ value_of (parameters_of head.now) word.now }
{
    let value = date_or_time_of(read_part(head, word)?)?;
    if all_allow(head, &value) {
        Some(value)
    } else {
        None
    }
}

/// Appends the values with commas between them, or returns `None` if one is invalid. There must be
/// room for them.
fn more_values(
    mut values: Values<DateOrTime>,
    head: &[u8],
    value: &[u8],
) -> Option<Values<DateOrTime>>
    requires { length values + length (parts_at 44 value.now) ≤ most_values }
    ensures { result ≡ option_map (λ more. values ++ more)
        (list_of (value_of (parameters_of head.now)) value.now) }
{
    let mut words = Some(value);
    while let Some(left) = words {
        let (word, rest) = cut(left, b',');
        values.push(value_of(head, word)?);
        words = rest;
    }
    Some(values)
}

/// Returns an empty list.
fn no_values() -> Values<DateOrTime>
    ensures { result ≡ [] }
{
    Values::none(DateOrTime::Date(to_date(0)))
}

/// Returns the bytes of a line after its head, or no bytes.
fn tail(line: &[u8]) -> &[u8]
    ensures { result.now ≡ rest_outside 58 line.now }
{
    cut_outside(line, b':').1.unwrap_or(b"".as_slice())
}

/// Parses the value of a line, or returns `None` if it is invalid.
fn value_on(line: &[u8]) -> Option<DateOrTime>
    ensures { result ≡ value_on line.now }
{
    value_of(cut_outside(line, b':').0, tail(line))
}

/// Returns the values with the values of one more line. Returns `TooMany` for more than 62 in all,
/// or `Value` if one is invalid.
fn more_of(
    dates: Values<DateOrTime>,
    line: &[u8],
    kind: SetLine,
) -> Result<Values<DateOrTime>, ParseSetErrorKind>
    ensures { result ≡ unless_error (list_error (length dates) line.now kind)
        (dates ++ unwrap_or (values_on line.now) []) }
{
    if !has_room(dates.as_slice().len(), tail(line)) {
        return Err(ParseSetErrorKind::TooMany(kind));
    }
    more_values(dates, cut_outside(line, b':').0, tail(line)).ok_or(ParseSetErrorKind::Value(kind))
}

/// Returns `true` if the values of a line are periods.
fn has_periods(line: &[u8]) -> bool
    ensures { result ≡ has_periods line.now }
{
    are_periods(cut_outside(line, b':').0)
}

/// Returns the recurrence of a set without `RRULE`.
fn once() -> Recurrence
    ensures { result ≡ once }
{
    Recurrence {
        pattern: Pattern::new(Frequency::Daily),
        times: TimesOfDay::new(),
        end: RuleEnd::Count(RuleCount::from_positive(1)),
    }
}

/// Returns the kind of a line by its name, or `None` for an unknown name.
pub fn kind_of(line: &[u8]) -> Option<SetLine>
    ensures { result ≡ kind_of line.now }
{
    line_of(cut_outside(cut_outside(line, b':').0, b';').0)
}

/// Returns the line with a name, or `None` for an unknown name.
fn line_of(name: &[u8]) -> Option<SetLine>
    ensures { result ≡ line_of name.now }
{
    if is_alike(name, b"DTSTART") {
        Some(SetLine::Start)
    } else if is_alike(name, b"RRULE") {
        Some(SetLine::Rule)
    } else if is_alike(name, b"RDATE") {
        Some(SetLine::Dates)
    } else if is_alike(name, b"EXDATE") {
        Some(SetLine::Exceptions)
    } else {
        None
    }
}

/// Parses the recurrence of a line. Returns `Unknown` at byte 0 for a line without a value, or with a
/// parameter that readers don't ignore, or the error of the value, whose position counts from the
/// start of the line.
fn recurrence_on(line: &[u8]) -> Result<Recurrence, ParseRuleError>
    ensures { result ≡ recurrence_on line.now }
{
    let (head, value) = cut_outside(line, b':');
    match value {
        Some(value) if all_ignored(head) => parse_parts(head.len() + 1, value),
        _ => Err(ParseRuleError {
            position: 0,
            reason: ParseRuleErrorKind::Unknown,
        }),
    }
}

impl<'a> SetDraft<'a> {
    /// Creates a draft without lines.
    pub fn new() -> Self
        ensures { result ≡ parts_of [] }
    {
        SetDraft {
            start: None,
            recurrence: None,
            dates: no_values(),
            exceptions: no_values(),
            zone: None,
        }
    }

    /// Parses one more line. Returns `Unknown` for an unknown name, or else the errors of
    /// `with_value` and `with_zone`.
    pub fn with_line(self, line: &'a [u8]) -> Result<Self, ParseSetErrorKind>
        ensures { result ≡ unless_error (error_after self.entry line.now)
            (with_line self.entry line.now) }
    {
        if line.is_empty() {
            return Ok(self);
        }
        let Some(kind) = kind_of(line) else {
            return Err(ParseSetErrorKind::Unknown);
        };
        match self.with_value(line, kind) {
            Ok(draft) => draft.with_zone(line, kind),
            Err(error) => Err(error),
        }
    }

    /// Parses the zone of one more line. Returns `OtherZone` if it names another one than a line
    /// before it, or two.
    fn with_zone(mut self, line: &'a [u8], kind: SetLine) -> Result<Self, ParseSetErrorKind>
        ensures { result ≡ unless_error (zone_error self.entry line.now kind)
            (with_zone self.entry line.now) }
    {
        let head = cut_outside(line, b':').0;
        if self.zone.is_none() {
            self.zone = match first_zone(head) {
                Some(name) => Some(ZoneName::new(name)),
                None => None,
            };
        }
        match &self.zone {
            Some(zone) if !all_name(head, zone.as_bytes()) => {
                Err(ParseSetErrorKind::OtherZone(kind))
            }
            _ => Ok(self),
        }
    }

    /// Parses the value of one more line. Returns `Twice` for a second start or recurrence, `Rule`
    /// for an invalid recurrence, `Value` for another invalid value, or for a period that isn't one
    /// of `RDATE`, or the errors of `more_of`.
    fn with_value(mut self, line: &[u8], kind: SetLine) -> Result<Self, ParseSetErrorKind>
        ensures { result ≡ unless_error (value_error self.entry line.now kind)
            (with_value self.entry line.now kind) }
    {
        match kind {
            SetLine::Start if self.start.is_some() => return Err(ParseSetErrorKind::Twice(kind)),
            SetLine::Start => {
                self.start = value_on(line);
                if has_periods(line) || self.start.is_none() {
                    return Err(ParseSetErrorKind::Value(kind));
                }
            }
            SetLine::Rule if self.recurrence.is_some() => {
                return Err(ParseSetErrorKind::Twice(kind));
            }
            SetLine::Rule => match recurrence_on(line) {
                Ok(recurrence) => self.recurrence = Some(recurrence),
                Err(error) => return Err(ParseSetErrorKind::Rule(error)),
            },
            SetLine::Dates => {
                let dates = std::mem::replace(&mut self.dates, no_values());
                self.dates = more_of(dates, line, kind)?;
            }
            SetLine::Exceptions if has_periods(line) => {
                return Err(ParseSetErrorKind::Value(kind));
            }
            SetLine::Exceptions => {
                let exceptions = std::mem::replace(&mut self.exceptions, no_values());
                self.exceptions = more_of(exceptions, line, kind)?;
            }
        }
        Ok(self)
    }

    /// Returns the parts, or `None` without a start. Without a recurrence the set has the start.
    pub fn finished(self) -> Option<SetParts<'a>>
        ensures { result ≡ option_map (parts_from self.entry) self.entry.start }
    {
        let SetDraft {
            start,
            recurrence,
            dates,
            exceptions,
            zone,
        } = self;
        let recurrence = match recurrence {
            Some(its) => its,
            None => once(),
        };
        Some(SetParts {
            start: start?,
            recurrence,
            dates,
            exceptions,
            zone,
        })
    }
}
