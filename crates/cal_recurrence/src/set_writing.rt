//! Prints a recurrence set.
ghost use Rattle.std.specs.Prelude.{◌≡◌, ◌≤◌, ◌++◌, codes, length, take, IfSome};
ghost use Rattle.cal_recurrence.specs.Buffers.{IsPut};
ghost use Rattle.cal_recurrence.specs.SetText.{lines_of, SaysSet};
ghost use Rattle.cal_recurrence.specs.SetWritten.{head_text, is_same_kind, line_end, more_text, parameter_text, set_text, values_text, IsSpelledSet};
ghost use Rattle.cal_recurrence.specs.Written.{date_or_time_text};

use crate::buffers::put;
use crate::date_or_time::DateOrTime;
use crate::set_parts::SetParts;
use crate::writing::date_or_time_text;
use crate::zone_name::ZoneName;

impl SetParts<'_> {
    /// Writes the lines of the set to the front of the buffer, and returns the number of bytes.
    /// Returns `None` if the buffer is too short; then its bytes can be anything.
    ///
    /// The order is `DTSTART`, `RRULE`, `RDATE`, `EXDATE`, and each line ends with CR LF. Dates have
    /// the parameter `VALUE=DATE`, and readings without `Z` have `TZID` if the set has a zone. The
    /// values of a list are on one line as long as they are of one kind. For each set that
    /// [`parse_set`](crate::parse_set) can return, parsing its text gives the set again.
    ///
    /// A set from `DTSTART;VALUE=DATE:20240101` is printed as that line, and then
    /// `RRULE:FREQ=DAILY;COUNT=1`. That takes 55 bytes.
    pub fn print(&self, buffer: &mut [u8]) -> Option<usize>
        ensures text { IsPut 0 (set_text self.now) buffer.old buffer.new result }
        ensures reads_back { IsSpelledSet self.now
            → IfSome result (λ end. SaysSet (lines_of (take end buffer.new)) self.now) }
    {
        let next = put_values(b"DTSTART", &self.zone, &[self.start], buffer, 0)?;
        let next = put_rule(self.recurrence.text().as_bytes(), buffer, next)?;
        let next = put_values(b"RDATE", &self.zone, self.dates.as_slice(), buffer, next)?;
        put_values(
            b"EXDATE",
            &self.zone,
            self.exceptions.as_slice(),
            buffer,
            next,
        )
    }
}

/// Writes the line of a recurrence with this text to the buffer, from this position on.
fn put_rule(text: &[u8], buffer: &mut [u8], at: usize) -> Option<usize>
    requires { at ≤ length buffer.old }
    ensures { IsPut at (codes "RRULE:" ++ text.now ++ line_end) buffer.old buffer.new result }
{
    let next = put(buffer, at, b"RRULE:")?;
    let next = put(buffer, next, text)?;
    put(buffer, next, b"\r\n")
}

/// Writes the lines of the values to the buffer, from this position on.
fn put_values(
    name: &[u8],
    zone: &Option<ZoneName<'_>>,
    values: &[DateOrTime],
    buffer: &mut [u8],
    at: usize,
) -> Option<usize>
    requires { at ≤ length buffer.old }
    ensures { IsPut at (values_text name.now zone.now values.now) buffer.old buffer.new result }
{
    match values {
        [] => Some(at),
        [value, others @ ..] => {
            let next = put_head(name, zone, value, buffer, at)?;
            put_more(name, zone, value, others, buffer, next)
        }
    }
}

/// Writes the values after a line with this first value, and the end of the last line.
fn put_more(
    name: &[u8],
    zone: &Option<ZoneName<'_>>,
    first: &DateOrTime,
    values: &[DateOrTime],
    buffer: &mut [u8],
    at: usize,
) -> Option<usize>
    requires { at ≤ length buffer.old }
    ensures { IsPut at (more_text name.now zone.now first.now values.now) buffer.old buffer.new result }
{
    match values {
        [] => put(buffer, at, b"\r\n"),
        [value, others @ ..] => {
            if is_same_kind(first, value) {
                let next = put_next(value, buffer, at)?;
                put_more(name, zone, first, others, buffer, next)
            } else {
                let next = put(buffer, at, b"\r\n")?;
                let next = put_head(name, zone, value, buffer, next)?;
                put_more(name, zone, value, others, buffer, next)
            }
        }
    }
}

/// Returns `true` if both values are dates, both are readings without `Z`, or both are at UTC.
fn is_same_kind(first: &DateOrTime, value: &DateOrTime) -> bool
    ensures { result ≡ is_same_kind first.now value.now }
{
    match first {
        DateOrTime::Date(_) => matches!(value, DateOrTime::Date(_)),
        DateOrTime::Local(_) => matches!(value, DateOrTime::Local(_)),
        DateOrTime::Utc(_) => matches!(value, DateOrTime::Utc(_)),
    }
}

/// Writes one more value of a line, after a comma.
fn put_next(value: &DateOrTime, buffer: &mut [u8], at: usize) -> Option<usize>
    requires { at ≤ length buffer.old }
    ensures { IsPut at (codes "," ++ date_or_time_text value.now) buffer.old buffer.new result }
{
    let next = put(buffer, at, b",")?;
    put(buffer, next, date_or_time_text(*value).as_bytes())
}

/// Writes the start of a line: its name, its parameter and its first value.
fn put_head(
    name: &[u8],
    zone: &Option<ZoneName<'_>>,
    value: &DateOrTime,
    buffer: &mut [u8],
    at: usize,
) -> Option<usize>
    requires { at ≤ length buffer.old }
    ensures { IsPut at (head_text name.now zone.now value.now) buffer.old buffer.new result }
{
    let next = put(buffer, at, name)?;
    let next = put_parameter(zone, value, buffer, next)?;
    let next = put(buffer, next, b":")?;
    put(buffer, next, date_or_time_text(*value).as_bytes())
}

/// Writes the parameter of a line with values of this kind.
fn put_parameter(
    zone: &Option<ZoneName<'_>>,
    value: &DateOrTime,
    buffer: &mut [u8],
    at: usize,
) -> Option<usize>
    requires { at ≤ length buffer.old }
    ensures { IsPut at (parameter_text zone.now value.now) buffer.old buffer.new result }
{
    match value {
        DateOrTime::Date(_) => put(buffer, at, b";VALUE=DATE"),
        DateOrTime::Local(_) => match zone {
            Some(zone) => {
                let next = put(buffer, at, b";TZID=")?;
                put(buffer, next, zone.as_bytes())
            }
            None => Some(at),
        },
        DateOrTime::Utc(_) => Some(at),
    }
}
