//! An event of a calendar.
ghost use Rattle.std.specs.Prelude.{◌≡◌, option_map, slice_get};
ghost use Rattle.cal_ics.specs.EventSet.{IsEventSet, values_named};

use crate::event_set::parse_event_set;
use crate::event_value::first_value;
use cal_recurrence::{ParseSetError, SetParts};

/// An event of a calendar: the component `VEVENT` of RFC 5545.
#[derive(Clone, Copy, Debug)]
pub struct Event<'a> {
    /// The position of the first byte of the lines in the text, counted from 0.
    pub position: usize,
    /// The lines between `BEGIN:VEVENT` and `END:VEVENT`. Each has its LF or CR LF.
    pub lines: &'a [u8],
    /// The text after the line `END:VEVENT`, or `None` if no line follows.
    pub rest: Option<&'a [u8]>,
}

impl<'a> Event<'a> {
    /// Parses the set of the event: its lines `DTSTART`, `RRULE`, `RDATE` and `EXDATE`. Positions of
    /// errors count from the start of the lines of the event. For `DTSTART:20240101` and
    /// `RRULE:FREQ=DAILY;COUNT=3`, the set has 1, 2 and 3 January 2024.
    pub fn set(&self) -> Result<SetParts<'a>, ParseSetError>
        ensures { IsEventSet self.now.lines.now result }
    {
        parse_event_set(self.lines)
    }

    /// Returns the value of the first line of the event with this name, or `None` without such a
    /// line. The value can have escapes, such as `\,`. For `SUMMARY;LANGUAGE=en:Meeting`, the value
    /// of `summary` is `Meeting`.
    pub fn value(&self, name: &[u8]) -> Option<&'a [u8]>
        ensures { option_map (λ value. value.now) result
            ≡ slice_get (values_named name.now self.now.lines.now) 0 }
    {
        first_value(self.lines, name)
    }
}
