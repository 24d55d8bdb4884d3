//! Errors in the text of a recurrence set.
ghost use Rattle.std.specs.Prelude.{◌≡◌, ◌≤◌, Some, length};
ghost use Rattle.cal_recurrence.specs.SetFaultText.{line_name, set_fault_text, set_reason_text};

use crate::fault::ParseRuleError;
use cal_time::ShortText;
use std::fmt;

/// A line of the text of a recurrence set, by its name in RFC 5545.
#[derive(Clone, Copy, Debug, PartialEq, Eq)]
pub enum SetLine {
    /// `DTSTART`
    Start,
    /// `RRULE`
    Rule,
    /// `RDATE`
    Dates,
    /// `EXDATE`
    Exceptions,
}

/// A reason why a text is not a recurrence set.
#[derive(Clone, Copy, Debug, PartialEq, Eq)]
pub enum ParseSetErrorKind {
    /// The line has an unknown name, such as `DTEND`.
    Unknown,
    /// An earlier line has the same name. Only `RDATE` and `EXDATE` can be repeated.
    Twice(SetLine),
    /// The lines of this name have more than 62 values.
    TooMany(SetLine),
    /// A value of the line is invalid, or is excluded by a parameter of the line.
    Value(SetLine),
    /// The line names another zone than a line before it, or two zones (`TZID`).
    OtherZone(SetLine),
    /// The line `RRULE` is invalid. The position in this error counts from the start of the line.
    Rule(ParseRuleError),
    /// The text has no `DTSTART`.
    Missing,
}

/// The first error in the text of a recurrence set.
///
/// It prints its reason and its position: `invalid value of EXDATE at 42`.
#[derive(Clone, Copy, Debug, PartialEq, Eq)]
pub struct ParseSetError {
    /// The position of the first byte of the invalid line, counted from 0. For a missing `DTSTART`
    /// it is the length of the text.
    pub position: usize,
    /// The reason why the text is not a recurrence set.
    pub reason: ParseSetErrorKind,
}

impl SetLine {
    /// Returns the name of the line in RFC 5545, at most 7 bytes. For `SetLine::Dates` it is
    /// `RDATE`.
    pub fn name(self) -> &'static str
        ensures value { result.now ≡ line_name self }
        ensures short { length result.now ≤ 7 }
    {
        match self {
            SetLine::Start => "DTSTART",
            SetLine::Rule => "RRULE",
            SetLine::Dates => "RDATE",
            SetLine::Exceptions => "EXDATE",
        }
    }
}

impl ParseSetErrorKind {
    /// Returns the text of the reason, such as `duplicate DTSTART` or `missing DTSTART`.
    pub fn text(self) -> ShortText
        ensures { result ≡ set_reason_text self }
    {
        let mut text = ShortText::new();
        match self {
            ParseSetErrorKind::Unknown => text.push("unknown line"),
            ParseSetErrorKind::Twice(line) => {
                text.push("duplicate ");
                text.push(line.name());
            }
            ParseSetErrorKind::TooMany(line) => {
                text.push("too many values in ");
                text.push(line.name());
            }
            ParseSetErrorKind::Value(line) => {
                text.push("invalid value of ");
                text.push(line.name());
            }
            ParseSetErrorKind::OtherZone(line) => {
                text.push("another zone in ");
                text.push(line.name());
            }
            ParseSetErrorKind::Rule(_) => text.push("invalid RRULE"),
            ParseSetErrorKind::Missing => text.push("missing DTSTART"),
        }
        text
    }
}

impl fmt::Display for ParseSetErrorKind {
    ghost output = { λ reason. Some (set_reason_text reason) };

    fn fmt<W: fmt::Write>(&self, f: &mut fmt::Formatter<W>) -> fmt::Result {
        f.write_str(self.text().as_str())
    }
}

impl fmt::Display for ParseSetError {
    ghost output = { λ fault. Some (set_fault_text fault) };

    fn fmt<W: fmt::Write>(&self, f: &mut fmt::Formatter<W>) -> fmt::Result {
        write!(f, "{} at {}", self.reason, self.position)
    }
}
