//! Errors in the text of a recurrence.
ghost use Rattle.std.specs.Prelude.{◌≡◌, ◌≤◌, Some, length};
ghost use Rattle.cal_recurrence.specs.FaultText.{fault_text, part_name, reason_text};

use cal_time::ShortText;
use std::fmt;

/// A part of the text of a recurrence, by its name in RFC 5545.
#[derive(Clone, Copy, Debug, PartialEq, Eq)]
pub enum RulePart {
    /// `FREQ`
    Frequency,
    /// `INTERVAL`
    Interval,
    /// `WKST`
    WeekStart,
    /// `BYMONTH`
    Months,
    /// `BYWEEKNO`
    Weeks,
    /// `BYYEARDAY`
    YearDays,
    /// `BYMONTHDAY`
    MonthDays,
    /// `BYDAY`
    Weekdays,
    /// `BYHOUR`
    Hours,
    /// `BYMINUTE`
    Minutes,
    /// `BYSECOND`
    Seconds,
    /// `BYSETPOS`
    Positions,
    /// `UNTIL`
    Until,
    /// `COUNT`
    Count,
}

/// A reason why a text is not a recurrence.
#[derive(Clone, Copy, Debug, PartialEq, Eq)]
pub enum ParseRuleErrorKind {
    /// The part has an unknown name, such as `RSCALE=GREGORIAN`.
    Unknown,
    /// An earlier part has the same name. `UNTIL` and `COUNT` both set the end, so a second one of
    /// either is an error.
    Twice(RulePart),
    /// The value of the part has more than 62 words with commas between them.
    TooMany(RulePart),
    /// The value of the part is invalid, such as `FREQ=HOURLY` or `BYMONTH=13`.
    Value(RulePart),
    /// The part and an earlier one exclude each other, such as `BYMONTHDAY=1` after `FREQ=WEEKLY`.
    ///
    /// `BYYEARDAY` and `BYWEEKNO` require `FREQ=YEARLY`, and `BYMONTHDAY` excludes `FREQ=WEEKLY`. A
    /// number in `BYDAY` requires `FREQ=MONTHLY` or `FREQ=YEARLY`, and excludes `BYWEEKNO`.
    Excluded(RulePart),
    /// The part requires another list, such as `BYDAY` or `BYHOUR`. Only `BYSETPOS` does.
    Alone(RulePart),
    /// The text has no `FREQ`.
    Missing,
}

/// The first error in a text.
///
/// It prints its reason and its position: `invalid value of BYDAY at 13`.
#[derive(Clone, Copy, Debug, PartialEq, Eq)]
pub struct ParseRuleError {
    /// The position of the first byte of the invalid part, counted from 0. For a missing `FREQ` it
    /// is the length of the text.
    pub position: usize,
    /// The reason why the text is not a recurrence.
    pub reason: ParseRuleErrorKind,
}

impl RulePart {
    /// Returns the name of the part in RFC 5545, at most 10 bytes. For `RulePart::Weekdays` it is
    /// `BYDAY`.
    pub fn name(self) -> &'static str
        ensures value { result.now ≡ part_name self }
        ensures short { length result.now ≤ 10 }
    {
        match self {
            RulePart::Frequency => "FREQ",
            RulePart::Interval => "INTERVAL",
            RulePart::WeekStart => "WKST",
            RulePart::Months => "BYMONTH",
            RulePart::Weeks => "BYWEEKNO",
            RulePart::YearDays => "BYYEARDAY",
            RulePart::MonthDays => "BYMONTHDAY",
            RulePart::Weekdays => "BYDAY",
            RulePart::Hours => "BYHOUR",
            RulePart::Minutes => "BYMINUTE",
            RulePart::Seconds => "BYSECOND",
            RulePart::Positions => "BYSETPOS",
            RulePart::Until => "UNTIL",
            RulePart::Count => "COUNT",
        }
    }
}

impl ParseRuleErrorKind {
    /// Returns the text of the reason, such as `duplicate COUNT`, `too many values in BYDAY` or
    /// `missing FREQ`.
    pub fn text(self) -> ShortText
        ensures { result ≡ reason_text self }
    {
        let mut text = ShortText::new();
        match self {
            ParseRuleErrorKind::Unknown => text.push("unknown part"),
            ParseRuleErrorKind::Twice(part) => {
                text.push("duplicate ");
                text.push(part.name());
            }
            ParseRuleErrorKind::TooMany(part) => {
                text.push("too many values in ");
                text.push(part.name());
            }
            ParseRuleErrorKind::Value(part) => {
                text.push("invalid value of ");
                text.push(part.name());
            }
            ParseRuleErrorKind::Excluded(part) => {
                text.push("excluded ");
                text.push(part.name());
            }
            ParseRuleErrorKind::Alone(part) => {
                text.push("no other part with ");
                text.push(part.name());
            }
            ParseRuleErrorKind::Missing => text.push("missing FREQ"),
        }
        text
    }
}

impl fmt::Display for ParseRuleErrorKind {
    ghost output = { λ reason. Some (reason_text reason) };

    fn fmt<W: fmt::Write>(&self, f: &mut fmt::Formatter<W>) -> fmt::Result {
        f.write_str(self.text().as_str())
    }
}

impl fmt::Display for ParseRuleError {
    ghost output = { λ fault. Some (fault_text fault) };

    fn fmt<W: fmt::Write>(&self, f: &mut fmt::Formatter<W>) -> fmt::Result {
        write!(f, "{} at {}", self.reason, self.position)
    }
}
