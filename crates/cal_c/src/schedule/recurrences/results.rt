//! Results of calls for recurrences in text.
ghost use Rattle.std.specs.Prelude.{◌≡◌};
ghost use Rattle.cal_c.specs.RecurrenceTexts.{recurrence_ok, recurrence_error, recurrence_parse_error, part_number, error_part, reason_status};

use crate::status::{
    DUPLICATE_PART, INVALID_VALUE, MISSING_FREQUENCY, OK, TOO_MANY_VALUES, UNKNOWN_PART,
};
use cal_recurrence::{ParseRuleError, ParseRuleErrorKind, RulePart};

/// The number of days written, or the first wrong part of the string.
#[repr(C)]
#[derive(Clone, Copy, Debug)]
pub struct RecurrenceResult {
    pub status: i32,
    /// The number of the wrong part, from 1 for `FREQ`, or 0.
    pub part: u32,
    pub length: usize,
    /// The position of the wrong part.
    pub position: usize,
}

fn part_number(part: RulePart) -> u32
    ensures { result ≡ part_number part }
{
    match part {
        RulePart::Frequency => 1,
        RulePart::Interval => 2,
        RulePart::WeekStart => 3,
        RulePart::Months => 4,
        RulePart::MonthDays => 5,
        RulePart::Weekdays => 6,
        RulePart::Until => 7,
        RulePart::Count => 8,
        RulePart::Positions => 9,
        RulePart::YearDays => 10,
        RulePart::Weeks => 11,
        RulePart::Hours => 12,
        RulePart::Minutes => 13,
        RulePart::Seconds => 14,
    }
}

pub(crate) fn reason_status(reason: ParseRuleErrorKind) -> i32
    ensures { result ≡ reason_status reason }
{
    match reason {
        ParseRuleErrorKind::Unknown => UNKNOWN_PART,
        ParseRuleErrorKind::Twice(_) => DUPLICATE_PART,
        ParseRuleErrorKind::TooMany(_) => TOO_MANY_VALUES,
        ParseRuleErrorKind::Value(_)
        | ParseRuleErrorKind::Excluded(_)
        | ParseRuleErrorKind::Alone(_) => INVALID_VALUE,
        ParseRuleErrorKind::Missing => MISSING_FREQUENCY,
    }
}

pub(super) fn error_part(reason: ParseRuleErrorKind) -> u32
    ensures { result ≡ error_part reason }
{
    match reason {
        ParseRuleErrorKind::Twice(part)
        | ParseRuleErrorKind::TooMany(part)
        | ParseRuleErrorKind::Value(part)
        | ParseRuleErrorKind::Excluded(part)
        | ParseRuleErrorKind::Alone(part) => { part_number(part) }
        ParseRuleErrorKind::Unknown | ParseRuleErrorKind::Missing => 0,
    }
}

impl RecurrenceResult {
    pub fn ok(length: usize) -> Self
        ensures { result ≡ recurrence_ok length }
    {
        RecurrenceResult {
            status: OK,
            part: 0,
            length,
            position: usize::MAX,
        }
    }

    pub fn error(status: i32) -> Self
        ensures { result ≡ recurrence_error status }
    {
        RecurrenceResult {
            status,
            part: 0,
            length: 0,
            position: usize::MAX,
        }
    }

    pub fn parse_error(fault: ParseRuleError) -> Self
        ensures { result ≡ recurrence_parse_error fault }
    {
        RecurrenceResult {
            status: reason_status(fault.reason),
            part: error_part(fault.reason),
            length: 0,
            position: fault.position,
        }
    }
}
