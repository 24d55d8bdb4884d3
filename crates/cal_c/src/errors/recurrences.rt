//! Recurrences that don't parse.
ghost use Rattle.std.specs.Prelude.{◌≡◌, IfSome, Some};
ghost use Rattle.cal_recurrence.specs.declared.fault.ParseRuleErrorKind.{ParseRuleErrorKind};
ghost use Rattle.cal_recurrence.specs.declared.fault.RulePart.{RulePart};
ghost use Rattle.cal_errors.specs.Statuses.{sentence, with_position};
ghost use Rattle.cal_c.specs.Errors.{HasReason, error_text, reason_at};
ghost use Rattle.cal_c.specs.RecurrenceTexts.{part_number};

use super::ErrorText;
use crate::status::{DUPLICATE_PART, INVALID_VALUE, TOO_MANY_VALUES};
use cal_errors::{Sentence, sentence_at};
use cal_recurrence::{ParseRuleErrorKind, RulePart};

/// Returns the part with a number, or `None`.
fn part_with(number: u32) -> Option<RulePart>
    ensures every { (p : RulePart) → number ≡ part_number p → result ≡ Some p }
    ensures value { IfSome result (λ p. number ≡ part_number p) }
{
    match number {
        1 => Some(RulePart::Frequency),
        2 => Some(RulePart::Interval),
        3 => Some(RulePart::WeekStart),
        4 => Some(RulePart::Months),
        5 => Some(RulePart::MonthDays),
        6 => Some(RulePart::Weekdays),
        7 => Some(RulePart::Until),
        8 => Some(RulePart::Count),
        9 => Some(RulePart::Positions),
        10 => Some(RulePart::YearDays),
        11 => Some(RulePart::Weeks),
        12 => Some(RulePart::Hours),
        13 => Some(RulePart::Minutes),
        14 => Some(RulePart::Seconds),
        _ => None,
    }
}

/// Returns the reason that names a part, or `None` for a status or a part that has none.
fn reason_of(status: i32, part: u32) -> Option<ParseRuleErrorKind>
    ensures every { (k : ParseRuleErrorKind) → HasReason status part k → result ≡ Some k }
    ensures value { IfSome result (HasReason status part) }
{
    let part = part_with(part)?;
    match status {
        DUPLICATE_PART => Some(ParseRuleErrorKind::Twice(part)),
        TOO_MANY_VALUES => Some(ParseRuleErrorKind::TooMany(part)),
        INVALID_VALUE => Some(ParseRuleErrorKind::Value(part)),
        _ => None,
    }
}

/// Returns the sentence of a reason and a position.
fn reason_at(reason: ParseRuleErrorKind, position: usize) -> Sentence
    ensures { result ≡ reason_at reason position }
{
    let mut text = Sentence::new();
    text.push(reason.text().as_bytes());
    text.push_position(position);
    text
}

/// Returns the sentence of an error in the string of a recurrence: `invalid value of BYDAY at position
/// 11` for the status of an invalid value, the part 6 and the position 11.
#[unsafe(no_mangle)]
pub extern "C" fn fots_recurrence_error_text(status: i32, part: u32, position: usize) -> ErrorText
    ensures reason { (k : ParseRuleErrorKind) → HasReason status part k
        → result ≡ error_text (reason_at k position) }
    ensures other { ((k : ParseRuleErrorKind) → ¬ HasReason status part k)
        → result ≡ error_text (with_position position (sentence status)) }
{
    match reason_of(status, part) {
        Some(reason) => ErrorText::new(reason_at(reason, position).as_bytes()),
        None => ErrorText::new(sentence_at(status, position).as_bytes()),
    }
}
