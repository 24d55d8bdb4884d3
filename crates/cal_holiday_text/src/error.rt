//! Errors in the text of rules of holidays.
ghost use Rattle.std.specs.Prelude.{◌≡◌, Some};
ghost use Rattle.cal_holiday_text.specs.ErrorText.{rule_error_text, rule_reason_text};

use std::fmt;

/// A reason why a text isn't rules of holidays.
#[derive(Clone, Copy, Debug, PartialEq, Eq)]
pub enum ParseHolidayRuleErrorKind {
    /// A word isn't a day, or a later word isn't years or a move, or repeats one.
    Invalid,
    /// The buffer has no room for the rule of a line.
    TooMany,
}

/// The first error in the text of rules of holidays.
///
/// It prints its reason and its position: `invalid rule of a holiday at 17`.
#[derive(Clone, Copy, Debug, PartialEq, Eq)]
pub struct ParseHolidayRuleError {
    /// The position of the first byte of the word, or of the line, counted from 0.
    pub position: usize,
    /// The reason.
    pub reason: ParseHolidayRuleErrorKind,
}

impl fmt::Display for ParseHolidayRuleErrorKind {
    ghost output = { λ reason. Some (rule_reason_text reason) };

    fn fmt<W: fmt::Write>(&self, f: &mut fmt::Formatter<W>) -> fmt::Result {
        let words = match self {
            ParseHolidayRuleErrorKind::Invalid => "invalid rule of a holiday",
            ParseHolidayRuleErrorKind::TooMany => "too many rules of holidays",
        };
        f.write_str(words)
    }
}

impl fmt::Display for ParseHolidayRuleError {
    ghost output = { λ error. Some (rule_error_text error) };

    fn fmt<W: fmt::Write>(&self, f: &mut fmt::Formatter<W>) -> fmt::Result {
        write!(f, "{} at {}", self.reason, self.position)
    }
}
