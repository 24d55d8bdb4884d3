//! Dates that print as calendar dates, ordinal dates and week dates.
ghost use Rattle.std.specs.Prelude.{◌≡◌, ◌≤◌, Some, length};
ghost use Rattle.std.specs.Fmt.{padded};
ghost use Rattle.cal_time.specs.DateText.{text};
ghost use Rattle.cal_text.specs.DateForms.{ordinal_text, week_text};

use cal_time::{Date, ShortText};
use std::fmt;

/// A date that prints as a calendar date of ISO 8601, such as `2024-02-29`. A width pads the whole
/// text.
#[derive(Clone, Copy, Debug, PartialEq, Eq)]
pub struct CalendarText(pub Date);

/// A date that prints as an ordinal date of ISO 8601, such as `2024-060`. A width pads the whole
/// text.
#[derive(Clone, Copy, Debug, PartialEq, Eq)]
pub struct OrdinalText(pub Date);

/// A date that prints as a week date of ISO 8601, such as `2024-W09-4`. A width pads the whole
/// text.
#[derive(Clone, Copy, Debug, PartialEq, Eq)]
pub struct WeekText(pub Date);

impl CalendarText {
    /// Returns the text, at most 13 bytes. For the last day it is `+999999-12-31`.
    pub fn text(self) -> ShortText
        ensures value { result ≡ text self.0 }
        ensures max_length { length result ≤ 13 }
    {
        self.0.text()
    }
}

impl OrdinalText {
    /// Returns the text, at most 11 bytes. For the last day it is `+999999-365`.
    #[tactic(auto, using(cal_time::proofs::TextLengths::text_lengths))]
    pub fn text(self) -> ShortText
        ensures value { result ≡ ordinal_text self.0 }
        ensures max_length { length result ≤ 11 }
    {
        let (year, ordinal) = self.0.to_ordinal_date();
        let mut text = ShortText::new();
        text.push_year(year);
        text.push("-");
        text.push_three_digits(u32::from(ordinal));
        text
    }
}

impl WeekText {
    /// Returns the text, at most 13 bytes. For the last day it is `+999999-W52-5`.
    #[tactic(auto, using(crate::proofs::NumberTexts::week_digits, cal_time::proofs::TextLengths::text_lengths))]
    pub fn text(self) -> ShortText
        ensures value { result ≡ week_text self.0 }
        ensures max_length { length result ≤ 13 }
    {
        let (year, week, weekday) = self.0.to_iso_week_date();
        let mut text = ShortText::new();
        text.push_year(year);
        text.push("-W");
        text.push_two_digits(u32::from(week));
        text.push("-");
        text.push_digit(u32::from(weekday.number_from_monday()));
        text
    }
}

impl fmt::Display for CalendarText {
    ghost output = { λ t. Some (text t.0) };

    ghost styled_output = { λ t spec. Some (padded spec (text t.0)) };

    fn fmt<W: fmt::Write>(&self, f: &mut fmt::Formatter<W>) -> fmt::Result {
        f.pad(self.text().as_str())
    }
}

impl fmt::Display for OrdinalText {
    ghost output = { λ t. Some (ordinal_text t.0) };

    ghost styled_output = { λ t spec. Some (padded spec (ordinal_text t.0)) };

    fn fmt<W: fmt::Write>(&self, f: &mut fmt::Formatter<W>) -> fmt::Result {
        f.pad(self.text().as_str())
    }
}

impl fmt::Display for WeekText {
    ghost output = { λ t. Some (week_text t.0) };

    ghost styled_output = { λ t spec. Some (padded spec (week_text t.0)) };

    fn fmt<W: fmt::Write>(&self, f: &mut fmt::Formatter<W>) -> fmt::Result {
        f.pad(self.text().as_str())
    }
}
