//! The text of dates.
ghost use Rattle.std.specs.Prelude.{◌≡◌, ◌≤◌, Some, length};
ghost use Rattle.std.specs.Fmt.{WritesOnOk, WritesStyledOnOk, formatter_spec, padded};
ghost use Rattle.std.specs.Str.{IsAscii};
ghost use Rattle.cal_date.specs.DateText.{text};

use crate::date::Date;
use cal_units::ShortText;
use std::fmt;

impl Date {
    /// Returns the text that the date prints, such as `2024-02-29`: the calendar date of ISO 8601.
    ///
    /// The year has four or more digits, after a minus sign if it is negative, or a plus sign if it
    /// is above 9999. The month and the day have two digits each. The text has at most 13 bytes,
    /// all ASCII.
    #[tactic(auto, using(cal_units::proofs::TextLengths::text_lengths))]
    // Inlined, because rustc moves a text that a function returns, and the processor waits before it
    // reads bytes just written as one number.
    #[inline(always)]
    pub fn text(self) -> ShortText
        ensures value { result ≡ text self }
        ensures max_length { length result ≤ 13 }
        ensures ascii { IsAscii result }
    {
        let (month, day) = self.month_and_day();
        let mut text = ShortText::new();
        text.push_year(self.year());
        text.push("-");
        text.push_two_digits(u32::from(u8::from(month)));
        text.push("-");
        text.push_two_digits(u32::from(day));
        text
    }
}

impl fmt::Display for Date {
    ghost output = { λ n. Some (text n) };

    ghost styled_output = { λ n spec. Some (padded spec (text n)) };

    fn fmt<W: fmt::Write>(&self, f: &mut fmt::Formatter<W>) -> fmt::Result {
        f.pad(self.text().as_str())
    }
}

impl fmt::Debug for Date {
    ghost debug_output = { λ n. Some (text n) };

    fn fmt<W: fmt::Write>(&self, f: &mut fmt::Formatter<W>) -> fmt::Result
        ensures value { WritesOnOk W.write_str_gives f.old result (text self.now) f.new }
        ensures styled { WritesStyledOnOk W.write_str_gives f.old result
            (padded (formatter_spec f.old) (text self.now)) f.new }
    {
        fmt::Display::fmt(self, f)
    }
}
