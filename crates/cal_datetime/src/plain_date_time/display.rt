//! The text of date-times.
ghost use Rattle.std.specs.Prelude.{◌≡◌, ◌≤◌, Some, length};
ghost use Rattle.std.specs.Fmt.{WritesOnOk, WritesStyledOnOk, formatter_spec, padded};
ghost use Rattle.std.specs.Str.{IsAscii};
ghost use Rattle.cal_datetime.specs.DateTime.{text};

use crate::PlainDateTime;
use cal_time::ShortText;
use std::fmt;

impl PlainDateTime {
    /// Returns the text that the date-time prints: the date, a space and the time. It is ASCII,
    /// with at most 32 bytes. For half a second past 8:00 on 29 February 2024 it is
    /// `2024-02-29 8:00:00.5`.
    pub fn text(self) -> ShortText
        ensures value { result ≡ text self }
        ensures max_length { length result ≤ 32 }
        ensures ascii { IsAscii result }
    {
        let mut text = self.date().text();
        text.push(" ");
        text.push(self.time().text().as_str());
        text
    }
}

impl fmt::Display for PlainDateTime {
    ghost output = { λ m. Some (text m) };

    ghost styled_output = { λ m spec. Some (padded spec (text m)) };

    fn fmt<W: fmt::Write>(&self, f: &mut fmt::Formatter<W>) -> fmt::Result {
        f.pad(self.text().as_str())
    }
}

impl fmt::Debug for PlainDateTime {
    ghost debug_output = { λ m. Some (text m) };

    fn fmt<W: fmt::Write>(&self, f: &mut fmt::Formatter<W>) -> fmt::Result
        ensures value { WritesOnOk W.write_str_gives f.old result (text self.now) f.new }
        ensures styled { WritesStyledOnOk W.write_str_gives f.old result
            (padded (formatter_spec f.old) (text self.now)) f.new }
    {
        fmt::Display::fmt(self, f)
    }
}
