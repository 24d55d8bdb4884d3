//! The text of date-times at an offset.
ghost use Rattle.std.specs.Prelude.{◌≡◌, ◌≤◌, Some, length};
ghost use Rattle.std.specs.Fmt.{WritesOnOk, WritesStyledOnOk, formatter_spec, padded};
ghost use Rattle.std.specs.Str.{IsAscii};
ghost use Rattle.cal_datetime.specs.OffsetDateTime.{text};

use crate::OffsetDateTime;
use cal_time::ShortText;
use std::fmt;

impl OffsetDateTime {
    /// Returns the text that the date-time prints: the local date-time, a space and the offset. It
    /// is ASCII, with at most 42 bytes. An example is `2024-02-29 8:00:00.5 +01:00:00`.
    pub fn text(self) -> ShortText
        ensures value { result ≡ text self }
        ensures max_length { length result ≤ 42 }
        ensures ascii { IsAscii result }
    {
        let mut text = self.local().text();
        text.push(" ");
        text.push(self.offset().text().as_str());
        text
    }
}

impl fmt::Display for OffsetDateTime {
    ghost output = { λ m. Some (text m) };

    ghost styled_output = { λ m spec. Some (padded spec (text m)) };

    fn fmt<W: fmt::Write>(&self, f: &mut fmt::Formatter<W>) -> fmt::Result {
        f.pad(self.text().as_str())
    }
}

impl fmt::Debug for OffsetDateTime {
    ghost debug_output = { λ m. Some (text m) };

    fn fmt<W: fmt::Write>(&self, f: &mut fmt::Formatter<W>) -> fmt::Result
        ensures value { WritesOnOk W.write_str_gives f.old result (text self.now) f.new }
        ensures styled { WritesStyledOnOk W.write_str_gives f.old result
            (padded (formatter_spec f.old) (text self.now)) f.new }
    {
        fmt::Display::fmt(self, f)
    }
}
