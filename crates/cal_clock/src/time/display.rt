//! The text of times.

ghost use Rattle.std.specs.Prelude.{◌≡◌, ◌≤◌, Some, length};
ghost use Rattle.std.specs.Fmt.{WritesOnOk, WritesStyledOnOk, formatter_spec, padded};
ghost use Rattle.std.specs.Str.{IsAscii};
ghost use Rattle.cal_clock.specs.Time.{text};

use crate::Time;
use cal_units::ShortText;
use std::fmt;

impl Time {
    /// Returns the text that the time prints, such as `8:00:00.5`.
    ///
    /// It has the hour without padding, two digits each for the minute and the second, and up to
    /// nine decimals without trailing zeros, `.0` for a whole second. It has at most 18 bytes, all
    /// ASCII.
    #[tactic(auto, using(crate::proofs::Text::hours))]
    pub fn text(self) -> ShortText
        ensures value { result ≡ text self }
        ensures max_length { length result ≤ 18 }
        ensures ascii { IsAscii result }
    {
        let mut text = ShortText::new();
        text.push_number(u64::from(self.hour()));
        text.push(":");
        text.push_two_digits(u32::from(self.minute()));
        text.push(":");
        text.push_two_digits(u32::from(self.second()));
        text.push(".");
        text.push_decimals(self.nanosecond());
        text
    }
}

impl fmt::Display for Time {
    ghost output = { λ t. Some (text t) };

    ghost styled_output = { λ t spec. Some (padded spec (text t)) };

    fn fmt<W: fmt::Write>(&self, f: &mut fmt::Formatter<W>) -> fmt::Result {
        f.pad(self.text().as_str())
    }
}

impl fmt::Debug for Time {
    ghost debug_output = { λ t. Some (text t) };

    fn fmt<W: fmt::Write>(&self, f: &mut fmt::Formatter<W>) -> fmt::Result
        ensures value { WritesOnOk W.write_str_gives f.old result (text self.now) f.new }
        ensures styled { WritesStyledOnOk W.write_str_gives f.old result
            (padded (formatter_spec f.old) (text self.now)) f.new }
    {
        fmt::Display::fmt(self, f)
    }
}
