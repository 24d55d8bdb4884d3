//! The text of durations.

ghost use Rattle.std.specs.Prelude.{◌≡◌, ◌+◌, ◌*◌, ◌<◌, ◌≤◌, ◌++◌, Some, length};
ghost use Rattle.cal_units.specs.ShortText.{HasRoom};
ghost use Rattle.cal_span.specs.SignedDuration.{second, part_text, parts_text, text};

use crate::signed_duration::{
    NANOSECONDS_PER_MICROSECOND, NANOSECONDS_PER_MILLISECOND, SECONDS_PER_DAY, SECONDS_PER_HOUR,
    SECONDS_PER_MINUTE, SignedDuration,
};
use cal_units::ShortText;
use std::fmt;

impl SignedDuration {
    /// Returns the text that the duration prints, such as `-1d3h250ms`.
    ///
    /// It has a minus sign if the duration is negative, then days of 24 hours, hours, minutes,
    /// seconds, milliseconds, microseconds and nanoseconds, each with its unit: `d`, `h`, `m`, `s`,
    /// `ms`, `µs` or `ns`. Parts that are zero are omitted; zero is `0s`. It has at most 42 bytes,
    /// all ASCII except the two bytes of `µ`.
    pub fn text(self) -> ShortText
        ensures value { result ≡ text self }
        ensures max_length { length result ≤ 42 }
    {
        let mut text = ShortText::new();
        if self.is_zero() {
            text.push("0s");
            return text;
        }
        if self.is_negative() {
            text.push("-");
        }
        let (seconds, nanoseconds) = self.unsigned_abs();
        push_parts(&mut text, seconds, nanoseconds);
        text
    }
}

/// Appends the parts of a magnitude of whole seconds and nanoseconds, each with its unit. Parts
/// that are zero are omitted.
#[tactic(auto, using(crate::proofs::Text::short_parts))]
fn push_parts(text: &mut ShortText, seconds: u64, nanoseconds: u32)
    requires room { HasRoom 41 text.old }
    requires fits { seconds < 9_223_372_036_854_775_809 }
    requires below_second { nanoseconds < 1_000_000_000 }
    ensures appended { text.new ≡ text.old ++ parts_text (seconds * second + nanoseconds) }
    ensures max_length { length text.new ≤ length text.old + 41 }
{
    let past_day = seconds % SECONDS_PER_DAY as u64;
    push_part(text, seconds / SECONDS_PER_DAY as u64, "d");
    push_part(text, past_day / SECONDS_PER_HOUR as u64, "h");
    push_part(text, past_day / SECONDS_PER_MINUTE as u64 % 60, "m");
    push_part(text, past_day % SECONDS_PER_MINUTE as u64, "s");
    let nanoseconds = u64::from(nanoseconds);
    push_part(text, nanoseconds / NANOSECONDS_PER_MILLISECOND as u64, "ms");
    push_part(
        text,
        nanoseconds / NANOSECONDS_PER_MICROSECOND as u64 % 1_000,
        "µs",
    );
    push_part(text, nanoseconds % NANOSECONDS_PER_MICROSECOND as u64, "ns");
}

/// Appends a number and its unit, or nothing if the number is zero.
fn push_part(text: &mut ShortText, number: u64, unit: &str)
    requires { HasRoom (length (part_text number unit.now)) text.old }
    ensures appended { text.new ≡ text.old ++ part_text number unit.now }
    ensures length { length text.new ≡ length text.old + length (part_text number unit.now) }
{
    if number == 0 {
        return;
    }
    text.push_number(number);
    text.push(unit);
}

impl fmt::Display for SignedDuration {
    ghost output = { λ duration. Some (text duration) };

    fn fmt<W: fmt::Write>(&self, f: &mut fmt::Formatter<W>) -> fmt::Result {
        f.write_str(self.text().as_str())
    }
}
