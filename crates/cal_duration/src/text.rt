//! The text of exact durations: hours, minutes and seconds.
ghost use Rattle.std.specs.Prelude.{◌≡◌, ◌+◌, ◌*◌, ◌<◌, ◌≤◌, ◌++◌, length};
ghost use Rattle.cal_time.specs.ShortText.{HasRoom};
ghost use Rattle.cal_time.specs.SignedDuration.{part_text, second};
ghost use Rattle.cal_duration.specs.DurationText.{clock_text, seconds_text};
ghost use Rattle.cal_duration.specs.Form.{sign_text};

use cal_text::push_fraction;
use cal_time::ShortText;

/// Returns the hours, the minutes and the seconds of a magnitude of whole seconds and nanoseconds.
/// Parts that are zero are omitted.
pub(crate) fn clock(seconds: u64, nanoseconds: u32) -> ShortText
    requires fits { seconds < 9_223_372_036_854_775_809 }
    requires below_second { nanoseconds < 1_000_000_000 }
    ensures value { result ≡ clock_text (seconds * second + nanoseconds) }
    ensures max_length { length result ≤ 33 }
{
    let mut text = ShortText::new();
    push_part(&mut text, seconds / 3_600, "H");
    push_part(&mut text, seconds % 3_600 / 60, "M");
    push_seconds(&mut text, seconds % 60, nanoseconds);
    text
}

/// Appends a number and its letter, or nothing if the number is zero.
pub(crate) fn push_part(text: &mut ShortText, number: u64, letter: &str)
    requires { HasRoom (length (part_text number letter.now)) text.old }
    ensures appended { text.new ≡ text.old ++ part_text number letter.now }
    ensures length { length text.new ≡ length text.old + length (part_text number letter.now) }
{
    if number == 0 {
        return;
    }
    text.push_number(number);
    text.push(letter);
}

/// Appends seconds below 60 with their fraction and the letter S, or nothing if both are zero.
fn push_seconds(text: &mut ShortText, seconds: u64, nanoseconds: u32)
    requires room { HasRoom 13 text.old }
    requires below_minute { seconds < 60 }
    requires below_second { nanoseconds < 1_000_000_000 }
    ensures appended { text.new ≡ text.old ++ seconds_text (seconds * second + nanoseconds) }
    ensures max_length { length text.new ≤ length text.old + 13 }
{
    if seconds == 0 && nanoseconds == 0 {
        return;
    }
    text.push_number(seconds);
    push_fraction(text, nanoseconds);
    text.push("S");
}

/// Returns a minus sign if something is negative, else nothing.
pub(crate) fn sign(is_negative: bool) -> &'static str
    ensures value { result.now ≡ sign_text is_negative }
    ensures max_length { length result.now ≤ 1 }
{
    if is_negative { "-" } else { "" }
}
