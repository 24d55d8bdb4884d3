//! Strings of periods and durations.
ghost use Rattle.std.specs.Prelude.{◌≡◌, ◌+◌, ◌*◌, ◌<◌, ◌≤◌, ◌++◌, length};
ghost use Rattle.cal_duration.specs.DurationText.{duration_text, period_text};
ghost use Rattle.cal_duration.specs.Form.{sign_text};
ghost use Rattle.cal_time.specs.DateText.{digits_at_least};
ghost use Rattle.cal_time.specs.ShortText as short;
ghost use Rattle.cal_time.specs.SignedDuration.{second};
ghost use Rattle.cal_text.specs.Rfc3339.{fraction_text};
ghost use Rattle.caldate_lines.specs.Room.{HasRoom};
ghost use Rattle.caldate_answers.specs.Periods.{clock_text, hours_text};

use cal_duration::{duration, period};
use cal_schedule::Period;
use cal_time::{ShortText, SignedDuration};
use caldate_lines::output::buffer::Buffer;

/// Appends a period, such as `P1Y2M3DT4H`.
#[inline(never)]
pub fn push_period(buffer: &mut Buffer, period: Period)
    requires { HasRoom 80 buffer.old }
    ensures text { buffer.new ≡ buffer.old ++ period_text period }
    ensures short { length buffer.new ≤ length buffer.old + 80 }
{
    buffer.push(period::Text::new(period).as_bytes());
}

/// Appends a duration, such as `PT36H`.
#[inline(never)]
pub fn push_duration(buffer: &mut Buffer, duration: SignedDuration)
    requires { HasRoom 80 buffer.old }
    ensures text { buffer.new ≡ buffer.old ++ duration_text duration }
    ensures short { length buffer.new ≤ length buffer.old + 80 }
{
    buffer.push(duration::text(duration).as_bytes());
}

/// Appends a duration in hours, minutes and seconds, such as `36:00:00`.
#[inline(never)]
pub fn push_hours(buffer: &mut Buffer, duration: SignedDuration)
    requires { HasRoom 80 buffer.old }
    ensures text { buffer.new ≡ buffer.old ++ hours_text duration }
    ensures short { length buffer.new ≤ length buffer.old + 80 }
{
    let (seconds, nanoseconds) = duration.unsigned_abs();
    buffer.push(sign(duration.is_negative()).as_bytes());
    buffer.push(clock_text(seconds, nanoseconds).as_bytes());
}

/// Returns a minus sign if a duration is negative, else nothing.
fn sign(is_negative: bool) -> &'static str
    ensures value { result.now ≡ sign_text is_negative }
    ensures max_length { length result.now ≤ 1 }
{
    if is_negative { "-" } else { "" }
}

/// Formats whole seconds and nanoseconds as hours of at least two digits, minutes and seconds.
#[tactic(auto, using(cal_time::proofs::TextLengths::text_lengths))]
fn clock_text(seconds: u64, nanoseconds: u32) -> ShortText
    requires fits { seconds < 9_223_372_036_854_775_809 }
    requires below_second { nanoseconds < 1_000_000_000 }
    ensures value { result ≡ clock_text (seconds * second + nanoseconds) }
    ensures max_length { length result ≤ 36 }
{
    let mut text = ShortText::new();
    push_at_least_two_digits(&mut text, seconds / 3_600);
    text.push(":");
    text.push_two_digits((seconds % 3_600 / 60) as u32);
    text.push(":");
    text.push_two_digits((seconds % 60) as u32);
    push_fraction(&mut text, nanoseconds);
    text
}

/// Appends a number of at least two digits.
fn push_at_least_two_digits(text: &mut ShortText, number: u64)
    requires room { short.HasRoom 20 text.old }
    ensures appended { text.new ≡ text.old ++ digits_at_least 2 number }
    ensures max_length { length text.new ≤ length text.old + 20 }
{
    if number < 100 {
        text.push_two_digits(number as u32);
    } else {
        text.push_number(number);
    }
}

/// Appends a fraction of a second, given in nanoseconds, or nothing for 0.
#[tactic(auto, using(cal_time::proofs::TextLengths::text_lengths))]
fn push_fraction(text: &mut ShortText, nanoseconds: u32)
    requires room { short.HasRoom 10 text.old }
    requires range { nanoseconds < 1_000_000_000 }
    ensures appended { text.new ≡ text.old ++ fraction_text nanoseconds }
    ensures max_length { length text.new ≤ length text.old + 10 }
{
    if nanoseconds == 0 {
        return;
    }
    text.push(".");
    text.push_decimals(nanoseconds);
}
