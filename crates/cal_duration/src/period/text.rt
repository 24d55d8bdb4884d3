//! The text of a period.
ghost use Rattle.std.specs.Prelude.{◌≡◌, ◌+◌, ◌≤◌, ◌++◌, Some, length, [], unsigned_abs};
ghost use Rattle.std.specs.Fmt.{debug_str, padded};
ghost use Rattle.cal_duration.specs.DurationText.{is_negative, is_zero, period_text, time_text};
ghost use Rattle.cal_duration.specs.PeriodBytes.{HasRoom, capacity};
ghost use Rattle.cal_time.specs.SignedDuration.{part_text};
ghost use Rattle.cal_duration.specs.Values.{IsPeriodText};

use crate::text::{clock, push_part, sign};
use cal_schedule::Period;
use cal_time::{ShortText, SignedDuration};
use std::fmt;
use std::marker::Model;
use std::str::from_utf8_unchecked;

/// The maximum length of a text in bytes.
const CAPACITY: usize = 80;

/// A period that prints as a duration of ISO 8601, such as `P1Y2M10DT2H30M0.5S` or `-P1D`. Parts
/// that are zero are left out, and zero is `PT0S`. The exact duration prints as hours, at most 59
/// minutes and less than 60 seconds. [`parse`](super::parse) gives the period back. A width pads the
/// whole text.
#[derive(Drop)]
pub struct Text {
    bytes: [u8; CAPACITY],
    filled: usize,
}

impl Model for Text {
    ghost use Rattle.std.specs.Prelude.{ℕ, ◌≤◌, List, take, IsUtf8};
    ghost use Rattle.cal_duration.specs.PeriodBytes.{capacity};

    ghost Value = { List ℕ };

    ghost view = { λ text. take text.filled text.bytes };

    ghost invariant = { λ text. (text.filled ≤ capacity) × IsUtf8 (take text.filled text.bytes) };
}

impl Text {
    /// Creates the text of a period. 1 month, 3 days and 4 hours are `P1M3DT4H`.
    pub fn new(period: Period) -> Self
        ensures value { result ≡ period_text period }
        ensures parses { IsPeriodText (period_text period) period }
    {
        // These calls state that the parts have one sign and that the duration is in range. They
        // cost nothing.
        let _ = period.whole_months();
        let _ = period.duration().whole_nanoseconds();
        let mut text = Text::empty();
        if is_zero_period(period) {
            text.push("PT0S");
            return text;
        }
        text.push(sign(is_negative_period(period)));
        text.push("P");
        text.push(part(period.years(), "Y").as_str());
        text.push(part(period.months(), "M").as_str());
        text.push(part(period.weeks(), "W").as_str());
        text.push(part(period.days(), "D").as_str());
        text.push_time(period.duration());
        text
    }

    /// Returns the text as a `str` of at most 80 bytes.
    pub fn as_str(&self) -> &str
        ensures value { result.now ≡ self.now }
        ensures max_length { length result.now ≤ capacity }
    {
        // By the invariant the bytes are UTF-8.
        unsafe { from_utf8_unchecked(&self.bytes[..self.filled]) }
    }

    /// Returns the bytes of the text, at most 80, all ASCII.
    pub fn as_bytes(&self) -> &[u8]
        ensures value { result.now ≡ self.now }
        ensures max_length { length result.now ≤ capacity }
    {
        &self.bytes[..self.filled]
    }

    /// Creates an empty text.
    fn empty() -> Self
        ensures { result ≡ [] }
    {
        Text {
            bytes: [0; CAPACITY],
            filled: 0,
        }
    }

    /// Appends `text`, which must fit.
    fn push(&mut self, text: &str)
        requires { HasRoom (length text.now) self.old }
        ensures appended { self.new ≡ self.old ++ text.now }
        ensures length { length self.new ≡ length self.old + length text.now }
    {
        let end = self.filled + text.len();
        self.bytes[self.filled..end].copy_from_slice(text.as_bytes());
        self.filled = end;
    }

    /// Appends the letter T and the hours, minutes and seconds, or nothing if all are zero.
    fn push_time(&mut self, duration: SignedDuration)
        requires { HasRoom 34 self.old }
        ensures appended { self.new ≡ self.old ++ time_text (unsigned_abs duration) }
    {
        if duration.is_zero() {
            return;
        }
        let (seconds, nanoseconds) = duration.unsigned_abs();
        self.push("T");
        self.push(clock(seconds, nanoseconds).as_str());
    }
}

impl fmt::Display for Text {
    ghost output = { λ t. Some t };

    ghost styled_output = { λ t spec. Some (padded spec t) };

    fn fmt<W: fmt::Write>(&self, f: &mut fmt::Formatter<W>) -> fmt::Result {
        f.pad(self.as_str())
    }
}

/// Formats the text in quotation marks.
impl fmt::Debug for Text {
    ghost debug_output = { λ text. debug_str text };

    fn fmt<W: fmt::Write>(&self, f: &mut fmt::Formatter<W>) -> fmt::Result {
        fmt::Debug::fmt(self.as_str(), f)
    }
}

/// Returns the magnitude of a number and its letter, or nothing if the number is zero.
fn part(number: i32, letter: &str) -> ShortText
    requires { length letter.now ≤ 1 }
    ensures value { result ≡ part_text (unsigned_abs number) letter.now }
    ensures max_length { length result ≤ 11 }
{
    let mut text = ShortText::new();
    push_part(&mut text, u64::from(number.unsigned_abs()), letter);
    text
}

/// Returns `true` if all parts of a period are zero.
fn is_zero_period(period: Period) -> bool
    ensures { result ≡ is_zero period }
{
    if period.years() != 0 || period.months() != 0 {
        return false;
    }
    if period.weeks() != 0 || period.days() != 0 {
        return false;
    }
    period.duration().is_zero()
}

/// Returns `true` if a part of a period is negative.
fn is_negative_period(period: Period) -> bool
    ensures { result ≡ is_negative period }
{
    if period.years() < 0 || period.months() < 0 {
        return true;
    }
    if period.weeks() < 0 || period.days() < 0 {
        return true;
    }
    period.duration().is_negative()
}
