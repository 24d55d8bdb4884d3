//! The text of a recurrence, without allocation.
ghost use Rattle.std.specs.Prelude.{◌≡◌, ◌+◌, ◌≤◌, ◌++◌, [], length, decimal};
ghost use Rattle.std.specs.Fmt.{debug_str};
ghost use Rattle.cal_recurrence.specs.RecurrenceText.{capacity, HasRoom};

use cal_time::ShortText;
use std::fmt;
use std::marker::Model;
use std::str::from_utf8_unchecked;

/// The capacity in bytes. A recurrence with 62 values in each of its lists needs fewer.
const CAPACITY: usize = 4060;

/// A text of a recurrence, of at most 4060 bytes, without allocation or a formatter. Contracts see
/// its bytes.
#[derive(Drop)]
pub struct RecurrenceText {
    bytes: [u8; CAPACITY],
    filled: usize,
}

impl Model for RecurrenceText {
    ghost use Rattle.std.specs.Prelude.{ℕ, ◌≤◌, List, take, IsUtf8};
    ghost use Rattle.cal_recurrence.specs.RecurrenceText.{capacity};

    ghost Value = { List ℕ };

    ghost view = { λ text. take text.filled text.bytes };

    ghost invariant = { λ text. (text.filled ≤ capacity) × IsUtf8 (take text.filled text.bytes) };
}

impl RecurrenceText {
    /// Creates an empty text.
    pub(crate) fn new() -> Self
        ensures { result ≡ [] }
    {
        RecurrenceText {
            bytes: [0; CAPACITY],
            filled: 0,
        }
    }

    /// Returns the text, such as `FREQ=DAILY`.
    pub fn as_str(&self) -> &str
        ensures value { result.now ≡ self.now }
        ensures short { length result.now ≤ capacity }
    {
        // The invariant says that the bytes are UTF-8.
        unsafe { from_utf8_unchecked(&self.bytes[..self.filled]) }
    }

    /// Returns the bytes of the text, which is UTF-8. They are at most 4060.
    pub fn as_bytes(&self) -> &[u8]
        ensures value { result.now ≡ self.now }
        ensures short { length result.now ≤ capacity }
    {
        &self.bytes[..self.filled]
    }

    /// Returns the number of bytes, at most 4060. For `FREQ=DAILY` it is 10.
    pub fn len(&self) -> usize
        ensures value { result ≡ length self.now }
        ensures max { result ≤ capacity }
    {
        self.filled
    }

    /// Appends the text. There must be room for it.
    pub(crate) fn push(&mut self, text: &str)
        requires { HasRoom (length text.now) self.old }
        ensures appended { self.new ≡ self.old ++ text.now }
        ensures longer { length self.new ≡ length self.old + length text.now }
    {
        let end = self.filled + text.len();
        self.bytes[self.filled..end].copy_from_slice(text.as_bytes());
        self.filled = end;
    }

    /// Appends a number in decimal. There must be room for 10 bytes.
    #[tactic(auto, using(crate::proofs::Digits::few_digits))]
    pub(crate) fn push_number(&mut self, number: u32)
        requires { HasRoom 10 self.old }
        ensures appended { self.new ≡ self.old ++ decimal number }
        ensures short { length self.new ≤ length self.old + 10 }
    {
        let mut digits = ShortText::new();
        digits.push_number(u64::from(number));
        self.push(digits.as_str());
    }
}

/// Formats the text in quotation marks.
impl fmt::Debug for RecurrenceText {
    ghost debug_output = { λ text. debug_str text };

    fn fmt<W: fmt::Write>(&self, f: &mut fmt::Formatter<W>) -> fmt::Result {
        fmt::Debug::fmt(self.as_str(), f)
    }
}
