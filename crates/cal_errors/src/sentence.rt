//! A sentence, which is put together from its parts.
ghost use Rattle.std.specs.Prelude.{◌≡◌, ◌+◌, ◌≤◌, ◌++◌, [], length};
ghost use Rattle.std.specs.Fmt.{signed_decimal};
ghost use Rattle.cal_errors.specs.Sentences.{HasRoom, max_length, position_text};

use cal_units::ShortText;
use std::marker::Model;

/// The maximum length in bytes.
const CAPACITY: usize = 219;

/// A sentence in ASCII, of at most 219 bytes. Contracts see its bytes.
#[derive(Debug, Drop)]
pub struct Sentence {
    bytes: [u8; CAPACITY],
    filled: usize,
}

impl Model for Sentence {
    ghost use Rattle.std.specs.Prelude.{ℕ, ◌≤◌, List, take};
    ghost use Rattle.cal_errors.specs.Sentences.{max_length};

    ghost Value = { List ℕ };

    ghost view = { λ sentence. take sentence.filled sentence.bytes };

    ghost invariant = { λ sentence. sentence.filled ≤ max_length };
}

impl Sentence {
    /// Creates an empty sentence.
    pub fn new() -> Self
        ensures { result ≡ [] }
    {
        Sentence {
            bytes: [0; CAPACITY],
            filled: 0,
        }
    }

    /// Returns the bytes, at most 219.
    pub fn as_bytes(&self) -> &[u8]
        ensures value { result.now ≡ self.now }
        ensures max_length { length result.now ≤ max_length }
    {
        &self.bytes[..self.filled]
    }

    /// Appends ASCII bytes, which must fit.
    pub fn push(&mut self, bytes: &[u8])
        requires { HasRoom (length bytes.now) self.old }
        ensures appended { self.new ≡ self.old ++ bytes.now }
        ensures length { length self.new ≡ length self.old + length bytes.now }
    {
        let end = self.filled + bytes.len();
        self.bytes[self.filled..end].copy_from_slice(bytes);
        self.filled = end;
    }

    /// Appends a number in decimal, with a minus sign if it is negative: up to 40 bytes.
    #[tactic(auto, using(cal_units::proofs::TextLengths::text_lengths))]
    pub fn push_number(&mut self, number: i128)
        requires { HasRoom 40 self.old }
        ensures appended { self.new ≡ self.old ++ signed_decimal number }
        ensures max_length { length self.new ≤ length self.old + 40 }
    {
        let mut text = ShortText::new();
        text.push_i128(number);
        self.push(text.as_bytes());
    }

    /// Appends where an error is, such as ` at position 9`, or nothing for the maximum: up to 33
    /// bytes.
    #[tactic(auto, using(cal_units::proofs::Digits::short_numbers))]
    pub fn push_position(&mut self, position: usize)
        requires { HasRoom 33 self.old }
        ensures appended { self.new ≡ self.old ++ position_text position }
        ensures max_length { length self.new ≤ length self.old + 33 }
    {
        if position == usize::MAX {
            return;
        }
        let mut text = ShortText::new();
        text.push_number(position as u64);
        self.push(b" at position ");
        self.push(text.as_bytes());
    }
}
