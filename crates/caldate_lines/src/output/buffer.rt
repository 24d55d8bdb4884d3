//! Replies that are written together.
ghost use Rattle.std.specs.Prelude.{◌≡◌, ◌↔◌, ◌+◌, ◌<◌, ◌≤◌, ◌++◌, ◌∷◌, [], length, decimal, drop, take, IsTrue, if◌then◌else◌};
ghost use Rattle.caldate_lines.specs.Room.{HasRoom, capacity, longest_reply};

use cal_time::ShortText;
use std::marker::Model;

const CAPACITY: usize = 65_537;

/// The room for one reply, in bytes: while it is written, a line, its answers and a text.
const LONGEST_REPLY: usize = 18_300;

/// A buffer of replies for one write, of at most 65537 bytes.
#[derive(Drop)]
pub struct Buffer {
    bytes: [u8; CAPACITY],
    filled: usize,
}

impl Model for Buffer {
    ghost use Rattle.std.specs.Prelude.{ℕ, ◌+◌, ◌≤◌, List, take};
    ghost use Rattle.caldate_lines.specs.Room.{capacity};

    ghost Value = { List ℕ };

    ghost view = { λ buffer. take buffer.filled buffer.bytes };

    ghost invariant = { λ buffer. buffer.filled ≤ capacity + 1 };
}

impl Buffer {
    /// Creates an empty buffer.
    pub fn new() -> Self
        ensures { result ≡ [] }
    {
        Buffer {
            bytes: [0; CAPACITY],
            filled: 0,
        }
    }

    /// Returns the bytes.
    pub fn as_bytes(&self) -> &[u8]
        ensures { result.now ≡ self.now }
    {
        &self.bytes[..self.filled]
    }

    /// Returns the number of bytes.
    pub fn len(&self) -> usize
        ensures { result ≡ length self.now }
    {
        self.filled
    }

    /// Returns the bytes after the first `count`.
    pub fn after(&self, count: usize) -> &[u8]
        requires { count ≤ length self.now }
        ensures { result.now ≡ drop count self.now }
    {
        &self.bytes[count..self.filled]
    }

    /// Returns whether there is room for a reply, and for a line of this length with its end and
    /// one byte more.
    pub fn has_room_for(&self, length: usize) -> bool
        requires { length < capacity }
        ensures { IsTrue result
            ↔ (HasRoom longest_reply self.now) × (HasRoom (length + 2) self.now) }
    {
        self.filled <= CAPACITY - LONGEST_REPLY && self.filled + length + 1 < CAPACITY
    }

    /// Appends the bytes.
    pub fn push(&mut self, bytes: &[u8])
        requires { HasRoom (length bytes.now) self.old }
        ensures appended { self.new ≡ self.old ++ bytes.now }
        ensures longer { length self.new ≡ length self.old + length bytes.now }
    {
        let end = self.filled + bytes.len();
        self.bytes[self.filled..end].copy_from_slice(bytes);
        self.filled = end;
    }

    /// Appends the end of a line: LF, or CR LF.
    // The compiler copies a constant length without a call.
    pub fn push_end(&mut self, has_return: bool)
        requires { HasRoom (if has_return then 2 else 1) self.old }
        ensures { self.new ≡ self.old ++ (if has_return then 13 ∷ 10 ∷ [] else 10 ∷ []) }
    {
        if has_return {
            self.push(b"\r\n");
        } else {
            self.push(b"\n");
        }
    }

    /// Appends a number in decimal.
    #[tactic(auto, using(cal_text::proofs::NumberTexts::few_digits))]
    pub fn push_number(&mut self, number: u64)
        requires { HasRoom 20 self.old }
        ensures appended { self.new ≡ self.old ++ decimal number }
        ensures short { length self.new ≤ length self.old + 20 }
    {
        let mut text = ShortText::new();
        text.push_number(number);
        self.push(text.as_bytes());
    }

    /// Keeps only the first `count` bytes.
    pub fn truncate(&mut self, count: usize)
        requires { count ≤ length self.old }
        ensures { self.new ≡ take count self.old }
    {
        self.filled = count;
    }

    /// Removes all bytes.
    pub fn clear(&mut self)
        ensures { self.new ≡ [] }
    {
        self.filled = 0;
    }
}
