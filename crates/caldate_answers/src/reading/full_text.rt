//! Strings with the bytes that a form leaves out.
ghost use Rattle.std.specs.Prelude.{◌≡◌, ◌+◌, ◌≤◌, ◌++◌, [], length};

use std::marker::Model;

/// The maximum length of a string that gets the bytes that its form leaves out.
pub const LONGEST: usize = 60;

/// The maximum length with these bytes.
const CAPACITY: usize = 65;

/// A string with the bytes that its form leaves out, of at most 65 bytes.
#[derive(Drop)]
pub struct FullText {
    bytes: [u8; CAPACITY],
    count: usize,
}

impl Model for FullText {
    ghost use Rattle.std.specs.Prelude.{ℕ, ◌≤◌, List, take};

    ghost Value = { List ℕ };

    ghost view = { λ text. take text.count text.bytes };

    ghost invariant = { λ text. text.count ≤ 65 };
}

impl FullText {
    /// Creates an empty string.
    pub fn new() -> Self
        ensures { result ≡ [] }
    {
        FullText {
            bytes: [0; CAPACITY],
            count: 0,
        }
    }

    /// Appends the bytes.
    pub fn push(&mut self, bytes: &[u8])
        requires { length self.old + length bytes.now ≤ 65 }
        ensures appended { self.new ≡ self.old ++ bytes.now }
        ensures longer { length self.new ≡ length self.old + length bytes.now }
    {
        let end = self.count + bytes.len();
        self.bytes[self.count..end].copy_from_slice(bytes);
        self.count = end;
    }

    /// Returns the bytes.
    pub fn as_bytes(&self) -> &[u8]
        ensures { result.now ≡ self.now }
    {
        &self.bytes[..self.count]
    }
}
