//! The buffer of the output.
ghost use Rattle.std.specs.Prelude.{◌≡◌, ◌↔◌, ◌+◌, ◌++◌, [], length, IsTrue};
ghost use Rattle.caltool.specs.Room.{HasRoom, longest_reply};

use std::marker::Model;

/// The maximum number of bytes in one write.
const CAPACITY: usize = 4096;

/// The room for a reply in bytes. The longest reply is shorter.
const LONGEST_REPLY: usize = 128;

/// Bytes that wait for one write.
#[derive(Drop)]
pub struct Buffer {
    bytes: [u8; CAPACITY],
    filled: usize,
}

impl Model for Buffer {
    ghost use Rattle.std.specs.Prelude.{ℕ, ◌≤◌, List, take};
    ghost use Rattle.caltool.specs.Room.{capacity};

    ghost Value = { List ℕ };

    ghost view = { λ buffer. take buffer.filled buffer.bytes };

    ghost invariant = { λ buffer. buffer.filled ≤ capacity };
}

impl Buffer {
    /// Creates an empty buffer.
    pub fn new() -> Self
        ensures { result ≡ [] }
    {
        Buffer {
            bytes: [0; CAPACITY],
            filled: 0,
        }
    }

    /// Returns the bytes.
    pub fn as_bytes(&self) -> &[u8]
        ensures { result.now ≡ self.now }
    {
        &self.bytes[..self.filled]
    }

    /// Returns `true` if there is room for a reply.
    pub fn has_room_for_a_reply(&self) -> bool
        ensures { IsTrue result ↔ HasRoom longest_reply self.now }
    {
        self.filled <= CAPACITY - LONGEST_REPLY
    }

    /// Appends bytes.
    pub fn push(&mut self, bytes: &[u8])
        requires { HasRoom (length bytes.now) self.old }
        ensures appended { self.new ≡ self.old ++ bytes.now }
        ensures length { length self.new ≡ length self.old + length bytes.now }
    {
        let end = self.filled + bytes.len();
        self.bytes[self.filled..end].copy_from_slice(bytes);
        self.filled = end;
    }

    /// Removes all bytes.
    pub fn clear(&mut self)
        ensures { self.new ≡ [] }
    {
        self.filled = 0;
    }
}
