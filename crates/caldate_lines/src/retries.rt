//! Retries of interrupted reads and writes.
ghost use Rattle.std.specs.Prelude.{◌≡◌, ◌↔◌, ◌+◌, ◌<◌, IsTrue, if◌then◌else◌};
ghost use Rattle.std.specs.IoError.{error_kind};

use std::io::{self, ErrorKind};
use std::marker::Model;

/// The number of retries. The next interruption is a failure.
const INTERRUPTIONS: u16 = 4096;

/// A count of the retries that are left.
#[derive(Drop)]
pub struct Retries {
    left: u16,
}

impl Model for Retries {
    ghost use Rattle.std.specs.Prelude.{ℕ};

    ghost Value = { ℕ };

    ghost view = { λ retries. retries.left };
}

impl Retries {
    /// Creates a count of 4096 retries.
    pub fn new() -> Self
        ensures { result ≡ 4096 }
    {
        Retries {
            left: INTERRUPTIONS,
        }
    }

    /// Counts a retry and returns `true` if the call was interrupted and a retry is left.
    pub fn allows(&mut self, error: &io::Error) -> bool
        ensures allowed { IsTrue result
            ↔ (error_kind error.now ≡ ErrorKind.Interrupted) × (0 < self.old) }
        ensures left { self.old ≡ (if result then self.new + 1 else self.new) }
    {
        if error.kind() != ErrorKind::Interrupted || self.left == 0 {
            return false;
        }
        self.left -= 1;
        true
    }
}
