//! The input that was read but not answered yet.
ghost use Rattle.std.specs.Prelude.{◌≡◌, ℕ, ◌+◌, ◌-◌, ◌<◌, ◌≤◌, List, [], ◌++◌, length, drop, OnOk, IfOk, IfErr, IsOkAnd, MatchResult};
ghost use Rattle.std.specs.Io.{ReadsAtMost};
ghost use Rattle.std.specs.Io.KnownBytes.{ReadConsumes, Consumes, IsAtEnd, Keeps};
ghost use Rattle.std.specs.declared.io.Error.{Error};
ghost use Rattle.caldate_lines.specs.Calls.{Gives, most_retries};
ghost use Rattle.caldate_lines.specs.Room.{capacity};
ghost use Rattle.caldate_lines.specs.Outputs.{HasRead};

pub mod field_text;
pub mod fields;

use crate::retries::Retries;
use crate::run_error::RunError;
use crate::streams::Source;
use std::io;
use std::marker::Model;

const CAPACITY: usize = 65_536;

/// A buffer of at most 65536 bytes that were read but not answered yet.
#[derive(Drop)]
pub struct Input {
    bytes: [u8; CAPACITY],
    filled: usize,
}

impl Model for Input {
    ghost use Rattle.std.specs.Prelude.{ℕ, ◌≤◌, List, take};
    ghost use Rattle.caldate_lines.specs.Room.{capacity};

    ghost Value = { List ℕ };

    ghost view = { λ input. take input.filled input.bytes };

    ghost invariant = { λ input. input.filled ≤ capacity };
}

impl Input {
    /// Creates an empty buffer.
    pub fn new() -> Self
        ensures { result ≡ [] }
    {
        Input {
            bytes: [0; CAPACITY],
            filled: 0,
        }
    }

    /// Returns the bytes.
    pub fn as_bytes(&self) -> &[u8]
        ensures value { result.now ≡ self.now }
        ensures few { length result.now ≤ capacity }
    {
        &self.bytes[..self.filled]
    }

    /// Returns the number of bytes.
    pub fn len(&self) -> usize
        ensures { result ≡ length self.now }
    {
        self.filled
    }

    /// Appends the bytes of one read and returns their number, which is 0 only at the end of the
    /// input. Fails with `RunError::Read`.
    #[tactic(auto, using(crate::proofs::Known::given_more))]
    pub fn read_more<R: Source>(&mut self, reader: &mut R) -> Result<usize, RunError>
        requires { length self.old < capacity }
        ensures given { OnOk result (HasRead (R.remaining reader.old)
            (R.remaining reader.new) self.old self.new) }
        ensures count { IfOk result (λ n. length self.new ≡ length self.old + n) }
        ensures end { IsOkAnd result (λ n. n ≡ 0)
            → IsAtEnd (R.remaining reader.new) × (self.new ≡ self.old) }
        ensures err { IfErr result (λ error.
            (error ≡ RunError.Read) × Keeps (R.remaining reader.old) (R.remaining reader.new)) }
        ensures gives { MatchResult result
            (λ n. Gives R.read_gives most_retries reader.old (Ok n) reader.new)
            (λ _. (error : Error) × Gives R.read_gives most_retries reader.old (Err error) reader.new) }
    {
        match read_some(reader, &mut self.bytes[self.filled..]) {
            Ok(count) => {
                self.filled += count;
                Ok(count)
            }
            Err(_) => Err(RunError::Read),
        }
    }

    /// Keeps only the last `count` bytes.
    pub fn keep_last(&mut self, count: usize)
        requires { count ≤ length self.old }
        ensures { self.new ≡ drop (length self.old - count) self.old }
    {
        let gone = self.filled - count;
        self.bytes[..self.filled].rotate_left(gone);
        self.filled = count;
    }
}

/// Reads once, and again after an interrupted read while a retry is left.
pub fn read_some<R: Source>(reader: &mut R, buffer: &mut [u8]) -> io::Result<usize>
    ensures bound { ReadsAtMost result buffer.new }
    ensures bytes { ReadConsumes (R.remaining reader.old)
        (R.remaining reader.new) result buffer.new }
    ensures gives { Gives R.read_gives most_retries reader.old result reader.new }
{
    let mut retries = Retries::new();
    loop {
        match reader.read(buffer) {
            Ok(count) => return Ok(count),
            Err(error) if retries.allows(&error) => {}
            Err(error) => return Err(error),
        }
    }
}
