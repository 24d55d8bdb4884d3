//! Output that is written in few writes.
ghost use Rattle.std.specs.Prelude.{◌≡◌, ◌+◌, ◌<◌, ◌≤◌, ◌++◌, ◌∷◌, [], ℕ, List, Ok, length};
ghost use Rattle.caldate_lines.specs.Calls.{Sends, most_retries, write_failure};
ghost use Rattle.caldate_lines.specs.Outputs.{Outputs, PassesOn, WritesPage};
ghost use Rattle.caldate_lines.specs.Room.{HasRoom, capacity, longest_reply};

pub mod buffer;

use crate::output::buffer::Buffer;
use crate::retries::Retries;
use crate::run_error::RunError;
use crate::streams::Sink;
use std::io::ErrorKind;

/// An output with a buffer. After a failed write, nothing more is written.
#[derive(Drop)]
pub struct Output {
    /// The bytes that aren't written yet.
    pub buffer: Buffer,
    /// The first failed write, if there is one.
    pub outcome: Result<(), RunError>,
}

impl Output {
    /// Creates an output without bytes.
    pub fn new() -> Self
        ensures buffer { result.buffer ≡ [] }
        ensures outcome { result.outcome ≡ Ok tt }
    {
        Output {
            buffer: Buffer::new(),
            outcome: Ok(()),
        }
    }

    /// Writes the buffer if it has no room for a reply, or for a line of this length with its end and
    /// one byte more.
    #[inline(always)]
    pub fn make_room<W: Sink>(&mut self, length: usize, writer: &mut W)
        requires { length < capacity }
        ensures room { HasRoom longest_reply self.new.buffer }
        ensures line { HasRoom (length + 2) self.new.buffer }
        ensures passes_on { PassesOn W.contents W.write_gives self.old self.new writer.old writer.new }
    {
        if !self.buffer.has_room_for(length) {
            self.flush(writer);
        }
    }

    /// Appends a line with its line feed. Fails with the first failed write.
    pub fn push_line<W: Sink>(&mut self, text: &[u8], writer: &mut W) -> Result<(), RunError>
        requires { length text.now ≤ 60 }
        ensures value { result ≡ self.new.outcome }
        ensures given { (given : List ℕ) (start : W) → Outputs W.contents W.write_gives given start self.old writer.old
            → Outputs W.contents W.write_gives (given ++ (text.now ++ 10 ∷ [])) start self.new writer.new }
    {
        self.make_room(0, writer);
        self.buffer.push(text);
        self.buffer.push(b"\n");
        self.outcome
    }

    /// Writes the buffer, and returns the first failed write as an error.
    pub fn finish<W: Sink>(&mut self, writer: &mut W) -> Result<(), RunError>
        ensures value { result ≡ self.new.outcome }
        ensures none { self.new.buffer ≡ [] }
        ensures passes_on { PassesOn W.contents W.write_gives self.old self.new writer.old writer.new }
    {
        self.flush(writer);
        self.outcome
    }

    /// Writes the buffer, unless a write failed before, and clears it.
    #[inline(never)]
    pub fn flush<W: Sink>(&mut self, writer: &mut W)
        ensures none { self.new.buffer ≡ [] }
        ensures passes_on { PassesOn W.contents W.write_gives self.old self.new writer.old writer.new }
    {
        match self.outcome {
            Ok(()) => {
                self.outcome = write_all(writer, self.buffer.as_bytes());
                self.buffer.clear();
            }
            Err(_) => self.buffer.clear(),
        }
    }
}

/// Writes all bytes, and repeats an interrupted write while a retry is left. After a
/// `RunError::Write`, only a part of the bytes was written.
pub fn write_all<W: Sink>(writer: &mut W, bytes: &[u8]) -> Result<(), RunError>
    ensures page { WritesPage bytes.now result (W.contents writer.old) (W.contents writer.new) }
    ensures sends { Sends W.write_gives most_retries writer.old bytes.now
        (write_failure result) writer.new }
{
    let mut retries = Retries::new();
    let mut rest = bytes;
    while !rest.is_empty() {
        match writer.write(rest) {
            Ok(0) => return Err(RunError::Write(ErrorKind::WriteZero)),
            Ok(count) => rest = &rest[count..],
            Err(error) if retries.allows(&error) => {}
            Err(error) => return Err(RunError::Write(error.kind())),
        }
    }
    Ok(())
}
