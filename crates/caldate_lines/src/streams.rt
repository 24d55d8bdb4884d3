//! Readers and writers whose calls a contract can name.
ghost use Rattle.std.specs.Prelude.{ℕ, List, Option, Result, ⊤};
ghost use Rattle.std.specs.Io.{ReadsAtMost, WritesAtMost};
ghost use Rattle.std.specs.Io.KnownBytes.{ReadConsumes, WriteAppends};
ghost use Rattle.std.specs.declared.io.Error.{Error};

use std::io::{self, Read, Write};

/// A reader. Every `Read` is one, but std doesn't say why its reads fail.
pub trait Source {
    // The bytes that later reads give, if they are known.
    ghost remaining: { Self → Option (List ℕ) };

    // A read may return this result and leave this reader.
    ghost read_gives: { Self → Result ℕ Error → Self → Type 0 };

    /// Reads bytes into the front of the buffer, and returns their number: 0 at the end of the
    /// input.
    fn read(&mut self, buffer: &mut [u8]) -> io::Result<usize>
        ensures bound { ReadsAtMost result buffer.new }
        ensures bytes { ReadConsumes (remaining self.old) (remaining self.new) result buffer.new }
        ensures gives { read_gives self.old result self.new };
}

impl<R: Read> Source for R {
    ghost remaining = { R.remaining };

    ghost read_gives = { λ old result new. ⊤ };

    fn read(&mut self, buffer: &mut [u8]) -> io::Result<usize> {
        Read::read(self, buffer)
    }
}

/// A writer. Every `Write` is one, but std doesn't say why its writes fail.
pub trait Sink {
    // The bytes that the writer holds, if they are known.
    ghost contents: { Self → Option (List ℕ) };

    // A write of these bytes may return this result and leave this writer.
    ghost write_gives: { Self → List ℕ → Result ℕ Error → Self → Type 0 };

    /// Writes a beginning of the bytes, and returns its length.
    fn write(&mut self, bytes: &[u8]) -> io::Result<usize>
        ensures bound { WritesAtMost result bytes.now }
        ensures bytes { WriteAppends (contents self.old) (contents self.new) result bytes.now }
        ensures gives { write_gives self.old bytes.now result self.new };
}

impl<W: Write> Sink for W {
    ghost contents = { W.contents };

    ghost write_gives = { λ old bytes result new. ⊤ };

    fn write(&mut self, bytes: &[u8]) -> io::Result<usize> {
        Write::write(self, bytes)
    }
}
