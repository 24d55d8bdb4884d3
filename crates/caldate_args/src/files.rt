//! Several files as one input.
ghost use Rattle.std.specs.Prelude.{◌≡◌, false, true, ℕ, List, [], Bool, Option, Some, Result};
ghost use Rattle.std.specs.Io.{ReadsAtMost};
ghost use Rattle.std.specs.Io.KnownBytes.{ReadConsumes};
ghost use Rattle.std.specs.declared.io.Error.{Error};
ghost use Rattle.caldate_args.specs.Files.{IsLast, IsNext, Steps, joined, joined_rest};

pub mod named_files;

use caldate_lines::streams::Source;
use std::io::{self, ErrorKind};

/// Strings that are read one after another.
pub trait Texts {
    // The bytes that later reads of the current string give, if they are known.
    ghost rest: { Self → Option (List ℕ) };

    // The strings after it, if they are known.
    ghost later: { Self → Option (List (List ℕ)) };

    // A read or `go_on` may lead from these strings to those.
    ghost leads: { Self → Self → Type 0 };

    /// Reads bytes of the current string into the front of the buffer, and returns their number: 0
    /// at the end of the string.
    fn read(&mut self, buffer: &mut [u8]) -> io::Result<usize>
        ensures bound { ReadsAtMost result buffer.new }
        ensures bytes { ReadConsumes (rest self.old) (rest self.new) result buffer.new }
        ensures later { later self.new ≡ later self.old }
        ensures leads { leads self.old self.new };

    /// Goes on to the next string and returns `true`, or returns `false` after the last one.
    ///
    /// With the files `jan` and `feb`, the first call makes `jan` the current string, the second
    /// `feb`, and the third returns `false`.
    fn go_on(&mut self) -> bool
        ensures next { result ≡ true → IsNext (later self.old) (rest self.new) (later self.new) }
        ensures last { result ≡ false → IsLast (later self.old)
            × (rest self.new ≡ rest self.old) × (later self.new ≡ later self.old) }
        ensures leads { leads self.old self.new };
}

/// A reader of strings as one input. A last line of a string gets a line feed if it has none.
#[derive(Drop)]
pub struct Joined<T: Texts> {
    pub texts: T,
    /// Whether the bytes of the current string so far end in a line.
    is_unfinished: bool,
}

impl<T: Texts> Joined<T> {
    /// Creates a reader of the rest of the current string, and of the strings after it.
    pub fn new(texts: T) -> Self
        ensures start { (result.texts ≡ texts) × (result.is_unfinished ≡ false) }
        ensures remaining { (all : List (List ℕ)) → T.rest texts ≡ Some [] → T.later texts ≡ Some all
            → ⟦<Joined<T> as Source>⟧.remaining result ≡ Some (joined all) }
    {
        Joined {
            texts,
            is_unfinished: false,
        }
    }
}

impl<T: Texts> Source for Joined<T> {
    ghost remaining = { λ joined. joined_rest joined.is_unfinished (T.rest joined.texts) (T.later joined.texts) };

    ghost read_gives = { λ old result new. Steps T.leads old.texts new.texts };

    fn read(&mut self, buffer: &mut [u8]) -> io::Result<usize> {
        if buffer.is_empty() {
            return Ok(0);
        }
        for _ in 0..u64::MAX {
            let count = match self.texts.read(buffer) {
                Ok(count) => count,
                Err(error) => return Err(error),
            };
            if count > 0 {
                self.is_unfinished = buffer[count - 1] != b'\n';
                return Ok(count);
            }
            if self.is_unfinished {
                self.is_unfinished = false;
                buffer[0] = b'\n';
                return Ok(1);
            }
            if !self.texts.go_on() {
                return Ok(0);
            }
        }
        Err(io::Error::from(ErrorKind::Other))
    }
}
