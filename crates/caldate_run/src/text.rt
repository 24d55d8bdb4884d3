//! Strings in memory as inputs.
ghost use Rattle.std.specs.Prelude.{◌≡◌, Some};
ghost use Rattle.caldate_lines.specs.Calls.{Takes};

use caldate_lines::streams::Source;
use std::io::{self, Read};
use std::marker::Model;

/// A reader of a string in memory, whose reads don't fail.
#[derive(Drop)]
pub struct Text<'a> {
    rest: &'a [u8],
}

impl<'a> Model for Text<'a> {
    ghost use Rattle.std.specs.Prelude.{ℕ, List};

    ghost Value = { List ℕ };

    ghost view = { λ text. text.rest.now };
}

impl<'a> Text<'a> {
    /// Creates a reader of a string.
    pub fn new(text: &'a [u8]) -> Self
        ensures { result ≡ text.now }
    {
        Text { rest: text }
    }
}

impl Source for Text<'_> {
    ghost remaining = { λ text. Some text };

    ghost read_gives = { λ old result new. Takes old result new };

    fn read(&mut self, buffer: &mut [u8]) -> io::Result<usize> {
        Read::read(&mut self.rest, buffer)
    }
}
