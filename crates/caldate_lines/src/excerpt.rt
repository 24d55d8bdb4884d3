//! Texts to show on standard error.
ghost use Rattle.std.specs.Prelude.{◌+◌, ◌≤◌, length};
ghost use Rattle.caldate_lines.specs.Room.{HasRoom};

use crate::output::buffer::Buffer;

/// The maximum number of bytes to show.
const MAX_SHOWN: usize = 80;

/// A text to show: the first 80 bytes of a text, with `?` for each byte that does not print. This
/// is short and harmless to a terminal, although lines and arguments may contain any bytes.
#[derive(Clone, Copy, Debug, PartialEq, Eq)]
pub struct Excerpt {
    bytes: [u8; MAX_SHOWN],
    count: usize,
}

impl Excerpt {
    /// Creates the text to show. `2024-02-30` stays as it is, and `\t2024` becomes `?2024`.
    pub fn new(text: &[u8]) -> Self
        ensures { result.count ≤ length text.now }
    {
        let count = MAX_SHOWN.min(text.len());
        let mut bytes = [0; MAX_SHOWN];
        for i in 0..count {
            bytes[i] = printable(text[i]);
        }
        Excerpt { bytes, count }
    }

    /// Returns the bytes to show, at most 80.
    pub fn as_bytes(&self) -> &[u8]
        ensures few { length result.now ≤ 80 }
        ensures short { length result.now ≤ self.now.count }
    {
        &self.bytes[..self.count.min(MAX_SHOWN)]
    }
}

/// Appends the text to show, in quotes.
pub fn push_quoted(line: &mut Buffer, text: &[u8])
    requires { HasRoom 82 line.old }
    ensures few { length line.new ≤ length line.old + 82 }
    ensures short { length line.new ≤ length line.old + length text.now + 2 }
{
    let excerpt = Excerpt::new(text);
    line.push(b"'");
    line.push(excerpt.as_bytes());
    line.push(b"'");
}

/// Returns the byte, or `?` if it does not print.
pub fn printable(byte: u8) -> u8 {
    if byte >= b' ' && byte <= b'~' {
        byte
    } else {
        b'?'
    }
}
