//! Errors as sentences.
ghost use Rattle.std.specs.Prelude.{◌≡◌, ◌≤◌, length};
ghost use Rattle.cal_c.specs.Errors.{error_text};

mod components;
mod formats;
mod recurrences;
mod strings;

/// The bytes of a sentence: enough for the longest one and a zero byte.
const CAPACITY: usize = 220;

/// A sentence in ASCII, followed by zero bytes.
#[repr(C)]
#[derive(Clone, Copy, Debug)]
pub struct ErrorText {
    pub length: u32,
    pub bytes: [u8; CAPACITY],
}

impl ErrorText {
    fn new(text: &[u8]) -> Self
        requires { length text.now ≤ 219 }
        ensures { result ≡ error_text text.now }
    {
        let mut bytes = [0; CAPACITY];
        bytes[..text.len()].copy_from_slice(text);
        ErrorText {
            length: text.len() as u32,
            bytes,
        }
    }
}
