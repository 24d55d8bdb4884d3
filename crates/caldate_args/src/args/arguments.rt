//! The arguments of the program.
ghost use Rattle.std.specs.Prelude.{◌≤◌, IfSome, length};

use crate::args::extent::{Extent, Part};
use std::env::{Env, FillError};

/// The maximum length of all arguments together, in bytes.
pub const MAX_BYTES: usize = 4096;

/// The words of the arguments, and where their files begin.
#[derive(Clone, Copy)]
pub struct Arguments<'a> {
    /// The words, with zero bytes between them.
    pub words: &'a [u8],
    /// The index of the first file or of the `--` before it, if there are files. Options may come
    /// between the files.
    pub first_file: Option<usize>,
}

/// The length of a buffer for the words, each with a zero byte after it.
pub const BUFFER_BYTES: usize = MAX_BYTES + 1;

/// The maximum index of an argument.
pub const MAX_INDEX: usize = 1_000_000_000;

/// Writes the words of the arguments to the front of the buffer, with a zero byte between two, and
/// returns them. The options come before the words of the command. Returns `None` if they don't fit.
/// The names of files aren't written: all words after a `--`, and those after the command that aren't
/// options. If the last option lacks its value, the words of the command aren't returned.
///
/// `add 1 day` takes nine bytes. `to week jan feb` takes seven, and the first file has the index 3.
pub fn join<'a, E: Env>(env: &E, buffer: &'a mut [u8; BUFFER_BYTES]) -> Option<Arguments<'a>>
    ensures { IfSome result (λ arguments. length arguments.words.now ≤ 4096) }
{
    let mut filled = 0;
    let mut options = 0;
    let mut first_file = None;
    let mut extent = Extent::new();
    // Argument 0 is the name of the program.
    for i in 1..=MAX_INDEX {
        match env.arg(i, &mut buffer[filled..]) {
            Ok(length) => {
                let end = filled + length;
                let word = &buffer[filled..end];
                if word == b"--".as_slice() && extent.reads_input() && has_arg(env, i + 1) {
                    let first_file = first_file.or(Some(i));
                    return Some(words_before(buffer, extent.end(options, filled), first_file));
                }
                let part = extent.take(word);
                if let Part::File = part {
                    first_file = first_file.or(Some(i));
                    continue;
                }
                if end == BUFFER_BYTES {
                    return None;
                }
                buffer[end] = 0;
                filled = end + 1;
                if let Part::Option = part {
                    buffer[options..filled].rotate_right(length + 1);
                    options += length + 1;
                }
            }
            Err(FillError::NotPresent) => {
                return Some(words_before(buffer, extent.end(options, filled), first_file));
            }
            Err(FillError::TooLong) => return None,
        }
    }
    None
}

/// Returns the words at the front of the buffer, without the zero byte after the last.
fn words_before<'a>(
    buffer: &'a [u8; BUFFER_BYTES],
    filled: usize,
    first_file: Option<usize>,
) -> Arguments<'a>
    requires { filled ≤ 4097 }
    ensures { length result.words.now ≤ 4096 }
{
    Arguments {
        words: &buffer[..filled.saturating_sub(1)],
        first_file,
    }
}

/// Returns whether there is an argument with this index.
fn has_arg<E: Env>(env: &E, i: usize) -> bool {
    !matches!(env.arg(i, &mut [0u8; 0]), Err(FillError::NotPresent))
}
