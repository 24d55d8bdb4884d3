//! Invalid arguments.

use crate::args::word_error::WordError;
use crate::data_files::data_error::DataError;

/// An error in the arguments: the first invalid or missing word, and perhaps the reason.
// The parsers pass on the error of the word alone, since each `?` has a proof, which costs by the size
// of the error.
#[derive(Clone, Copy)]
pub struct UsageError<'a> {
    /// The error in the word.
    pub word: WordError,
    /// The reason why the word names no zone, no holidays or no events, or is a format with an
    /// ambiguous string.
    pub reason: Option<DataError<'a>>,
}
