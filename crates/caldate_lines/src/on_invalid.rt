//! The modes of `--invalid`.

/// A mode of `--invalid`: what is written for a line without an answer.
#[derive(Clone, Copy, Debug, PartialEq, Eq)]
pub enum OnInvalid {
    /// The line itself.
    Keep,
    /// The reason, in place of the text to answer.
    Answer,
    /// Nothing.
    Drop,
    /// Nothing: the run ends.
    Stop,
}
