//! Lines without an answer.

use crate::excerpt::Excerpt;
use crate::no_answer::NoAnswer;

/// A line without an answer.
#[derive(Clone, Copy, Debug, PartialEq, Eq)]
pub struct UnansweredLine {
    /// The number of the line, counted from 1.
    pub number: u64,
    /// The reason why it has no answer.
    pub why: NoAnswer,
    /// The text of the line.
    pub text: Excerpt,
}
