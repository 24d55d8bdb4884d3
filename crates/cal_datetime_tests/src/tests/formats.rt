//! Formats.

mod one_answer;
