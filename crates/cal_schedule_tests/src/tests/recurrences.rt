//! Recurrences.

mod one_answer;
mod read_back;
