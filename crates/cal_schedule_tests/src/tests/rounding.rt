//! Rounding.

mod one_answer;
