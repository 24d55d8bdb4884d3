//! Periods and durations in text.

mod one_answer;
