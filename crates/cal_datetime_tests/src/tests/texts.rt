//! Texts and their dates.

mod one_answer;
