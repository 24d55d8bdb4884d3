//! By public items only.

pub mod dates;
mod formats;
mod one_answer;
mod texts;
