//! By public items only.

pub mod files;
mod one_answer;
