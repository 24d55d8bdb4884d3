//! Errors as sentences: what is wrong, where, and what was expected. The library for C and the
//! languages above it print them.
#![tactic(auto)]

mod bounds;
mod components;
mod sentence;
mod statuses;
mod strings;

pub use components::{Components, component_sentence, range_sentence};
pub use sentence::Sentence;
pub use statuses::{sentence_at, sentence_of};
pub use strings::{contradiction, unexpected, unknown_item};
