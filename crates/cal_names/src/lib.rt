//! The names of months, weekdays and halves of the day in one language.
//!
//! A caller gives its own [`Names`], or takes them from [`languages`]. [`table`] finds the longest
//! name that begins a string, and tests if each name that was printed is found again.
#![tactic(auto)]

mod language_names;
pub mod languages;
mod names;
pub mod table;

pub use language_names::names_of;
pub use names::Names;
