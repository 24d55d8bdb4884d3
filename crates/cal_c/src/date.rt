//! Dates, which are Julian days.

pub(crate) mod arithmetic;
pub(crate) mod components;
pub(crate) mod constructors;
mod occurrences;
mod replacement;
