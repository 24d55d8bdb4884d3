//! Iterators over days.
mod date_iter;

pub use date_iter::DateIter;
