//! Times of day, in nanoseconds since midnight.

mod arithmetic;
mod components;
mod constructors;
mod replacement;
mod truncation;
