//! Formats with the names of a language, for C.
pub mod checking;
pub mod languages;
pub mod names_parts;
pub mod parsing;
pub mod printing;
