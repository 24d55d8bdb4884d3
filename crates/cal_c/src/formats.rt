//! Formats: values in text by a format that C passes.
mod clocks;
mod components;
pub mod format_parts;
pub(crate) mod iso_dates;
mod items;
pub mod lenient;
mod making;
pub mod named;
mod names;
pub mod one_pass;
pub mod parse_results;
pub mod parsing;
pub mod printing;
pub mod results;
