//! The filter of `caldate`: answers each line of an input, a date or a moment, with a line of
//! output.
#![tactic(auto)]

pub mod clock;
pub mod help;
pub mod laws;
pub mod list;
pub mod program;
pub mod run;
pub mod text;
