//! The arguments of `caldate`: from words to a command, and the files that they name.
#![tactic(auto)]

pub mod args;
pub mod command;
pub mod data_files;
pub mod events;
pub mod files;
pub mod holidays;
pub mod zones;
