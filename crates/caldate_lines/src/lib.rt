//! The lines of `caldate`: reading and writing, lines and their fields, and how a run ends.
#![tactic(auto)]

pub mod ending;
pub mod excerpt;
pub mod field;
pub mod field_name;
pub mod field_names;
pub mod field_numbers;
pub mod header;
pub mod input;
pub mod lines;
pub mod missing_field;
pub mod no_answer;
pub mod on_invalid;
pub mod output;
pub mod progress;
pub mod quoting;
pub mod record;
pub mod retries;
pub mod run_error;
pub mod several_fields;
pub mod streams;
pub mod tally;
pub mod unanswered;
