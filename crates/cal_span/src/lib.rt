//! Signed durations with nanosecond precision.
#![tactic(auto)]

mod laws;
mod signed_duration;

pub use signed_duration::SignedDuration;
