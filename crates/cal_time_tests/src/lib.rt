//! What is proved about calls of `cal_time` from outside: one answer, laws between calls, and calls
//! under exactly their conditions. `tests/worked` has the values.
#![tactic(auto)]

pub mod tests;
