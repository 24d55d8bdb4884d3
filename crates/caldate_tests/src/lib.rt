//! What is proved about calls of `caldate_run` and `caldate_args` from outside. `tests/worked` has the
//! values.
#![tactic(auto)]

pub mod tests;
