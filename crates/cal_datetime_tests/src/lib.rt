//! What is proved about calls of `cal_date`, `cal_datetime`, `cal_text` and `cal_format` from outside.
//! `tests/worked` has the values.
#![tactic(auto)]

pub mod tests;
