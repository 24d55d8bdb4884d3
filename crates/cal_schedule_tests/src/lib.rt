//! What is proved about calls of `cal_schedule`, `cal_duration`, `cal_recurrence`, `cal_zone`, `cal_tzif`
//! and `cal_rounding` from outside. `tests/worked` has the values.
#![tactic(auto)]

pub mod tests;
