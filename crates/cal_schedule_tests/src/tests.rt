//! By public items only.

mod durations;
mod iso_weeks;
mod one_answer;
mod recurrences;
mod rounding;
mod rules_laws;
mod zones;
