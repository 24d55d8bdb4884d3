//! Recurrence rules of days, a subset of RFC 5545.
mod candidates;
mod iter;
mod matching;
mod pattern;
mod periods;
mod positions;
mod previous;
mod ranks;
mod rule;
mod search;
mod unit;
mod values;
mod weeks;

pub use iter::RuleDays;
pub(crate) use matching::is_nth_in_period;
pub use pattern::Pattern;
pub(crate) use periods::period_of;
pub use rule::{ByDay, Frequency, Rule};
pub use unit::PeriodUnit;
pub use values::Values;
pub(crate) use weeks::is_week;
