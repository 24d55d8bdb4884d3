//! The text of rules of holidays.
//!
//! [`parse_holiday_rules`] parses lines such as `11-4TH`, the fourth Thursday of November, and
//! `easter-2 2000.. SU+1`. [`parse_holiday_rule`] parses one line.
#![tactic(auto)]

mod days;
mod error;
mod parsing;
mod rules;

pub use error::{ParseHolidayRuleError, ParseHolidayRuleErrorKind};
pub use parsing::{parse_holiday_rule, parse_holiday_rules};
