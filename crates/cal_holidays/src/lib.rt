//! Easter, by the Gregorian and by the Julian calendar, and holidays by rules.
#![tactic(auto)]

mod calendars;
pub mod day_list;
mod gregorian;
mod holiday_day;
mod holiday_rule;
mod holidays;
mod julian;
pub mod laws;
mod one_answer;
mod workdays;

pub use calendars::{CALENDARS, calendar_rules};
pub use gregorian::easter;
pub use holiday_day::HolidayDay;
pub use holiday_rule::HolidayRule;
pub use holidays::{add_rule, holidays_between};
pub use julian::julian_easter;
pub use workdays::workdays_from_rules;
