//! Months and years, ends of periods, ranges of days, weekdays of months, day counts, working days,
//! recurrences, Easter.

pub mod calendars;
mod date_list;
pub mod date_ranges;
mod easter;
mod events;
mod holiday_rules;
pub mod laws;
mod months;
pub mod pair_periods;
mod period_ends;
pub mod periods;
mod recurrences;
mod results;
mod steps;
pub mod units;
mod until;
mod weekdays;
pub mod workdays;
mod year_fraction;
