//! Schedules: arithmetic with months and years, ends of periods, weekdays of a month, working days,
//! recurrence rules and day counts for interest.
//!
//! Each call is exact for every date of the range. It returns `None` or an error exactly if the
//! result is out of range or doesn't exist.
#![tactic(auto)]

mod date_range;
pub mod day_number;
pub mod laws;
mod months;
mod period;
mod period_ends;
mod period_error;
mod period_moves;
mod rule;
mod steps;
mod unit;
mod unit_ends;
mod until;
mod weekdays;
mod workdays;
mod year_fraction;

pub use date_range::DateRange;
pub use months::{checked_add_months, checked_add_years, saturating_add_months};
pub use period::Period;
pub use period_ends::{
    first_of_iso_week, first_of_month, first_of_quarter, first_of_year, last_of_iso_week,
    last_of_month, last_of_quarter, last_of_year, quarter,
};
pub use period_error::PeriodError;
pub use period_moves::{checked_add_period, date_after, nth_date, nth_period};
pub use rule::{ByDay, Frequency, Pattern, PeriodUnit, Rule, RuleDays, Values};
pub use steps::{Steps, step_of};
pub use unit::CalendarUnit;
pub use unit_ends::{first_of, last_of};
pub use until::{months_until, period_until, period_until_by, years_until};
pub use weekdays::{last_weekday_of_month, nth_weekday_of_month, on_or_after, on_or_before};
pub use workdays::{Convention, WeekdayMarks, Workdays};
pub use year_fraction::{DayCount, YearFraction, day_count};
