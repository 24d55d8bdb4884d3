//! Lengths of years and months in days and weeks, and `DateAdjustment`.

pub use cal_units::util::{
    DateAdjustment, days_in_month, days_in_year, days_in_year_month, is_leap_year, weeks_in_year,
};
