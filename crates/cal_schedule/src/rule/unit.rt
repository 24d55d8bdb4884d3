//! The periods of rules.

use cal_time::Weekday;

/// A period of a rule, by which it counts its interval and its positions.
#[derive(Clone, Copy, Debug, PartialEq, Eq)]
pub enum PeriodUnit {
    /// A day.
    Day,
    /// A week that begins on this weekday.
    Week(Weekday),
    /// A month.
    Month,
    /// A calendar year.
    Year,
    /// A year of weeks that begin on this weekday. A week belongs to the year of its fourth day.
    WeekYear(Weekday),
}
