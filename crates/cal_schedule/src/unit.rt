//! Units of the calendar.

/// A unit of the calendar. A date is in one day, ISO week, month, quarter and year.
#[derive(Clone, Copy, Debug, PartialEq, Eq, Hash)]
pub enum CalendarUnit {
    /// A day.
    Day,
    /// A week from Monday to Sunday.
    Week,
    /// A month.
    Month,
    /// A quarter of a year, which is three months.
    Quarter,
    /// A calendar year.
    Year,
}
