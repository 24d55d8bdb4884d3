//! A rule as C passes it.

/// A weekday of a rule.
#[repr(C)]
#[derive(Clone, Copy, Debug)]
pub struct RuleWeekday {
    /// The number in the month or the year, negative from the end, or 0 for each such weekday.
    pub number: i8,
    /// The weekday, from 1 for Monday.
    pub weekday: u8,
}

/// A rule of RFC 5545 in parts, with dates as Julian days. An empty array excludes no day.
#[repr(C)]
#[derive(Clone, Copy, Debug)]
pub struct RuleParts<'a> {
    pub start: i32,
    /// The last date on which the rule can have a day.
    pub until: i32,
    /// 1 for daily, 2 for weekly, 3 for monthly, 4 for yearly.
    pub frequency: u32,
    pub interval: u32,
    /// The first weekday of a week, from 1 for Monday.
    pub week_start: u32,
    /// 0, in place of padding.
    pub unused: u32,
    pub months: &'a [u8],
    pub weeks: &'a [i8],
    pub year_days: &'a [i16],
    pub month_days: &'a [i8],
    pub weekdays: &'a [RuleWeekday],
    pub set_positions: &'a [i16],
    /// Other days (`RDATE`) and days to leave out (`EXDATE`), in any order.
    pub dates: &'a [i32],
    pub exceptions: &'a [i32],
}
