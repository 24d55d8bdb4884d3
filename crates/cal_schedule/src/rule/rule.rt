//! Recurrence rules.
ghost use Rattle.std.specs.Prelude.{◌≡◌, None};
ghost use Rattle.cal_schedule.specs.Pattern.{every, rule_of};

use crate::rule::pattern::Pattern;
use cal_time::{Date, Weekday};

/// The unit of a rule's interval (`FREQ`). A rule that names no day takes the day from its start.
#[derive(Clone, Copy, Debug, PartialEq, Eq)]
pub enum Frequency {
    /// Every n-th day.
    Daily,
    /// Every n-th week.
    Weekly,
    /// Every n-th month.
    Monthly,
    /// Every n-th year.
    Yearly,
}

/// A weekday of a rule (`BYDAY`).
#[derive(Clone, Copy, Debug, PartialEq, Eq)]
pub enum ByDay {
    /// Each day with this weekday.
    Every(Weekday),
    /// The n-th day with this weekday in the month, or in the year for a yearly rule without
    /// months. It counts from 1 at the start, and from -1 at the end. No day is the 0th.
    Nth(i8, Weekday),
}

/// A recurrence rule of days, in a subset of RFC 5545 (`RRULE`): a pattern from a start to an end.
#[derive(Clone, Debug, PartialEq, Eq, Drop)]
pub struct Rule {
    /// The first day that can match (`DTSTART`). It matches only if it passes the pattern.
    pub start: Date,
    /// The last day that can match, if there is one (`UNTIL`).
    pub until: Option<Date>,
    /// The days that match.
    pub pattern: Pattern,
}

impl Rule {
    /// Creates the rule for every day, or for the same day of every week, month or year. Its weeks
    /// begin on Monday. Set other parts by their fields.
    ///
    /// The monthly rule from 31 January 2024 has the 31st of each month that has one.
    pub fn new(start: Date, frequency: Frequency) -> Self
        ensures { result ≡ rule_of (every frequency) start None }
    {
        Rule {
            start,
            until: None,
            pattern: Pattern::new(frequency),
        }
    }
}
