//! The pattern of a rule.
ghost use Rattle.std.specs.Prelude.{◌≡◌};
ghost use Rattle.cal_schedule.specs.Pattern.{every, rule_of};

use crate::rule::rule::{ByDay, Frequency, Rule};
use crate::rule::values::Values;
use cal_time::{Date, Month, Weekday};

/// The parts of a recurrence rule except its start and its end. A day matches if it passes every
/// part. An empty list allows every day.
#[derive(Clone, Debug, PartialEq, Eq, Drop)]
pub struct Pattern {
    /// The unit of the interval (`FREQ`).
    pub frequency: Frequency,
    /// The interval (`INTERVAL`): every n-th day, week, month or year, counted from the start. 0
    /// counts as 1.
    pub interval: u32,
    /// The weekday on which weeks begin (`WKST`).
    pub week_start: Weekday,
    /// The months (`BYMONTH`).
    pub months: Values<Month>,
    /// The weeks of the year (`BYWEEKNO`), from 1 for its first week and from -1 for its last one.
    /// A week belongs to the year that has most of its days. No week is the 0th.
    pub weeks: Values<i8>,
    /// The days of the year (`BYYEARDAY`), from 1 at its start and from -1 at its end. No day is
    /// the 0th.
    pub year_days: Values<i16>,
    /// The days of the month (`BYMONTHDAY`), from 1 at its start and from -1 at its end. No day is
    /// the 0th.
    pub month_days: Values<i8>,
    /// The weekdays (`BYDAY`), each with a number or without one.
    pub weekdays: Values<ByDay>,
    /// The positions (`BYSETPOS`) among the days of a day, week, month or year that pass the lists
    /// above, from 1 for the first one and from -1 for the last one. No day is the 0th.
    pub set_positions: Values<i16>,
}

impl Pattern {
    /// Creates the pattern of every day, week, month or year. The interval is 1, weeks begin on
    /// Monday, and all lists are empty.
    pub fn new(frequency: Frequency) -> Self
        ensures { result ≡ every frequency }
    {
        Pattern {
            frequency,
            interval: 1,
            week_start: Weekday::Monday,
            months: Values::none(Month::January),
            weeks: Values::none(0),
            year_days: Values::none(0),
            month_days: Values::none(0),
            weekdays: Values::none(ByDay::Every(Weekday::Monday)),
            set_positions: Values::none(0),
        }
    }

    /// Returns the rule with this pattern from a start to an end, or without an end.
    ///
    /// The pattern of every month, from 31 January 2024 to 31 May 2024, gives the rule for 31
    /// January, 31 March and 31 May.
    pub fn rule(&self, start: Date, until: Option<Date>) -> Rule
        ensures { result ≡ rule_of self.now start until }
    {
        let pattern = Pattern {
            frequency: self.frequency,
            interval: self.interval,
            week_start: self.week_start,
            months: self.months.copy(),
            weeks: self.weeks.copy(),
            year_days: self.year_days.copy(),
            month_days: self.month_days.copy(),
            weekdays: self.weekdays.copy(),
            set_positions: self.set_positions.copy(),
        };
        Rule {
            start,
            until,
            pattern,
        }
    }
}
