//! The iterator over the readings of a rule.
ghost use Rattle.std.specs.Prelude.{◌≡◌, length, List, take};
ghost use Rattle.std.specs.Iterator.{YieldsFirst, item_count};
ghost use Rattle.cal_recurrence.specs.DateTimeRule.{occurrences, occurrences_after};

use crate::date_time_rule::DateTimeRule;
use cal_datetime::PlainDateTime;
use std::marker::Model;

/// An iterator over readings of a rule, in ascending order. Contracts see the list of the readings
/// left.
#[derive(Debug, Drop)]
pub struct RuleReadings {
    rule: DateTimeRule,
    front: Option<PlainDateTime>,
    /// The maximum number of readings left.
    left: u128,
}

impl Model for RuleReadings {
    ghost use Rattle.std.specs.Prelude.{ℤ, List, take};
    ghost use Rattle.cal_recurrence.specs.DateTimeRule.{occurrences_left};

    ghost Value = { List ℤ };

    ghost view = { λ walk. take walk.left (occurrences_left walk.rule walk.front) };
}

impl DateTimeRule {
    /// Returns an iterator over all readings of the rule, in ascending order. For the daily rule
    /// from 2024-01-01 9:00 to 2024-01-02 9:00 they are these two.
    #[tactic(auto, using(crate::proofs::RuleOccurrences::all_of_them))]
    pub fn readings(&self) -> RuleReadings
        ensures { result ≡ occurrences self.now }
    {
        // The range has fewer readings than this.
        self.first_of(u128::MAX)
    }

    /// Returns an iterator over the first `count` readings of the rule, or over all of them if
    /// there are fewer (`COUNT` of RFC 5545). For the daily rule from 2024-01-01 9:00, the first
    /// two are at 9:00 on 1 and 2 January.
    pub fn first_readings(&self, count: u32) -> RuleReadings
        ensures { result ≡ take count (occurrences self.now) }
    {
        self.first_of(u128::from(count))
    }

    /// Returns an iterator over the first `count` readings of the rule after a reading.
    pub(crate) fn first_after(&self, reading: PlainDateTime, count: u32) -> RuleReadings
        ensures { result ≡ take count (occurrences_after self.now reading) }
    {
        if count == 0 {
            return self.first_readings(0);
        }
        let front = self.next_after(reading);
        RuleReadings {
            rule: self.copy(),
            front,
            left: u128::from(count),
        }
    }

    /// Returns an iterator over the first `count` readings of the rule.
    fn first_of(&self, count: u128) -> RuleReadings
        ensures { result ≡ take count (occurrences self.now) }
    {
        let front = if count == 0 { None } else { self.first() };
        RuleReadings {
            rule: self.copy(),
            front,
            left: count,
        }
    }
}

impl Iterator for RuleReadings {
    type Item = PlainDateTime;

    ghost next_gives = { YieldsFirst (λ readings. readings) };

    ghost remaining = { item_count (λ readings. readings) };

    /// Returns the next reading, or `None` after the last one.
    fn next(&mut self) -> Option<PlainDateTime> {
        if self.left == 0 {
            return None;
        }
        let item = self.front?;
        self.left -= 1;
        if self.left == 0 {
            // No further reading is needed, so don't search for one.
            return Some(item);
        }
        self.front = self.rule.next_after(item);
        Some(item)
    }
}
