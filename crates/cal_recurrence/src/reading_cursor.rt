//! How far the readings of a recurrence are counted.
ghost use Rattle.std.specs.Prelude.{◌≡◌, ℤ};
ghost use Rattle.cal_recurrence.specs.Cursors.{resumed_rule, resumed_zone_rule};
ghost use Rattle.cal_recurrence.specs.Days.{count_or};
ghost use Rattle.cal_recurrence.specs.SetMeaning.{counted_rule, zone_rule};

use crate::recurrence::{Recurrence, RuleEnd};
use cal_datetime::PlainDateTime;

/// How far the readings of a `COUNT` are counted. Keep it with a page of readings or instants, so
/// that the next page doesn't count from the start again. Without a `COUNT` it doesn't matter.
///
/// Any values are valid: the readings are those of the rule up to `last`, and the first `left` after
/// it. So a cursor of another recurrence can give other readings, but nothing worse.
#[derive(Clone, Copy, Debug, PartialEq, Eq)]
pub struct ReadingCursor {
    /// The last reading that is counted, or `None` if no reading is.
    pub last: Option<PlainDateTime>,
    /// The maximum number of readings after it.
    pub left: u32,
}

impl Recurrence {
    /// Returns the `COUNT`, or a number if there is none.
    pub(crate) fn count_or(&self, none: u32) -> u32
        ensures { result ≡ count_or none self.now.end }
    {
        match self.end {
            RuleEnd::Count(count) => count.get(),
            RuleEnd::Never | RuleEnd::Until(_) => none,
        }
    }

    /// Returns the cursor for which no reading is counted. For `FREQ=DAILY;COUNT=3` it has 3
    /// readings left.
    pub fn reading_cursor(&self) -> ReadingCursor
        ensures rule { (start : ℤ) → resumed_rule self.now start result ≡ counted_rule self.now start }
        ensures zone_rule { (start : ℤ) → resumed_zone_rule self.now start result ≡ zone_rule self.now start }
    {
        ReadingCursor {
            last: None,
            left: self.count_or(0),
        }
    }
}
