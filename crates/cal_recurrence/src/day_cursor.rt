//! How far the days of a recurrence are counted.
ghost use Rattle.std.specs.Prelude.{◌≡◌, ◌≤◌, ◌-◌, ◌∷◌, ℕ, [], Some, filter, nat_le, IfSome, MatchOption};
ghost use Rattle.cal_schedule.specs.Pattern.{rule_of};
ghost use Rattle.cal_recurrence.specs.Cursors.{days_left};
ghost use Rattle.cal_recurrence.specs.Days.{days_of, last_of};

use crate::recurrence::Recurrence;
use cal_schedule::Rule;
use cal_time::Date;

/// How far the days of a recurrence are counted. Keep it with a page of days, so that the next page
/// doesn't count from the start again.
///
/// Any values are valid: the days that are left are the first `left` days of the rule after `last`.
/// So a cursor of another recurrence can give other days, but nothing worse.
#[derive(Clone, Copy, Debug, PartialEq, Eq)]
pub struct DayCursor {
    /// The last day that is counted, or `None` if no day is.
    pub last: Option<Date>,
    /// The maximum number of days after it.
    pub left: u32,
}

impl Recurrence {
    /// Returns the cursor for which no day is counted. For `FREQ=DAILY;COUNT=3` it has 3 days left.
    pub fn day_cursor(&self) -> DayCursor
        ensures { (start : ℕ) → days_left (rule_of self.now.pattern start (last_of self.now.end)) result
            ≡ days_of self.now start }
    {
        DayCursor {
            last: None,
            // The range has fewer days than this.
            left: self.count_or(u32::MAX),
        }
    }
}

impl DayCursor {
    /// Returns the first day of a rule after the last one that is counted, if one is left.
    #[tactic(auto, using(crate::proofs::Cursors::peeked))]
    fn peek(&self, rule: &Rule) -> Option<Date>
        ensures some { IfSome result (λ _. 1 ≤ self.now.left) }
        ensures day { MatchOption result (days_left rule.now self.now ≡ [])
            (λ n. days_left rule.now self.now ≡ n ∷ days_left rule.now (record { last = Some n; left = self.now.left - 1 })) }
    {
        if self.left == 0 {
            return None;
        }
        match self.last {
            Some(last) => rule.next_after(last),
            None => rule.days().next(),
        }
    }

    /// Returns the next day of the rule of a recurrence and counts it, or returns `None` if no day
    /// is left. For `FREQ=DAILY;COUNT=3` from 2024-01-01 on, with one day counted, it returns
    /// 2024-01-02, and one day is left.
    pub fn next_day(&mut self, rule: &Rule) -> Option<Date>
        ensures { MatchOption result ((days_left rule.now self.old ≡ []) × (self.new ≡ self.old))
            (λ n. days_left rule.now self.old ≡ n ∷ days_left rule.now self.new) }
    {
        let day = self.peek(rule)?;
        self.last = Some(day);
        self.left -= 1;
        Some(day)
    }

    /// Counts the days of the rule of a recurrence before a date. For `FREQ=DAILY;COUNT=3` from
    /// 2024-01-01 on and 2024-01-03, one day is left.
    #[tactic(auto, using(crate::proofs::Cursors::all_late))]
    pub fn skip_to(&mut self, rule: &Rule, date: Date)
        ensures { days_left rule.now self.new ≡ filter (nat_le date) (days_left rule.now self.old) }
    {
        while let Some(day) = self.peek(rule) {
            if date <= day {
                return;
            }
            self.last = Some(day);
            self.left -= 1;
        }
    }
}
