//! The readings of a `COUNT`, counted as far as a search needs them.
ghost use Rattle.std.specs.Prelude.{◌≡◌, ◌<◌, ◌-◌, ◌∷◌, false, true, [], length, is_some, slice_get, IfSome, MatchOption};
ghost use Rattle.cal_recurrence.specs.CountedSet.{unread, whole_rule};
ghost use Rattle.cal_recurrence.specs.Cursors.{resumed_rule, StandsFor};
ghost use Rattle.cal_recurrence.specs.DateTimeRule.{occurrences_after};

use crate::date_time_rule::DateTimeRule;
use crate::reading_cursor::ReadingCursor;
use crate::readings::RuleReadings;
use crate::recurrence::{Recurrence, RuleEnd};
use cal_date::day_number::{day_number, to_date};
use cal_datetime::{PlainDateTime, midnight};

/// How many readings are counted first. Most counts are smaller.
const FIRST_STEP: u32 = 64;

/// The readings of a `COUNT` that aren't counted yet.
#[derive(Debug, Drop)]
pub(crate) struct Uncounted {
    pub(crate) readings: RuleReadings,
    /// The maximum number of the readings.
    pub(crate) left: u32,
    /// The number of readings to count next.
    step: u32,
}

/// Returns a reading of the range after which the rule has a reading: the given one, or else one that
/// is 1, 2, 4 or more days earlier. Few readings lie between it and the last one.
fn place_before_next(rule: &DateTimeRule, reading: PlainDateTime) -> Option<PlainDateTime>
    ensures { IfSome result (λ z. is_some (slice_get (occurrences_after rule.now z) 0) ≡ true) }
{
    if rule.next_after(reading).is_some() {
        return Some(reading);
    }
    let last = day_number(reading.date());
    // The range has fewer than 2^30 days.
    for power in 0..30u32 {
        let place = midnight(to_date(last.checked_sub(1 << power)?));
        if rule.next_after(place).is_some() {
            return Some(place);
        }
    }
    None
}

impl Uncounted {
    /// Creates the readings of a `COUNT`, of which there are at most `left`.
    fn new(readings: RuleReadings, left: u32) -> Self
        ensures readings { result.readings ≡ readings }
        ensures left { result.left ≡ left }
    {
        Uncounted {
            readings,
            left,
            step: FIRST_STEP,
        }
    }

    /// Returns no readings, for a rule without a `COUNT`.
    pub(crate) fn none(rule: &DateTimeRule) -> Self
        ensures readings { result.readings ≡ [] }
        ensures left { result.left ≡ 0 }
    {
        Uncounted::new(rule.first_readings(0), 0)
    }

    /// Returns how far a rule is counted that ends at the last reading that is.
    pub(crate) fn cursor(&self, rule: &DateTimeRule) -> ReadingCursor
        requires { self.now.readings ≡ unread rule.now self.now.left }
        ensures { StandsFor rule.now self.now.readings result }
    {
        match rule.until() {
            Some(last) => ReadingCursor {
                last: Some(last),
                left: self.left,
            },
            None => ReadingCursor {
                last: None,
                left: 0,
            },
        }
    }

    /// Counts the next reading.
    fn count_one(&mut self) -> Option<PlainDateTime>
        ensures { MatchOption result ((self.old.readings ≡ []) × (self.new ≡ self.old))
            (λ z. (self.old.readings ≡ z ∷ self.new.readings) × (self.new.left ≡ self.old.left - 1)) }
    {
        let reading = self.readings.next()?;
        self.left = self.left.saturating_sub(1);
        Some(reading)
    }

    /// Passes over readings up to this one, if the rule can't have more readings than are left. Then
    /// the count never ends it.
    pub(crate) fn pass_over(&mut self, rule: &mut DateTimeRule, reading: PlainDateTime)
        requires { self.old.readings ≡ unread rule.old self.old.left }
        ensures whole { whole_rule rule.new self.new.readings ≡ whole_rule rule.old self.old.readings }
        ensures counted { self.new.readings ≡ unread rule.new self.new.left }
    {
        let Some(last) = rule.until() else {
            return;
        };
        if rule.is_not_after(reading) || reading.date() == last.date() {
            return;
        }
        if u64::from(self.left) < rule.max_readings() {
            return;
        }
        let endless = rule.endless();
        let Some(place) = place_before_next(&endless, reading) else {
            return;
        };
        // This states that the reading is in range. It costs nothing.
        let _ = place.date();
        if rule.is_not_after(place) {
            return;
        }
        self.readings = endless.first_after(place, self.left);
        rule.end_at(place);
    }

    /// Counts some readings, twice as many each time, and moves the end of the rule to the last of
    /// them. Returns `false` if no readings are left.
    pub(crate) fn count_on(&mut self, rule: &mut DateTimeRule) -> bool
        requires { self.old.readings ≡ unread rule.old self.old.left }
        ensures whole { whole_rule rule.new self.new.readings ≡ whole_rule rule.old self.old.readings }
        ensures counted { self.new.readings ≡ unread rule.new self.new.left }
        ensures fewer { result ≡ true → length self.new.readings < length self.old.readings }
        ensures none { result ≡ false → self.old.readings ≡ [] }
    {
        let Some(first) = self.count_one() else {
            return false;
        };
        let mut last = first;
        'count: for _ in 1..self.step {
            let Some(reading) = self.count_one() else {
                break;
            };
            last = reading;
        }
        self.step = self.step.saturating_mul(2);
        rule.end_at(last);
        true
    }
}

impl Recurrence {
    /// Returns the rule from a start, which ends at the last reading that is counted, and the
    /// readings of a `COUNT` that aren't.
    pub(crate) fn uncounted(
        &self,
        start: PlainDateTime,
        cursor: ReadingCursor,
    ) -> (DateTimeRule, Uncounted)
        ensures whole { whole_rule result.0 result.1.readings ≡ resumed_rule self.now start cursor }
        ensures counted { result.1.readings ≡ unread result.0 result.1.left }
    {
        let mut rule = self.date_time_rule(start);
        let RuleEnd::Count(_) = self.end else {
            let left = Uncounted::none(&rule);
            return (rule, left);
        };
        if let Some(last) = cursor.last {
            let left = Uncounted::new(rule.first_after(last, cursor.left), cursor.left);
            rule.end_at(last);
            return (rule, left);
        }
        let mut left = Uncounted::new(rule.first_readings(cursor.left), cursor.left);
        let Some(first) = left.count_one() else {
            // The first reading of the range.
            rule.end_at(midnight(to_date(0)));
            let none = Uncounted::none(&rule);
            return (rule, none);
        };
        rule.end_at(first);
        (rule, left)
    }
}
