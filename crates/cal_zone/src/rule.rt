//! The rule of a zone after its last change.
ghost use Rattle.std.specs.Prelude.{◌≡◌, ℕ, suc, List, ◌++◌, ◌+◌, ◌-◌, ◌<◌, ◌≤◌, ℤ, pos, ◌+ℤ◌, ◌-ℤ◌, ◌<ℤ◌, ◌↔◌, ◌⊎◌, IsTrue, IfSome, IfNone, filter, length};
ghost use Rattle.cal_zone.specs.Rule.{IsCalm};
ghost use Rattle.cal_zone.specs.Timeline.{Timeline, local_at, offset_at, InOrder, IsMoment, IsOffset};
ghost use Rattle.cal_zone.specs.declared.change.Change.{Change};

use crate::change_error::{after, is_next};
use crate::{Change, LocalType, Span, Table, Yearly};

/// A rule of two changes each year, such as the rule of the POSIX text
/// `CET-1CEST,M3.5.0,M10.5.0/3`. The first change comes earlier in the year.
#[derive(Clone, Copy, Debug)]
pub struct Rule {
    one: Yearly,
    other: Yearly,
    ghost calm: { IsCalm one other },
}

/// The number of changes in the years of the range.
const COUNT: u32 = 3_999_998;

/// The seconds of 335 days. A change comes at least as long after the same change of the year
/// before.
const MIN_YEAR: i64 = 28_944_000;

/// Returns about the year of an instant, counted from the first year of the range.
fn year_near(instant: i64) -> u32
    ensures { result ≤ 1_999_998 }
{
    // 1970 is the year 1001969 of the range, and the mean year has 31556952 seconds.
    let seconds = instant.saturating_add(31_619_087_638_488).max(0);
    (seconds.cast_unsigned() / 31_556_952).min(1_999_998) as u32
}

impl Rule {
    ghost use Rattle.cal_zone.specs.Rule.{change_of, changes_from, instant_at, rule_count};
    ghost use Rattle.cal_zone.specs.Zone.{is_after, Joins};
    ghost use Rattle.cal_zone.specs.Span.{AllAfter, AllPast, HasNear};
    ghost use Rattle.cal_zone.specs.Split.{IsBracket, IsSplit};
    ghost use Rattle.cal_zone.specs.Timeline.{IsOrdered, at};

    /// Creates the rule of two changes. Returns `None` if a week, a time or an offset is out of
    /// range, if the months are neighbours, also over the new year, or if the first month is not
    /// the earlier one. March and October make a rule, and January and December don't.
    #[inline(always)]
    pub fn new(one: Yearly, other: Yearly) -> Option<Self>
        ensures value { IfSome result (λ rule. (rule.one ≡ one) × (rule.other ≡ other)) }
        ensures some { IfSome result (λ rule. IsCalm one other) }
        ensures none { IfNone result (¬ IsCalm one other) }
    {
        if !one.is_in_range() {
            return None;
        }
        if !other.is_in_range() {
            return None;
        }
        let first = u8::from(one.month);
        let second = u8::from(other.month);
        if second < first + 2 {
            return None;
        }
        if first + 10 < second {
            return None;
        }
        Some(Rule::from_changes(one, other))
    }

    /// Creates the rule of two changes without a look at them.
    #[inline(always)]
    pub fn from_changes(one: Yearly, other: Yearly) -> Self
        requires { IsCalm one other }
        ensures { (result.one ≡ one) × (result.other ≡ other) }
    {
        Rule { one, other }
    }

    /// Returns how the clocks are set before the first change of a year.
    pub fn before(&self) -> LocalType
        ensures value { result ≡ self.now.other.kind }
        ensures offset { IsOffset result.offset }
    {
        let _ = &self.one;
        self.other.kind
    }

    /// Returns the number of changes.
    #[tactic(auto, unfolding(crate::specs::Rule::rule_count))]
    pub(crate) fn len(&self) -> u32
        ensures len { result ≡ rule_count }
        ensures at_most { rule_count ≤ 3_999_998 }
        ensures at_least { 3_999_998 ≤ rule_count }
        ensures calm { IsCalm self.now.one self.now.other }
    {
        let _ = &self.one;
        COUNT
    }

    /// Returns the two changes of a year.
    pub fn changes(&self) -> (Yearly, Yearly)
        ensures value { (result.0 ≡ self.now.one) × (result.1 ≡ self.now.other) }
        ensures calm { IsCalm result.0 result.1 }
    {
        (self.one, self.other)
    }

    /// Returns the time of the change at an index, counted from the first year of the range.
    #[inline(always)]
    pub(crate) fn time(&self, index: u32) -> i64
        requires { index < 3_999_998 }
        ensures value { result ≡ instant_at self.now.one self.now.other index }
        ensures moment { IsMoment result }
    {
        let year = (index / 2) as i32 - 999_999;
        if index % 2 == 0 {
            self.one.moment(self.other.kind.offset, year)
        } else {
            self.other.moment(self.one.kind.offset, year)
        }
    }

    /// Returns how the clocks are set from the change at an index on.
    #[inline(always)]
    pub(crate) fn kind(&self, index: u32) -> LocalType
        ensures value { result ≡ (change_of self.now.one self.now.other index).kind }
        ensures offset { IsOffset result.offset }
    {
        // Both are read first, so that the choice needs no branch.
        let (one, other) = (self.one.kind, self.other.kind);
        if index % 2 == 0 { one } else { other }
    }

    /// Returns the change at an index.
    #[inline(always)]
    pub(crate) fn change(&self, index: u32) -> Change
        requires { index < 3_999_998 }
        ensures { result ≡ change_of self.now.one self.now.other index }
    {
        Change {
            at: self.time(index),
            kind: self.kind(index),
        }
    }

    /// Returns the number of changes that are not after an instant.
    fn search(&self, instant: i64) -> u32
        ensures { IsBracket (instant_at self.now.one self.now.other) rule_count
            instant result result }
    {
        let mut low = 0;
        let mut high = self.len();
        while low < high {
            let middle = low + (high - low) / 2;
            if self.time(middle) <= instant {
                low = middle + 1;
            } else {
                high = middle;
            }
        }
        low
    }

    /// Returns the number of changes that are not after an instant. It counts the changes of one
    /// year without a branch, which nearly always suffices.
    pub(crate) fn count(&self, instant: i64) -> u32
        ensures split { IsSplit (instant_at self.now.one self.now.other) rule_count
            instant result result }
    {
        let _ = self.len();
        let index = 2 * year_near(instant);
        let one = self.time(index);
        let other = self.time(index + 1);
        if other - MIN_YEAR <= instant && instant < one + MIN_YEAR {
            return index + u32::from(one <= instant) + u32::from(other <= instant);
        }
        self.search(instant)
    }

    /// Returns the offset at a Unix time in seconds, in a zone whose last changes are the rule's
    /// from the index `skip` on. Returns `None` if all of these changes are after the instant.
    pub fn offset_after(&self, skip: u32, instant: i64) -> Option<i32>
        ensures some { (zone : Timeline) (xs : List Change) → InOrder zone
            → zone.changes ≡ xs ++ changes_from self.now.one self.now.other skip
            → IfSome result (λ offset. offset ≡ offset_at zone instant) }
        ensures none { IfNone result
            (AllAfter (instant_at self.now.one self.now.other) skip rule_count instant) }
        ensures exact { IfSome result (λ offset. ¬ AllAfter
            (instant_at self.now.one self.now.other) skip rule_count instant) }
    {
        let count = self.count(instant);
        if skip < count {
            Some(self.kind(count - 1).offset)
        } else {
            None
        }
    }

    /// Returns the offset after the first `count` changes, and the instants until the next one.
    #[inline(always)]
    fn span_before(&self, count: u32) -> Span
        requires min { 1 ≤ count }
        requires max { count < 3_999_998 }
        ensures first { result.first ≡ instant_at self.now.one self.now.other (count - 1) }
        ensures last { result.last ≡ instant_at self.now.one self.now.other count -ℤ pos 1 }
        ensures offset { result.offset
            ≡ (change_of self.now.one self.now.other (count - 1)).kind.offset }
        ensures in_range { IsOffset result.offset }
    {
        Span {
            first: self.time(count - 1),
            last: self.time(count) - 1,
            offset: self.kind(count - 1).offset,
        }
    }

    /// Returns the Unix time of the only instant at which clocks show a reading, in a zone whose
    /// last changes are the rule's from the index `skip` on. The reading is its seconds since
    /// 1970-01-01 0:00 by the clock, from -2^60 to 2^60.
    ///
    /// `None` says nothing about the reading. It comes only before these changes, after all changes
    /// of the rule, and at most 280797 seconds before or after one of these changes.
    pub fn single_after(&self, skip: u32, reading: i64) -> Option<i64>
        requires { IsMoment reading }
        ensures some { (zone : Timeline) (xs : List Change) → InOrder zone
            → zone.changes ≡ xs ++ changes_from self.now.one self.now.other skip
            → IfSome result (λ instant. (i : ℤ) → (i ≡ instant) ↔ (local_at zone i ≡ reading)) }
        ensures none { let f = instant_at self.now.one self.now.other
            in IfNone result (AllAfter f skip rule_count reading
            ⊎ (AllPast f rule_count reading ⊎ HasNear f skip rule_count reading)) }
    {
        let count = self.count(reading);
        if count <= skip || count == self.len() {
            return None;
        }
        self.span_before(count).single(reading)
    }

    /// Returns the number of changes that are not after the last change of a table.
    pub(crate) fn skip(&self, table: &Table<'_>) -> u32
        requires { (k : ℕ) → k < length table.now → IsMoment (at table.now k) }
        ensures bound { result ≤ 3_999_998 }
        ensures within { result ≤ rule_count }
        ensures rest { filter (is_after table.now) (changes_from self.now.one self.now.other 0)
            ≡ changes_from self.now.one self.now.other result }
    {
        let _ = self.len();
        let count = table.len();
        if count == 0 {
            0
        } else {
            self.count(table.change(count - 1).at)
        }
    }

    /// Checks that the gap or fold of the last change of a table ends before the gap or fold of
    /// the rule's change at an index begins.
    pub(crate) fn joins(&self, first: LocalType, table: &Table<'_>, skip: u32) -> bool
        requires skip { skip ≤ 3_999_998 }
        requires ordered { IsOrdered first.offset table.now }
        requires rule { skip ≤ rule_count }
        ensures { IsTrue result
            ↔ Joins first.offset table.now (changes_from self.now.one self.now.other skip) }
    {
        let count = table.len();
        if count == 0 {
            return true;
        }
        if skip == self.len() {
            return true;
        }
        let index = count - 1;
        let last = table.change(index);
        is_next(
            last.at,
            self.time(skip),
            after(first, table, index),
            last.kind.offset,
            self.kind(skip).offset,
        )
    }
}
