//! Zones whose changes need not be in order.
ghost use Rattle.std.specs.List.{slice_index_or};
ghost use Rattle.std.specs.Prelude.{◌≡◌, ℕ, suc, ◌+◌, ◌^◌, ◌<◌, ◌≤◌, ◌↔◌, ◌⊎◌, ℤ, pos, neg_ℤ, ◌-ℤ◌, ◌<ℤ◌, ◌≤ℤ◌, length, IsTrue, IfSome, IfNone};
ghost use Rattle.cal_zone.specs.Timeline.{kind_at, local_at, offset_at, after_changes, at, ends, no_change, InOrder, IsMoment, IsOffset};
ghost use Rattle.cal_zone.specs.Rule.{change_of};
ghost use Rattle.cal_zone.specs.Split.{IsBracket};
ghost use Rattle.cal_zone.specs.Zone.{later, made_of, AreParts, IsByRule};
ghost use Rattle.cal_zone.specs.Instants.{Names, IsExplained};
ghost use Rattle.cal_zone.specs.Span.{HasNear, IsBetweenChanges, IsNear, IsSpan, IsSpanAfter};

use crate::{Change, Guesses, Instants, LocalType, Rule, Span, Table, ZoneParts};
use std::marker::Model;

/// A zone whose changes need not be in order. If they are not, a call may return any value.
///
/// Contracts see the same as of a [`Zone`](crate::Zone).
#[derive(Debug, Drop)]
pub struct UncheckedZone<'a> {
    pub(crate) first: LocalType,
    pub(crate) table: Table<'a>,
    pub(crate) rule: Option<Rule>,
    pub(crate) skip: u32,
}

impl<'a> Model for UncheckedZone<'a> {
    ghost use Rattle.std.specs.Prelude.{◌≤◌, ◌<◌, ◌^◌, length};
    ghost use Rattle.cal_zone.specs.Timeline.{Timeline};
    ghost use Rattle.cal_zone.specs.Zone.{held};

    ghost Value = { Timeline };

    ghost view = { λ z. held z.first z.table z.rule z.skip };

    ghost invariant = { λ z. (z.skip ≤ 3_999_998) × (length z.table < 2 ^ 60) };
}

/// Returns the number of changes that the rule makes after the table.
fn later_len(rule: &Option<Rule>, skip: u32) -> usize
    requires { skip ≤ 3_999_998 }
    ensures len { result ≡ length (later rule.now skip) }
    ensures bound { result ≤ 3_999_998 }
{
    match rule {
        Some(rule) => (rule.len() - skip) as usize,
        None => 0,
    }
}

/// Returns the rule's change at an index that is counted from the table's end.
#[inline(always)]
fn later_change(rule: &Option<Rule>, skip: u32, index: usize) -> Change
    requires skip { skip ≤ 3_999_998 }
    requires index { index < length (later rule.now skip) }
    ensures { result ≡ slice_index_or (later rule.now skip) index no_change }
{
    match rule {
        Some(rule) => {
            let _ = rule.len();
            rule.change(skip + index as u32)
        }
        None => unreachable!(),
    }
}

impl<'a> UncheckedZone<'a> {
    ghost use Rattle.cal_zone.specs.Changes.{IsNextChange, NoNextChange, IsPreviousChange, NoPreviousChange};

    /// Creates a zone from its parts, without a look at the changes. Returns `None` if the bytes
    /// don't have all changes, or if `skip` is above 3999998, the number of changes of a rule.
    #[inline(always)]
    pub fn new(parts: ZoneParts<'a>) -> Option<Self>
        ensures some { IfSome result (λ zone. zone ≡ made_of parts.entry) }
        ensures parts { IfSome result (λ zone. AreParts parts.entry) }
        ensures none { IfNone result (¬ AreParts parts.entry) }
    {
        if parts.skip > 3_999_998 {
            return None;
        }
        let table = Table::from_parts(parts.bytes, parts.layout)?;
        let _ = table.len();
        Some(UncheckedZone {
            first: parts.first,
            table,
            rule: parts.rule,
            skip: parts.skip,
        })
    }

    /// Returns the number of changes.
    fn len(&self) -> usize
        ensures len { result ≡ length self.now.changes }
        ensures room { result < 2 ^ 63 }
    {
        self.table.len() + later_len(&self.rule, self.skip)
    }

    /// Returns the change at an index.
    #[inline(always)]
    fn change(&self, index: usize) -> Change
        requires { index < length self.now.changes }
        ensures { result ≡ slice_index_or self.now.changes index no_change }
    {
        let table = &self.table;
        let count = table.len();
        if index < count {
            return table.change(index);
        }
        later_change(&self.rule, self.skip, index - count)
    }

    /// Returns the time of the change at an index.
    #[inline(always)]
    fn time(&self, index: usize) -> i64
        requires { index < length self.now.changes }
        ensures { result ≡ at self.now.changes index }
    {
        self.change(index).at
    }

    /// Returns the offset after the first `count` changes.
    #[inline(always)]
    pub(crate) fn after(&self, count: usize) -> i32
        requires { count ≤ length self.now.changes }
        ensures { result ≡ after_changes self.now.first.offset self.now.changes count }
    {
        if count == 0 {
            self.first.offset
        } else {
            self.change(count - 1).kind.offset
        }
    }

    /// Returns the number of changes that are not after an instant.
    fn count(&self, instant: i64) -> usize
        ensures { IsBracket (at self.now.changes) (length self.now.changes) instant result result }
    {
        let count = self.table.count(instant);
        if count < self.table.len() {
            return count;
        }
        match &self.rule {
            Some(rule) => count + rule.count(instant).saturating_sub(self.skip) as usize,
            None => count,
        }
    }

    /// Returns the number of changes that are not after an instant. It is fast if the guess for the
    /// instant is right.
    #[inline(always)]
    fn count_by(&self, instant: i64, guesses: &mut Guesses) -> usize
        ensures { IsBracket (at self.now.changes) (length self.now.changes) instant result result }
    {
        let table = &self.table;
        match guesses.near(table, instant) {
            Some(count) if count < table.len() && table.is_count(count, instant) => count,
            _ => {
                guesses.note(table);
                self.count(instant)
            }
        }
    }

    /// Returns the number of changes that are not after an instant, or `None` if that takes the
    /// rule's changes.
    #[inline(always)]
    pub(crate) fn count_in_table(&self, instant: i64) -> Option<usize>
        ensures some { IfSome result (λ count.
            IsBracket (at self.now.changes) (length self.now.changes) instant count count) }
        ensures none { InOrder self.now → IfNone result (IsByRule self.now instant) }
    {
        let count = self.table.count(instant);
        if count < self.table.len() {
            return Some(count);
        }
        match &self.rule {
            Some(_) => None,
            None => Some(count),
        }
    }

    /// Returns how the clocks are set at a Unix time in seconds. In Berlin it is CEST at
    /// 1711846800.
    #[inline(always)]
    pub fn kind_at(&self, instant: i64) -> LocalType
        ensures { InOrder self.now → result ≡ kind_at self.now instant }
    {
        let count = self.count(instant);
        if count == 0 {
            self.first
        } else {
            self.change(count - 1).kind
        }
    }

    /// Returns the instant of the last of the first `count` changes, or the minimum if `count` is
    /// 0.
    #[inline(always)]
    fn start_of(&self, count: usize) -> i64
        requires { count ≤ length self.now.changes }
        ensures change { (k : ℕ) → suc k ≡ count → result ≡ at self.now.changes k }
        ensures min { count ≡ 0 → result ≡ neg_ℤ (pos 9_223_372_036_854_775_808) }
    {
        if count == 0 {
            i64::MIN
        } else {
            self.time(count - 1)
        }
    }

    /// Returns the last instant before the change at an index, or the maximum if there is no such
    /// change.
    #[inline(always)]
    fn end_of(&self, index: usize) -> i64
        ensures change { InOrder self.now → index < length self.now.changes
            → result ≡ at self.now.changes index -ℤ pos 1 }
        ensures max { length self.now.changes ≤ index
            → result ≡ pos 9_223_372_036_854_775_807 }
    {
        if index < self.len() {
            self.time(index).saturating_sub(1)
        } else {
            i64::MAX
        }
    }

    /// Returns the offset after the first `count` changes, and the instants until the next one.
    #[inline(always)]
    fn span_of(&self, count: usize) -> Span
        requires { count ≤ length self.now.changes }
        ensures span { InOrder self.now → IsSpan self.now result }
        ensures after { InOrder self.now → IsSpanAfter self.now.changes count result }
        ensures offset { result.offset
            ≡ after_changes self.now.first.offset self.now.changes count }
    {
        Span {
            first: self.start_of(count),
            last: self.end_of(count),
            offset: self.after(count),
        }
    }

    /// Returns the same as `span_at`, if `count` changes are not after the instant.
    #[inline(always)]
    fn span_counted(&self, instant: i64, count: usize) -> Span
        requires { IsBracket (at self.now.changes) (length self.now.changes) instant count count }
        ensures span { InOrder self.now → IsSpan self.now result }
        ensures offset { InOrder self.now → result.offset ≡ offset_at self.now instant }
        ensures ends { InOrder self.now → IsBetweenChanges self.now instant result }
    {
        let _ = instant;
        self.span_of(count)
    }

    /// Returns the offset at a Unix time in seconds, and the instants from the last change that is
    /// not after it to the next change. Without such a change they begin at the minimum, or end at
    /// the maximum. In Berlin the offset is 7200 from 1711846800 to 1729990799.
    pub fn span_at(&self, instant: i64) -> Span
        ensures span { InOrder self.now → IsSpan self.now result }
        ensures offset { InOrder self.now → result.offset ≡ offset_at self.now instant }
        ensures ends { InOrder self.now → IsBetweenChanges self.now instant result }
    {
        self.span_counted(instant, self.count(instant))
    }

    /// Returns the Unix time of the only instant at which clocks show a reading by the changes of
    /// the table, without the rule. The reading is its seconds since 1970-01-01 0:00 by the clock,
    /// from -2^60 to 2^60.
    ///
    /// `None` says nothing about the reading; then call `instants_of`. It comes only if a change is
    /// at most 280797 seconds before or after the reading, or if all changes after it are changes
    /// of a rule.
    #[inline(always)]
    pub fn single_in_table(&self, reading: i64) -> Option<i64>
        requires { IsMoment reading }
        ensures some { InOrder self.now → IfSome result
            (λ instant. (i : ℤ) → (i ≡ instant) ↔ (local_at self.now i ≡ reading)) }
        ensures none { InOrder self.now → IfNone result (IsByRule self.now reading
            ⊎ HasNear (at self.now.changes) 0 (length self.now.changes) reading) }
    {
        // Not by `count_in_table`: then the search in the table would copy the rule.
        let count = self.table.count(reading);
        if count < self.table.len() {
            return self.span_of(count).single(reading);
        }
        match &self.rule {
            Some(_) => None,
            None => self.span_of(count).single(reading),
        }
    }

    /// Returns the same as `span_at`, with guesses for many searches in the zone.
    #[inline(always)]
    pub fn span_by(&self, instant: i64, guesses: &mut Guesses) -> Span
        ensures span { InOrder self.now → IsSpan self.now result }
        ensures offset { InOrder self.now → result.offset ≡ offset_at self.now instant }
        ensures ends { InOrder self.now → IsBetweenChanges self.now instant result }
    {
        self.span_counted(instant, self.count_by(instant, guesses))
    }

    /// Returns the same as `span_at` if the instant is less than half a year after the last instant
    /// of the span `other`, or before its first one. Otherwise returns only the instant itself with
    /// its offset, with guesses for many searches: that is faster, and the next instant is seldom
    /// in the same span.
    pub fn span_after(&self, instant: i64, other: Span, guesses: &mut Guesses) -> Span
        ensures span { InOrder self.now → IsSpan self.now result }
        ensures offset { InOrder self.now → result.offset ≡ offset_at self.now instant }
        ensures near { InOrder self.now → IsNear other instant
            → IsBetweenChanges self.now instant result }
        ensures far { ¬ IsNear other instant
            → (result.first ≡ instant) × (result.last ≡ instant) }
    {
        if other.is_near(instant) {
            self.span_at(instant)
        } else {
            Span {
                first: instant,
                last: instant,
                offset: self.span_by(instant, guesses).offset,
            }
        }
    }

    /// Returns the first change after a Unix time in seconds, or `None` if there is none. In Berlin
    /// it is at 1711846800 after 1709164800.
    pub fn next_change(&self, instant: i64) -> Option<Change>
        ensures some { InOrder self.now → IfSome result (IsNextChange self.now instant) }
        ensures none { InOrder self.now → IfNone result (NoNextChange self.now instant) }
    {
        let count = self.count(instant);
        if count < self.len() {
            Some(self.change(count))
        } else {
            None
        }
    }

    /// Returns the last change that is not after a Unix time in seconds, or `None` if there is
    /// none. In Berlin it is at 1711846800 for 1711846800.
    pub fn previous_change(&self, instant: i64) -> Option<Change>
        ensures some { InOrder self.now → IfSome result (IsPreviousChange self.now instant) }
        ensures none { InOrder self.now → IfNone result (NoPreviousChange self.now instant) }
    {
        let count = self.count(instant);
        if count == 0 {
            None
        } else {
            Some(self.change(count - 1))
        }
    }

    /// Checks that the gap or fold of the change at an index ends before a reading.
    #[inline(always)]
    fn is_past(&self, index: usize, reading: i64) -> bool
        requires index { index < length self.now.changes }
        requires reading { IsMoment reading }
        ensures { IsTrue result
            ↔ (ends self.now.first.offset self.now.changes index ≤ℤ reading) }
    {
        let _ = self.len();
        let most = self.after(index).max(self.after(index + 1));
        self.time(index) <= reading - i64::from(most)
    }

    /// Returns the number of changes whose gaps or folds lie before a reading. No offset moves it
    /// past many changes.
    fn passed(&self, reading: i64) -> usize
        requires { IsMoment reading }
        ensures { IsBracket (ends self.now.first.offset self.now.changes)
            (length self.now.changes) reading result result }
    {
        let len = self.len();
        let mut count = self.count(reading);
        'back: while 0 < count && !self.is_past(count - 1, reading) {
            count -= 1;
        }
        'on: while count < len && self.is_past(count, reading) {
            count += 1;
        }
        count
    }

    /// Returns the instants at which clocks show a reading. The reading is its seconds since
    /// 1970-01-01 0:00 by the clock, from -2^60 to 2^60. In Berlin 1729996200, 2024-10-27 2:30, is
    /// a fold at 1729989000 and 1729992600.
    pub fn instants_of(&self, reading: i64) -> Instants
        requires { IsMoment reading }
        ensures set { InOrder self.now
            → (i : ℤ) → Names result i ↔ (local_at self.now i ≡ reading) }
        ensures explained { InOrder self.now → IsExplained self.now reading result }
    {
        match self.span_at(reading).single(reading) {
            Some(instant) => Instants::Single(instant),
            None => self.instants_near_change(reading),
        }
    }

    /// Returns the instants at which clocks show a reading, like `instants_of`. It is faster if the
    /// reading is within three days of a change, and else slower.
    pub fn instants_near_change(&self, reading: i64) -> Instants
        requires { IsMoment reading }
        ensures set { InOrder self.now
            → (i : ℤ) → Names result i ↔ (local_at self.now i ≡ reading) }
        ensures explained { InOrder self.now → IsExplained self.now reading result }
    {
        let count = self.passed(reading);
        let before = self.after(count);
        let earlier = reading - i64::from(before);
        if count == self.len() {
            return Instants::Single(earlier);
        }
        let at = self.time(count);
        let after = self.after(count + 1);
        let later = reading - i64::from(after);
        if earlier < at {
            if at <= later {
                Instants::Fold { earlier, later }
            } else {
                Instants::Single(earlier)
            }
        } else if at <= later {
            Instants::Single(later)
        } else {
            Instants::Gap { at, before, after }
        }
    }
}
