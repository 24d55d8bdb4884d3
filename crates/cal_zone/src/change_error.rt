//! Errors of changes that are not in order.
ghost use Rattle.std.specs.Prelude.{◌≡◌, ℕ, suc, ◌+◌, ◌<◌, ◌≤◌, ◌↔◌, ℤ, length, IsTrue, IfSome, IfNone};
ghost use Rattle.cal_zone.specs.Timeline.{after_changes, IsMoment, IsNext, IsOffset};

use crate::{LocalType, Table};

/// An error: changes are not in order. It has the index of the change, from 0.
#[derive(Clone, Copy, Debug, PartialEq, Eq)]
pub enum ChangeError {
    /// The offset before the first change is outside -25:59:59 to 25:59:59.
    FirstOffset,
    /// The offset of the change is outside -25:59:59 to 25:59:59.
    Offset(usize),
    /// The Unix time of the change is outside -2^60 to 2^60.
    Instant(usize),
    /// The next change is not later than the change.
    NotRising(usize),
    /// The gap or fold of the change overlaps the gap or fold of the next change.
    Overlap(usize),
}

/// Checks that an offset is from -25:59:59 to 25:59:59.
#[inline(always)]
pub(crate) fn is_offset(offset: i32) -> bool
    ensures { IsTrue result ↔ IsOffset offset }
{
    -93_599 <= offset && offset <= 93_599
}

/// Checks that an instant is from -2^60 to 2^60.
fn is_moment(at: i64) -> bool
    ensures { IsTrue result ↔ IsMoment at }
{
    -1_152_921_504_606_846_976 <= at && at <= 1_152_921_504_606_846_976
}

/// Returns the offset after the first `count` changes.
pub(crate) fn after(first: LocalType, table: &Table<'_>, count: usize) -> i32
    requires { count ≤ length table.now }
    ensures { result ≡ after_changes first.offset table.now count }
{
    if count == 0 {
        first.offset
    } else {
        table.change(count - 1).kind.offset
    }
}

/// Checks that the gap or fold of a change at one instant ends before the gap or fold of the next
/// change begins. The offsets are those before, between and after the changes.
pub(crate) fn is_next(at: i64, next: i64, before: i32, between: i32, after: i32) -> bool
    requires at { IsMoment at × IsMoment next }
    requires offset { IsOffset before × IsOffset between × IsOffset after }
    ensures { IsTrue result ↔ IsNext at next before between after }
{
    let end = at + i64::from(before.max(between));
    let begin = next + i64::from(between.min(after));
    at < next && end <= begin
}

impl ChangeError {
    ghost use Rattle.cal_zone.specs.ChangeError.{IsChangeError, IsSound, AreSound, Follows, AllFollow};
    ghost use Rattle.cal_zone.specs.Timeline.{IsOrdered};

    /// Returns the error of a single change, if it has one.
    fn of(table: &Table<'_>, index: usize, first: LocalType) -> Option<ChangeError>
        requires index { index < length table.now }
        requires first { IsOffset first.offset }
        requires before { AreSound table.now index }
        ensures none { IfNone result (IsSound table.now index) }
        ensures some { IfSome result (IsChangeError first.offset table.now) }
    {
        let change = table.change(index);
        if !is_offset(change.kind.offset) {
            Some(ChangeError::Offset(index))
        } else if !is_moment(change.at) {
            Some(ChangeError::Instant(index))
        } else {
            None
        }
    }

    /// Returns the error of the change and the next one, if they have one.
    fn between(table: &Table<'_>, index: usize, first: LocalType) -> Option<ChangeError>
        requires next { suc index < length table.now }
        requires first { IsOffset first.offset }
        requires sound { AreSound table.now (length table.now) }
        requires before { AllFollow first.offset table.now index }
        ensures none { IfNone result (Follows first.offset table.now index) }
        ensures some { IfSome result (IsChangeError first.offset table.now) }
    {
        let change = table.change(index);
        let next = table.change(index + 1);
        if next.at <= change.at {
            return Some(ChangeError::NotRising(index));
        }
        let before = after(first, table, index);
        if is_next(
            change.at,
            next.at,
            before,
            change.kind.offset,
            next.kind.offset,
        ) {
            return None;
        }
        Some(ChangeError::Overlap(index))
    }

    /// Returns the first error of the changes, or `None` if they are in order.
    pub(crate) fn find(first: LocalType, table: &Table<'_>) -> Option<ChangeError>
        ensures none { IfNone result (IsOrdered first.offset table.now) }
        ensures some { IfSome result (IsChangeError first.offset table.now) }
    {
        if !is_offset(first.offset) {
            return Some(ChangeError::FirstOffset);
        }
        'each: for index in 0..table.len() {
            let found = ChangeError::of(table, index, first);
            if found.is_some() {
                return found;
            }
        }
        'pairs: for index in 1..table.len() {
            let found = ChangeError::between(table, index - 1, first);
            if found.is_some() {
                return found;
            }
        }
        None
    }
}
