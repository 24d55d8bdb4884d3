//! The changes of a TZif file, read from its bytes.
ghost use Rattle.std.specs.Prelude.{◌≡◌, ◌≢◌, ℕ, ◌+◌, ◌*◌, ◌^◌, ◌<◌, ◌≤◌, ◌↔◌, length, slice_index, slice_index_or, List, ℤ, Some, None, IfSome, IfNone, IsTrue, FitsSigned};
ghost use Rattle.std.proofs.Common.{w32, w64};
ghost use Rattle.cal_zone.specs.Bytes.{big_endian, two_complement};
ghost use Rattle.cal_zone.specs.Table.{local_type};

use crate::{Change, Layout, LocalType};
use std::marker::Model;

/// Returns the byte at a position, or 0 after the end.
#[inline(always)]
fn byte(bytes: &[u8], at: usize) -> u8
    ensures { result ≡ slice_index bytes.now at }
{
    if at < bytes.len() { bytes[at] } else { 0 }
}

/// Returns the number of four bytes, the highest first.
#[inline(always)]
fn number_of(a: u8, b: u8, c: u8, d: u8) -> u32
    ensures { result ≡ ((a * 256 + b) * 256 + c) * 256 + d }
{
    let high = u32::from(a) * 256 + u32::from(b);
    (high * 256 + u32::from(c)) * 256 + u32::from(d)
}

/// Returns the signed number of four bytes, the highest first.
#[inline(always)]
fn signed_of(a: u8, b: u8, c: u8, d: u8) -> i32
    ensures { result ≡ two_complement 31 (((a * 256 + b) * 256 + c) * 256 + d) }
{
    let n = number_of(a, b, c, d);
    if n < 0x8000_0000 {
        n as i32
    } else {
        -((u32::MAX - n) as i32) - 1
    }
}

/// Returns the signed number of the four bytes at a position.
#[inline(always)]
fn signed(bytes: &[u8], at: usize) -> i32
    requires { at + 4 < 2 ^ 64 }
    ensures { result ≡ two_complement 31 (big_endian bytes.now at 4) }
{
    if at + 4 <= bytes.len() {
        return signed_of(bytes[at], bytes[at + 1], bytes[at + 2], bytes[at + 3]);
    }
    signed_of(
        byte(bytes, at),
        byte(bytes, at + 1),
        byte(bytes, at + 2),
        byte(bytes, at + 3),
    )
}

/// Returns the signed number of the eight bytes at a position.
#[inline(always)]
fn signed_long(bytes: &[u8], at: usize) -> i64
    requires { at + 8 ≤ length bytes.now }
    ensures { result ≡ two_complement 63 (big_endian bytes.now at 8) }
{
    let high = number_of(bytes[at], bytes[at + 1], bytes[at + 2], bytes[at + 3]);
    let low = number_of(bytes[at + 4], bytes[at + 5], bytes[at + 6], bytes[at + 7]);
    let n = u64::from(high) * 0x1_0000_0000 + u64::from(low);
    if n < 0x8000_0000_0000_0000 {
        n as i64
    } else {
        -((u64::MAX - n) as i64) - 1
    }
}

/// Returns the local time type that begins at a position.
#[inline(always)]
fn local_type(bytes: &[u8], at: usize, names: usize, names_end: usize) -> LocalType
    requires at { at + 6 < 2 ^ 64 }
    requires names { names + 255 < 2 ^ 64 }
    ensures value { result ≡ local_type bytes.now at names names_end }
    ensures fits { FitsSigned w32 result.offset }
{
    LocalType {
        offset: signed(bytes, at),
        is_daylight: byte(bytes, at + 4) != 0,
        name_start: names + usize::from(byte(bytes, at + 5)),
        name_end: names_end,
    }
}

impl Layout {
    ghost use Rattle.cal_zone.specs.Table.{type_in, IsInside};

    /// Returns the local time type at an index below `kinds`, from the bytes of the file.
    pub fn kind(self, bytes: &[u8], index: usize) -> LocalType
        requires inside { IsInside bytes.now self }
        requires index { index < self.kinds }
        ensures value { result ≡ type_in bytes.now self index }
        ensures fits { FitsSigned w32 result.offset }
    {
        let _ = bytes.len();
        local_type(bytes, self.types + 6 * index, self.names, self.names_end)
    }
}

/// A table of the changes of a TZif file, which are read from its bytes (RFC 9636, 3.2). Contracts
/// see a list of changes.
#[derive(Debug, Drop)]
pub struct Table<'a> {
    bytes: &'a [u8],
    layout: Layout,
}

/// No slice is longer.
const MAX_LEN: usize = 0x7fff_ffff_ffff_ffff;

/// Returns about the number of changes that are not after an instant, at two changes a year before
/// the last one, from 0 to `most`. It makes a search short, and need not be right.
fn count_near(last: i64, instant: i64, most: usize) -> usize
    ensures { result ≤ most }
{
    let changes = last.wrapping_sub(instant).cast_unsigned() / 15_778_476;
    most.saturating_sub(changes as usize)
}

impl<'a> Model for Table<'a> {
    ghost use Rattle.std.specs.Prelude.{List};
    ghost use Rattle.cal_zone.specs.declared.change.Change.{Change};
    ghost use Rattle.cal_zone.specs.Table.{changes_in, IsReadable};

    ghost Value = { List Change };

    ghost view = { λ t. changes_in t.bytes.now t.layout };

    ghost invariant = { λ t. IsReadable t.bytes.now t.layout };
}

impl<'a> Table<'a> {
    ghost use Rattle.cal_zone.specs.Table.{changes_in, IsInside, IsReadable, IsTable, HasNoType};
    ghost use Rattle.cal_zone.specs.Timeline.{at, no_change};
    ghost use Rattle.cal_zone.specs.Split.{IsBracket};
    ghost use Rattle.std.specs.Prelude.{IfOk, IfErr, OnOk, []};

    /// Creates the table of the changes of a file. Returns an error with the position of the first
    /// index of a type that doesn't exist, if there is one.
    pub fn new(bytes: &'a [u8], layout: Layout) -> Result<Self, usize>
        requires { IsInside bytes.now layout }
        ensures value { IfOk result (λ table. table ≡ changes_in bytes.now layout) }
        ensures typed { OnOk result (IsTable bytes.now layout) }
        ensures error { IfErr result (HasNoType bytes.now layout) }
    {
        let _ = bytes.len();
        'each: for index in 0..layout.changes {
            let at = layout.indexes + index;
            if usize::from(bytes[at]) >= layout.kinds {
                return Err(at);
            }
        }
        Ok(Table { bytes, layout })
    }

    /// Creates a table without a look at the changes. Returns `None` if the bytes don't have all
    /// parts of the layout.
    #[inline(always)]
    pub(crate) fn from_parts(bytes: &'a [u8], layout: Layout) -> Option<Self>
        ensures some { IfSome result (λ table. table ≡ changes_in bytes.now layout) }
        ensures readable { IfSome result (λ table. IsReadable bytes.now layout) }
        ensures none { IfNone result (¬ IsReadable bytes.now layout) }
    {
        let len = bytes.len();
        // No sum below overflows then.
        if layout.changes > MAX_LEN / 8 || layout.kinds > MAX_LEN / 6 {
            return None;
        }
        if layout.times > MAX_LEN || layout.indexes > MAX_LEN || layout.types > MAX_LEN {
            return None;
        }
        if layout.times + 8 * layout.changes > len || layout.indexes + layout.changes > len {
            return None;
        }
        if layout.types + 6 * layout.kinds > len || layout.names > len {
            return None;
        }
        Some(Table { bytes, layout })
    }

    /// Creates a table without changes.
    pub fn empty(bytes: &'a [u8]) -> Self
        ensures { result ≡ [] }
    {
        let layout = Layout::empty();
        Table { bytes, layout }
    }

    /// Returns the number of changes.
    pub fn len(&self) -> usize
        ensures len { result ≡ length self.now }
        ensures room { length self.now < 2 ^ 60 }
    {
        self.layout.changes
    }

    /// Returns the Unix time of the change at an index, in seconds.
    #[inline(always)]
    pub fn time(&self, index: usize) -> i64
        requires { index < length self.now }
        ensures { result ≡ at self.now index }
    {
        let bytes = self.bytes;
        let _ = bytes.len();
        signed_long(bytes, self.layout.times + 8 * index)
    }

    /// Returns how the clocks are set from the change at an index on.
    #[inline(always)]
    pub fn kind(&self, index: usize) -> LocalType
        requires { index < length self.now }
        ensures value { result ≡ (slice_index_or self.now index no_change).kind }
        ensures fits { FitsSigned w32 result.offset }
    {
        let bytes = self.bytes;
        let _ = bytes.len();
        let layout = self.layout;
        let kind = usize::from(bytes[layout.indexes + index]);
        local_type(
            bytes,
            layout.types + 6 * kind,
            layout.names,
            layout.names_end,
        )
    }

    /// Returns the change at an index.
    #[inline(always)]
    pub fn change(&self, index: usize) -> Change
        requires { index < length self.now }
        ensures value { result ≡ slice_index_or self.now index no_change }
        ensures at { result.at ≡ at self.now index }
        ensures offset { result.kind.offset
            ≡ (slice_index_or self.now index no_change).kind.offset }
        ensures fits { FitsSigned w32 result.kind.offset }
        ensures room { index < 2 ^ 60 }
    {
        let _ = self.len();
        Change {
            at: self.time(index),
            kind: self.kind(index),
        }
    }

    /// Returns 1 if the change at an index is not after an instant, else 0.
    #[inline(always)]
    pub(crate) fn past(&self, index: usize, instant: i64) -> usize
        requires { index < length self.now }
        ensures { result ≤ 1 }
    {
        usize::from(self.time(index) <= instant)
    }

    /// Returns about the number of changes that are not after an instant, from `start` to
    /// `start + 31`. It looks at seven changes without a branch, and need not be right.
    #[inline(always)]
    fn count_from(&self, start: usize, instant: i64) -> usize
        requires { start + 31 < length self.now }
        ensures { result ≤ start + 31 }
    {
        let _ = self.len();
        let half = start + 16 * self.past(start + 15, instant);
        let part = half
            + 4 * (self.past(half + 3, instant)
                + self.past(half + 7, instant)
                + self.past(half + 11, instant));
        part + self.past(part, instant)
            + self.past(part + 1, instant)
            + self.past(part + 2, instant)
    }

    /// Checks that the change before an index is not after an instant, and the change at it is.
    #[inline(always)]
    pub(crate) fn is_count(&self, index: usize, instant: i64) -> bool
        requires { index < length self.now }
        ensures { IsTrue result ↔ IsBracket (at self.now) (length self.now) instant index index }
    {
        if 0 < index && instant < self.time(index - 1) {
            return false;
        }
        instant < self.time(index)
    }

    /// Returns the number of changes that are not after an instant, if they rise.
    fn search(&self, instant: i64) -> usize
        ensures { IsBracket (at self.now) (length self.now) instant result result }
    {
        let mut low = 0;
        let mut high = self.len();
        while low < high {
            let middle = low + (high - low) / 2;
            if self.time(middle) <= instant {
                low = middle + 1;
            } else {
                high = middle;
            }
        }
        low
    }

    /// Returns the number of changes that are not after an instant, if they rise. Before a search
    /// it tries a number that is up to 23 more or 8 less than `near`. It isn't inlined, and takes a
    /// table by value, so that a caller keeps none in memory.
    #[inline(never)]
    fn count_far(self, near: usize, instant: i64) -> usize
        ensures { IsBracket (at self.entry) (length self.entry) instant result result }
    {
        let len = self.len();
        if 32 <= len {
            let count = self.count_from(near.saturating_sub(8).min(len - 32), instant);
            if self.is_count(count, instant) {
                return count;
            }
        }
        self.search(instant)
    }

    /// Returns the number of changes that are not after an instant, if they rise. First it tries
    /// the number by two changes a year.
    #[inline(always)]
    pub(crate) fn count(&self, instant: i64) -> usize
        ensures { IsBracket (at self.now) (length self.now) instant result result }
    {
        let len = self.len();
        if len == 0 {
            return 0;
        }
        let last = self.time(len - 1);
        if last <= instant {
            return len;
        }
        let near = count_near(last, instant, len - 1);
        let count = (near + self.past(near, instant)).min(len - 1);
        if self.is_count(count, instant) {
            return count;
        }
        let (bytes, layout) = (self.bytes, self.layout);
        Table { bytes, layout }.count_far(near, instant)
    }
}
