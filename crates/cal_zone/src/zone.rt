//! Time zones.
ghost use Rattle.std.specs.Prelude.{◌≡◌, ◌≤◌, ◌↔◌, ℤ, IfOk, IfErr, OnOk, OnErr, IfSome, IfNone};
ghost use Rattle.cal_zone.specs.Timeline.{offset_at, kind_at, local_at, InOrder, IsMoment, IsOffset, IsOrdered};
ghost use Rattle.cal_zone.specs.Instants.{Names, IsExplained};
ghost use Rattle.cal_zone.specs.Zone.{held, made_of, zone_of, AreParts, IsTimelineError};

use crate::{
    Change, ChangeError, Instants, LocalType, Rule, Table, TimelineError, UncheckedZone, ZoneParts,
};
use std::marker::Model;

/// A time zone: the local time type before the first change, the changes of a file, whose bytes
/// the zone borrows, and the rule after the last of them.
///
/// Contracts see the first type and one list of changes: the changes of the file, and then the
/// rule's two changes of each later year to 999999.
#[derive(Debug, Drop)]
pub struct Zone<'a> {
    pub(crate) unchecked: UncheckedZone<'a>,
}

impl<'a> Model for Zone<'a> {
    ghost use Rattle.cal_zone.specs.Timeline.{Timeline, InOrder};

    ghost Value = { Timeline };

    ghost view = { λ z. z.unchecked };

    ghost invariant = { λ z. InOrder z.unchecked };
}

/// Checks that changes and then the changes of a rule are in order. Returns the number of changes
/// of the rule, from the year -999999 on, that are not after the last one of the table, or 0
/// without a rule.
///
/// Returns `Change` if the changes of the table are not in order. Otherwise returns `Junction` if
/// the gap or fold of the last one overlaps the gap or fold of the rule's next change.
pub fn join(first: LocalType, table: &Table<'_>, rule: Option<Rule>) -> Result<u32, TimelineError>
    ensures value { IfOk result (λ skip. held first table.now rule skip ≡ zone_of first table.now rule) }
    ensures range { IfOk result (λ skip. skip ≤ 3_999_998) }
    ensures no_rule { IfNone rule (IfOk result (λ skip. skip ≡ 0)) }
    ensures ordered { OnOk result (IsOrdered first.offset (zone_of first table.now rule).changes) }
    ensures error { IfErr result (IsTimelineError first table.now rule) }
    ensures every { OnErr result (¬ IsOrdered first.offset (zone_of first table.now rule).changes) }
{
    let _ = table.len();
    if let Some(error) = ChangeError::find(first, table) {
        return Err(TimelineError::Change(error));
    }
    match rule {
        None => Ok(0),
        Some(found) => {
            let skip = found.skip(table);
            if found.joins(first, table, skip) {
                Ok(skip)
            } else {
                Err(TimelineError::Junction)
            }
        }
    }
}

impl<'a> Zone<'a> {
    ghost use Rattle.cal_zone.specs.Changes.{IsNextChange, NoNextChange, IsPreviousChange, NoPreviousChange};

    /// Creates a zone from its first type, its changes and the rule after the last of them. Returns
    /// the errors of `join`.
    pub fn new(
        first: LocalType,
        table: Table<'a>,
        rule: Option<Rule>,
    ) -> Result<Self, TimelineError>
        ensures value { IfOk result (λ zone. zone ≡ zone_of first table.entry rule) }
        ensures ordered { OnOk result
            (IsOrdered first.offset (zone_of first table.entry rule).changes) }
        ensures error { IfErr result (IsTimelineError first table.entry rule) }
        ensures every { OnErr result
            (¬ IsOrdered first.offset (zone_of first table.entry rule).changes) }
    {
        let _ = table.len();
        let skip = join(first, &table, rule)?;
        Ok(Zone {
            unchecked: UncheckedZone {
                first,
                table,
                rule,
                skip,
            },
        })
    }

    /// Creates a zone from parts whose changes are in order, without a look at the changes.
    pub fn from_parts(parts: ZoneParts<'a>) -> Self
        requires parts { AreParts parts }
        requires order { InOrder (made_of parts) }
        ensures { result ≡ made_of parts.entry }
    {
        match UncheckedZone::new(parts) {
            Some(unchecked) => Zone { unchecked },
            None => unreachable!(),
        }
    }

    /// Returns the zone as one whose changes need not be in order.
    #[inline(always)]
    pub fn as_unchecked(&self) -> &UncheckedZone<'a>
        ensures value { result.now ≡ self.now }
        ensures order { InOrder self.now }
    {
        &self.unchecked
    }

    /// Returns the seconds by which clocks are ahead of UTC at a Unix time in seconds. In Berlin it
    /// is 7200 at 1711846800, 2024-03-31 1:00 UTC.
    pub fn offset_at(&self, instant: i64) -> i32
        ensures value { result ≡ offset_at self.now instant }
        ensures offset { IsOffset result }
    {
        let _ = &self.unchecked;
        self.kind_at(instant).offset
    }

    /// Returns how the clocks are set at a Unix time in seconds. In Berlin it is CEST at
    /// 1711846800.
    #[inline(always)]
    pub fn kind_at(&self, instant: i64) -> LocalType
        ensures { result ≡ kind_at self.now instant }
    {
        self.unchecked.kind_at(instant)
    }

    /// Returns the first change after a Unix time in seconds, or `None` if there is none. In Berlin
    /// it is at 1711846800 after 1709164800.
    pub fn next_change(&self, instant: i64) -> Option<Change>
        ensures some { IfSome result (IsNextChange self.now instant) }
        ensures none { IfNone result (NoNextChange self.now instant) }
    {
        self.unchecked.next_change(instant)
    }

    /// Returns the last change that is not after a Unix time in seconds, or `None` if there is
    /// none. In Berlin it is at 1711846800 for 1711846800.
    pub fn previous_change(&self, instant: i64) -> Option<Change>
        ensures some { IfSome result (IsPreviousChange self.now instant) }
        ensures none { IfNone result (NoPreviousChange self.now instant) }
    {
        self.unchecked.previous_change(instant)
    }

    /// Returns the instants at which clocks show a reading. The reading is its seconds since
    /// 1970-01-01 0:00 by the clock, from -2^60 to 2^60. In Berlin 1729996200, 2024-10-27 2:30, is
    /// a fold at 1729989000 and 1729992600.
    pub fn instants_of(&self, reading: i64) -> Instants
        requires { IsMoment reading }
        ensures set { (i : ℤ) → Names result i ↔ (local_at self.now i ≡ reading) }
        ensures explained { IsExplained self.now reading result }
    {
        self.unchecked.instants_of(reading)
    }
}
