//! Recurrence sets in a time zone whose `COUNT` is counted only as far as a search needs.
ghost use Rattle.std.specs.Prelude.{◌≡◌, ◌↔◌, ◌+ℤ◌, ◌-ℤ◌, ℤ, [], pos, IsTrue};
ghost use Rattle.cal_datetime.specs.OffsetDateTime.{instant, unix_epoch};
ghost use Rattle.cal_recurrence.specs.CountedSet.{unread, whole_rule};
ghost use Rattle.cal_recurrence.specs.Cursors.{resumed_zone_rule};
ghost use Rattle.cal_recurrence.specs.SetMeaning.{last_instant, zone_rule};
ghost use Rattle.cal_recurrence.specs.Occurrences.{before_all};
ghost use Rattle.cal_recurrence.specs.OffsetRange.{IsStart};
ghost use Rattle.cal_recurrence.specs.ZonedSet.{HasInstant, IsNextAfter, Occurs};
ghost use Rattle.cal_recurrence.specs.declared.reading_cursor.ReadingCursor.{ReadingCursor};
ghost use Rattle.cal_recurrence.specs.declared.recurrence.Recurrence.{Recurrence};

use crate::counting::Uncounted;
use crate::date_or_time::DateOrTime;
use crate::date_time_rule::DateTimeRule;
use crate::date_time_set::DateTimeSet;
use crate::occurrences::Occurrences;
use crate::offset_range::earliest_in;
use crate::reach::{first_moment, is_past};
use crate::reading_cursor::ReadingCursor;
use crate::recurrence::{Recurrence, RuleEnd};
use crate::zoned_set::{ZonedSet, is_at, nanoseconds};
use cal_datetime::{OffsetDateTime, PlainDateTime};
use cal_zone::Zone;
use std::marker::Model;

/// A recurrence set of a recurrence in a time zone. A search counts the readings of a `COUNT` from
/// the start, as far as it needs them. Contracts see the set, up to the last reading of the
/// `COUNT`.
#[derive(Debug, Drop)]
pub struct CountedZonedSet<'a> {
    /// The set, whose rule ends at the last reading that was counted.
    set: ZonedSet<'a>,
    left: Uncounted,
}

impl<'a> Model for CountedZonedSet<'a> {
    ghost use Rattle.std.specs.Prelude.{◌≡◌};
    ghost use Rattle.cal_recurrence.specs.declared.zoned_set.ZonedSet.{ZonedSet};

    ghost Value = { ZonedSet };

    ghost use Rattle.cal_recurrence.specs.CountedSet.{unread, whole_zoned_set};

    ghost view = { λ counted. whole_zoned_set counted.set counted.left.readings };

    ghost invariant = { λ counted.
        counted.left.readings ≡ unread counted.set.readings.rule counted.left.left };
}

impl Recurrence {
    /// Returns the set of the moments of the readings from a start in a zone, with other readings
    /// (`RDATE`) and without exceptions (`EXDATE`). An `UNTIL` in UTC ends the rule at an instant.
    /// For `FREQ=DAILY;COUNT=2` from 2024-03-30 2:30 on in Berlin, they are 2024-03-30 2:30
    /// +01:00:00 and 2024-03-31 3:30 +02:00:00.
    pub fn zoned_set<'a>(
        &self,
        start: PlainDateTime,
        dates: &'a [PlainDateTime],
        exceptions: &'a [PlainDateTime],
        zone: &'a Zone<'a>,
    ) -> CountedZonedSet<'a>
        ensures rule { result.readings.rule ≡ zone_rule self.now start }
        ensures dates { result.readings.dates.now ≡ dates.now }
        ensures readings { result.readings.exceptions.now ≡ exceptions.now }
        ensures zone { result.zone.now ≡ zone.now }
        ensures until { result.until ≡ last_instant self.now.end }
        ensures instants { result.instants.now ≡ [] }
        ensures exceptions { result.exceptions.now ≡ [] }
    {
        self.zoned_set_at(start, self.reading_cursor(), dates, exceptions, zone)
    }

    /// Returns the rule in a zone from a start, its last instant and the readings of a `COUNT` that
    /// aren't counted.
    fn zoned_rule(
        &self,
        start: PlainDateTime,
        cursor: ReadingCursor,
    ) -> (DateTimeRule, Uncounted, Option<OffsetDateTime>)
        ensures whole { whole_rule result.0 result.1.readings ≡ resumed_zone_rule self.now start cursor }
        ensures counted { result.1.readings ≡ unread result.0 result.1.left }
        ensures until { result.2 ≡ last_instant self.now.end }
    {
        if let RuleEnd::Until(DateOrTime::Utc(last)) = self.end {
            let rule = self.rule_until(start, None);
            let left = Uncounted::none(&rule);
            return (rule, left, Some(last.assume_utc()));
        }
        let (rule, left) = self.uncounted(start, cursor);
        (rule, left, None)
    }

    /// Returns the set of the moments of the readings like `zoned_set`, which goes on from a cursor.
    /// For `FREQ=DAILY;COUNT=2` from 2024-03-30 2:30 on in Berlin, and a cursor with one reading left
    /// after this one, they are the same moments as without a cursor.
    pub fn zoned_set_at<'a>(
        &self,
        start: PlainDateTime,
        cursor: ReadingCursor,
        dates: &'a [PlainDateTime],
        exceptions: &'a [PlainDateTime],
        zone: &'a Zone<'a>,
    ) -> CountedZonedSet<'a>
        ensures rule { result.readings.rule ≡ resumed_zone_rule self.now start cursor }
        ensures dates { result.readings.dates.now ≡ dates.now }
        ensures readings { result.readings.exceptions.now ≡ exceptions.now }
        ensures zone { result.zone.now ≡ zone.now }
        ensures until { result.until ≡ last_instant self.now.end }
        ensures instants { result.instants.now ≡ [] }
        ensures exceptions { result.exceptions.now ≡ [] }
    {
        let (mut rule, left, until) = self.zoned_rule(start, cursor);
        if !dates.is_empty() {
            rule.settle();
        }
        let readings = DateTimeSet {
            rule,
            dates,
            exceptions,
        };
        let set = ZonedSet {
            readings,
            zone,
            until,
            instants: &[],
            exceptions: &[],
        };
        CountedZonedSet { set, left }
    }
}

impl<'a> ZonedSet<'a> {
    /// Returns the set with its searches, which have no `COUNT` to count. For 2:30 on every day in
    /// Berlin, 2024-03-31 3:30 +02:00:00 comes after 2024-03-31 0:00 UTC.
    pub fn counted(&self) -> CountedZonedSet<'a>
        ensures { result ≡ self.now }
    {
        let mut readings = self.readings.copy();
        if !self.instants.is_empty() {
            readings.rule.settle();
        }
        let set = ZonedSet {
            readings,
            zone: self.zone,
            until: self.until,
            instants: self.instants,
            exceptions: self.exceptions,
        };
        let left = Uncounted::none(&set.readings.rule);
        CountedZonedSet { set, left }
    }
}

impl<'a> CountedZonedSet<'a> {
    /// Returns how far the searches counted, for another set of the same recurrence, start and zone.
    /// For `FREQ=DAILY;COUNT=1000` from 2024-01-01 9:00 on in Berlin, after a search for the first
    /// occurrence from 2025-01-01 on, fewer than 700 readings are left.
    pub fn cursor(&self) -> ReadingCursor
        ensures { (its : Recurrence) (start : ℤ) (c : ReadingCursor) → self.now.readings.rule ≡ resumed_zone_rule its start c
            → resumed_zone_rule its start result ≡ self.now.readings.rule }
    {
        self.left.cursor(&self.set.readings.rule)
    }

    /// Returns the set with other instants (`RDATE` in UTC) and without exceptions (`EXDATE` in UTC),
    /// in place of those that it has. For 2:30 on two days from 2024-03-30 on in Berlin, with
    /// 2024-04-02 12:00 UTC and without 2024-03-31 1:30 UTC, it has 2024-03-30 2:30 +01:00:00 and
    /// 2024-04-02 12:00 UTC.
    pub fn with_instants(
        mut self,
        instants: &'a [OffsetDateTime],
        exceptions: &'a [OffsetDateTime],
    ) -> Self
        ensures readings { result.readings ≡ self.entry.readings }
        ensures zone { result.zone ≡ self.entry.zone }
        ensures until { result.until ≡ self.entry.until }
        ensures instants { result.instants.now ≡ instants.now }
        ensures exceptions { result.exceptions.now ≡ exceptions.now }
    {
        if !instants.is_empty() {
            self.set.readings.rule.settle();
        }
        let set = ZonedSet {
            readings: self.set.readings,
            zone: self.set.zone,
            until: self.set.until,
            instants,
            exceptions,
        };
        CountedZonedSet {
            set,
            left: self.left,
        }
    }

    /// Returns the first occurrence that is later than some nanoseconds after 1970-01-01 0:00 UTC.
    /// The readings before `start` can't mean such an instant.
    fn search(&mut self, start: PlainDateTime, after: i128) -> Option<OffsetDateTime>
        requires { IsStart self.old.zone.now (unix_epoch +ℤ after) start }
        ensures value { IsNextAfter (Occurs self.old) (unix_epoch +ℤ after) result }
        ensures same { self.new ≡ self.old }
    {
        self.left.pass_over(&mut self.set.readings.rule, start);
        loop {
            let next = self.set.first_after(start, after);
            if let Some(last) = self.set.readings.rule.until() {
                if is_past(&next, last) {
                    return next;
                }
            }
            if !self.left.count_on(&mut self.set.readings.rule) {
                return next;
            }
        }
    }

    /// Returns the first occurrence after an instant, or `None` if the set has no such occurrence.
    /// For 2:30 on two days from 2024-03-30 on in Berlin, 2024-03-31 3:30 +02:00:00 comes after
    /// 2024-03-31 0:00 UTC.
    pub fn next_after(&mut self, moment: OffsetDateTime) -> Option<OffsetDateTime>
        ensures value { IsNextAfter (Occurs self.old) (instant moment) result }
        ensures same { self.new ≡ self.old }
    {
        let zone = self.set.zone;
        self.search(earliest_in(zone, moment), nanoseconds(moment))
    }

    /// Returns the first occurrence that isn't before an instant, or `None` if the set has no such
    /// occurrence. For 2:30 on two days from 2024-03-30 on in Berlin, 2024-03-31 3:30 +02:00:00 is
    /// the first from 2024-03-31 1:30 UTC on.
    pub fn first_from(&mut self, moment: OffsetDateTime) -> Option<OffsetDateTime>
        ensures value { IsNextAfter (Occurs self.old) (instant moment -ℤ pos 1) result }
        ensures same { self.new ≡ self.old }
    {
        let zone = self.set.zone;
        self.search(earliest_in(zone, moment), nanoseconds(moment) - 1)
    }

    /// Returns `true` if an instant is an occurrence. For 2:30 on two days from 2024-03-30 on in
    /// Berlin, 2024-03-31 1:30 UTC is one, and 2024-04-01 0:30 UTC isn't.
    pub fn contains(&mut self, moment: OffsetDateTime) -> bool
        ensures value { IsTrue result ↔ HasInstant self.old (instant moment) }
        ensures same { self.new ≡ self.old }
    {
        is_at(self.first_from(moment), moment)
    }

    /// Returns an iterator over all occurrences, in ascending order, each instant once. For 2:30 on
    /// two days from 2024-03-30 on in Berlin, these are 2024-03-30 2:30 +01:00:00 and 2024-03-31
    /// 3:30 +02:00:00.
    pub fn occurrences(mut self) -> Occurrences<'a>
        ensures set { result.set ≡ self.entry }
        ensures first { IsNextAfter (Occurs self.entry) before_all result.front }
    {
        let front = self.first_from(first_moment());
        Occurrences { set: self, front }
    }

    /// Returns an iterator over the occurrences after an instant, in ascending order, each instant
    /// once. It doesn't go through the occurrences before it. For 2:30 on two days from 2024-03-30
    /// on in Berlin, only 2024-03-31 3:30 +02:00:00 comes after 2024-03-30 12:00 UTC.
    pub fn occurrences_after(mut self, moment: OffsetDateTime) -> Occurrences<'a>
        ensures set { result.set ≡ self.entry }
        ensures first { IsNextAfter (Occurs self.entry) (instant moment) result.front }
    {
        let front = self.next_after(moment);
        Occurrences { set: self, front }
    }
}
