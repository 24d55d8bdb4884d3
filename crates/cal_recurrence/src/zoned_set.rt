//! Recurrence sets in a time zone.
ghost use Rattle.std.specs.Prelude.{◌≡◌, ◌↔◌, ◌+◌, ℤ, true, pos, ◌+ℤ◌, ◌-ℤ◌, ◌<ℤ◌, ◌⊎◌, unsigned_abs, None, IsTrue, MatchOption, SomeIff, option_map};
ghost use Rattle.cal_time.specs.UtcOffset.{IsOffset};
ghost use Rattle.cal_datetime.specs.OffsetDateTime.{instant, unix_epoch, unix_nanoseconds, IsInstant};
ghost use Rattle.cal_recurrence.specs.DateTimeRule.{is_not_after};
ghost use Rattle.cal_recurrence.specs.DateTimeSet.{candidates};
ghost use Rattle.cal_recurrence.specs.OffsetRange.{IsSettled, IsStart};
ghost use Rattle.cal_recurrence.specs.ZonedSet.{is_kept, is_selected, HasInstant, IsListed, IsNextAfter, IsNextCandidate, IsPast, Means, MeansAt, NoReading, Occurs};
ghost use Rattle.cal_recurrence.specs.declared.zoned_set.ZonedSet.{ZonedSet};

use crate::date_time_set::DateTimeSet;
use crate::nearest::nearest;
use crate::offset_range::is_settled;
use crate::reach::{earlier, is_past};
use cal_datetime::{OffsetDateTime, PlainDateTime};
use cal_zone::Zone;
use cal_zone::laws::one_local;

/// A recurrence set in a time zone, as in RFC 5545. Each reading of the set means an instant: a
/// reading in a gap is taken at the offset before the gap, and a reading in a fold is the earlier
/// one. Other instants are returned as they are in their list, unless a reading means the same
/// instant. The lists can be in any order.
///
/// A count (`COUNT`) and exceptions without a zone go by the readings, and belong to the set of
/// readings. `counted` returns the set with its searches.
#[derive(Debug, Drop)]
pub struct ZonedSet<'a> {
    /// The readings (`DTSTART`, `RRULE`, `RDATE` and `EXDATE` with local times).
    pub readings: DateTimeSet<'a>,
    /// The zone (`TZID`).
    pub zone: &'a Zone<'a>,
    /// The last possible instant of the rule (`UNTIL` in UTC). `RDATE` can have later ones.
    pub until: Option<OffsetDateTime>,
    /// The other instants (`RDATE` in UTC).
    pub instants: &'a [OffsetDateTime],
    /// The instants to leave out (`EXDATE` in UTC).
    pub exceptions: &'a [OffsetDateTime],
}

/// Returns the nanoseconds from 1970-01-01 0:00 UTC to a moment.
pub(crate) fn nanoseconds(moment: OffsetDateTime) -> i128
    ensures value { result ≡ unix_nanoseconds (instant moment) }
    ensures range { IsInstant (instant moment) }
    ensures offset { IsOffset moment.offset }
{
    // These calls state that the parts are in range. They cost nothing.
    let _ = moment.local();
    let _ = moment.offset();
    moment.unix_timestamp_nanos()
}

/// Returns `true` if a moment isn't after the last one, if there is one.
fn is_not_after(last: Option<OffsetDateTime>, moment: OffsetDateTime) -> bool
    ensures { result ≡ is_not_after (option_map instant last) (instant moment) }
{
    match last {
        Some(one) => moment <= one,
        None => true,
    }
}

/// Returns a reading, or `None` if it is past a moment.
fn up_to(moment: &Option<OffsetDateTime>, reading: Option<PlainDateTime>) -> Option<PlainDateTime>
    ensures { (result ≡ reading) ⊎ (IsPast moment.now reading × (result ≡ None)) }
{
    match reading {
        Some(one) if is_past(moment, one) => None,
        _ => reading,
    }
}

/// Returns `true` if the first occurrence from an instant on is at this instant.
pub(crate) fn is_at(first: Option<OffsetDateTime>, moment: OffsetDateTime) -> bool
    ensures { (set : ZonedSet) → IsNextAfter (Occurs set) (instant moment -ℤ pos 1) first
        → (IsTrue result ↔ HasInstant set (instant moment)) }
{
    match first {
        Some(one) => one == moment,
        None => false,
    }
}

impl<'a> ZonedSet<'a> {
    /// Returns `true` if a moment isn't an exception.
    fn is_kept(&self, moment: OffsetDateTime) -> bool
        ensures { result ≡ is_kept self.now (instant moment) }
    {
        !self.exceptions.contains(&moment)
    }

    /// Returns `true` if a candidate and the moment that it means aren't left out, and the end
    /// allows them.
    #[tactic(auto, unfolding(crate::specs::DateTimeSet::is_in_set))]
    fn is_selected(&self, reading: PlainDateTime, moment: OffsetDateTime) -> bool
        requires { candidates self.now.readings reading ≡ true }
        ensures { result ≡ is_selected self.now reading (instant moment) }
    {
        !self.readings.exceptions.contains(&reading)
            && (is_not_after(self.until, moment) || self.readings.dates.contains(&reading))
            && self.is_kept(moment)
    }

    /// Returns the first candidate after a reading. If it is past the end of the rule, it is one of
    /// the other readings.
    fn next_reading(&self, reading: PlainDateTime) -> Option<PlainDateTime>
        ensures { MatchOption result (NoReading self.now (unsigned_abs reading + 1))
            (IsNextCandidate self.now (unsigned_abs reading + 1)) }
    {
        // These calls state that the readings are in range. They cost nothing.
        let _ = reading.date();
        let found = up_to(&self.until, self.readings.rule.next_after(reading));
        let Some(next) = nearest(true, reading, found, self.readings.dates) else {
            return None;
        };
        let _ = next.date();
        Some(next)
    }

    /// Returns the first candidate after a reading, or `None` if the later ones mean no instants
    /// before a moment.
    fn next_unsettled(
        &self,
        first: &Option<OffsetDateTime>,
        reading: PlainDateTime,
    ) -> Option<PlainDateTime>
        ensures { MatchOption result
            (NoReading self.now (unsigned_abs reading + 1) ⊎ IsSettled self.now.zone.now first.now reading)
            (IsNextCandidate self.now (unsigned_abs reading + 1)) }
    {
        if is_settled(self.zone, first, reading) {
            None
        } else {
            self.next_reading(reading)
        }
    }

    /// Returns the moment that a candidate means, if it is an occurrence and is later than some
    /// nanoseconds after 1970-01-01 0:00 UTC.
    fn moment_after(&self, reading: PlainDateTime, after: i128) -> Option<OffsetDateTime>
        requires { candidates self.now.readings reading ≡ true }
        ensures { IsNextAfter (MeansAt self.now reading) (unix_epoch +ℤ after) result }
    {
        let _ = reading.date();
        one_local(self.zone);
        let Some(moment) = self.zone.resolve(reading).compatible() else {
            return None;
        };
        if after < nanoseconds(moment) && self.is_selected(reading, moment) {
            Some(moment)
        } else {
            None
        }
    }

    /// Returns the first moment that a reading means, if it is later than some nanoseconds after
    /// 1970-01-01 0:00 UTC. The readings before `start` can't mean such an instant.
    fn first_meant(&self, start: PlainDateTime, after: i128) -> Option<OffsetDateTime>
        requires { IsStart self.now.zone.now (unix_epoch +ℤ after) start }
        ensures { IsNextAfter (Means self.now) (unix_epoch +ℤ after) result }
    {
        let _ = start.date();
        let Some(reading) = self.readings.first_from(start) else {
            return None;
        };
        let mut last = reading;
        let mut first = self.moment_after(last, after);
        while let Some(next) = self.next_unsettled(&first, last) {
            let moment = self.moment_after(next, after);
            first = earlier(&first, &moment);
            last = next;
        }
        first
    }

    /// Returns a moment if it isn't an exception and is later than some nanoseconds after
    /// 1970-01-01 0:00 UTC.
    fn if_after(&self, moment: OffsetDateTime, after: i128) -> Option<OffsetDateTime>
        ensures value { SomeIff result (((unix_epoch +ℤ after) <ℤ instant moment)
            × (is_kept self.now (instant moment) ≡ true)) moment }
        ensures in_range { IsInstant (instant moment) }
    {
        if after < nanoseconds(moment) && self.is_kept(moment) {
            Some(moment)
        } else {
            None
        }
    }

    /// Returns the first of the other instants that isn't an exception and is later than some
    /// nanoseconds after 1970-01-01 0:00 UTC.
    fn first_listed(&self, after: i128) -> Option<OffsetDateTime>
        ensures { IsNextAfter (IsListed self.now) (unix_epoch +ℤ after) result }
    {
        let mut first = None;
        for moment in self.instants {
            first = earlier(&first, &self.if_after(*moment, after));
        }
        first
    }

    /// Returns the first occurrence that is later than some nanoseconds after 1970-01-01 0:00 UTC.
    /// The readings before `start` can't mean such an instant.
    pub(crate) fn first_after(&self, start: PlainDateTime, after: i128) -> Option<OffsetDateTime>
        requires { IsStart self.now.zone.now (unix_epoch +ℤ after) start }
        ensures { IsNextAfter (Occurs self.now) (unix_epoch +ℤ after) result }
    {
        earlier(&self.first_meant(start, after), &self.first_listed(after))
    }
}
