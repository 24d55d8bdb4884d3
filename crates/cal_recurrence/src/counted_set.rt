//! Recurrence sets whose `COUNT` is counted only as far as a search needs.
ghost use Rattle.std.specs.Prelude.{◌≡◌, ℤ, pos, slice_get};
ghost use Rattle.cal_recurrence.specs.CountedSet.{first_number};
ghost use Rattle.cal_recurrence.specs.Cursors.{resumed_rule};
ghost use Rattle.cal_recurrence.specs.DateTimeRule.{readings_from};
ghost use Rattle.cal_recurrence.specs.DateTimeSet.{is_in_set, set_readings_after, set_readings_from};
ghost use Rattle.cal_recurrence.specs.SetMeaning.{counted_rule};
ghost use Rattle.cal_recurrence.specs.declared.reading_cursor.ReadingCursor.{ReadingCursor};
ghost use Rattle.cal_recurrence.specs.declared.recurrence.Recurrence.{Recurrence};

use crate::counting::Uncounted;
use crate::date_time_rule::DateTimeRule;
use crate::date_time_set::{DateTimeSet, DateTimeSetReadings};
use crate::reading_cursor::ReadingCursor;
use crate::recurrence::Recurrence;
use cal_date::day_number::to_date;
use cal_datetime::{PlainDateTime, midnight};
use std::marker::Model;

/// The searches of a recurrence set, with a `COUNT` or without one. A search counts the readings of
/// a `COUNT` from the start, as far as it needs them. Contracts see the set, up to the last reading
/// of the `COUNT`.
#[derive(Debug, Drop)]
pub struct CountedSet<'a> {
    /// The set, whose rule ends at the last reading that was counted.
    set: DateTimeSet<'a>,
    left: Uncounted,
}

impl<'a> Model for CountedSet<'a> {
    ghost use Rattle.std.specs.Prelude.{◌≡◌};
    ghost use Rattle.cal_recurrence.specs.declared.date_time_set.DateTimeSet.{DateTimeSet};

    ghost Value = { DateTimeSet };

    ghost use Rattle.cal_recurrence.specs.CountedSet.{unread, whole_set};

    ghost view = { λ counted. whole_set counted.set counted.left.readings };

    ghost invariant = { λ counted.
        counted.left.readings ≡ unread counted.set.rule counted.left.left };
}

impl Recurrence {
    /// Returns the set of the readings from a start with others (`RDATE`) and without exceptions
    /// (`EXDATE`). For `FREQ=DAILY;COUNT=3` from 2024-01-01 9:00 on without 2024-01-02 9:00, it has
    /// 9:00 on 1 and 3 January 2024.
    pub fn counted_set<'a>(
        &self,
        start: PlainDateTime,
        dates: &'a [PlainDateTime],
        exceptions: &'a [PlainDateTime],
    ) -> CountedSet<'a>
        ensures rule { result.rule ≡ counted_rule self.now start }
        ensures dates { result.dates.now ≡ dates.now }
        ensures exceptions { result.exceptions.now ≡ exceptions.now }
    {
        self.counted_set_at(start, self.reading_cursor(), dates, exceptions)
    }

    /// Returns the set of the readings like `counted_set`, which goes on from a cursor. For
    /// `FREQ=DAILY;COUNT=3` from 2024-01-01 9:00 on, and a cursor with 2 readings left after this
    /// one, it has 9:00 on 1, 2 and 3 January 2024.
    pub fn counted_set_at<'a>(
        &self,
        start: PlainDateTime,
        cursor: ReadingCursor,
        dates: &'a [PlainDateTime],
        exceptions: &'a [PlainDateTime],
    ) -> CountedSet<'a>
        ensures rule { result.rule ≡ resumed_rule self.now start cursor }
        ensures dates { result.dates.now ≡ dates.now }
        ensures exceptions { result.exceptions.now ≡ exceptions.now }
    {
        let (mut rule, left) = self.uncounted(start, cursor);
        if !dates.is_empty() {
            // A search for each of the other readings would search for a day of the rule again.
            rule.settle();
        }
        let set = DateTimeSet {
            rule,
            dates,
            exceptions,
        };
        CountedSet { set, left }
    }
}

impl<'a> DateTimeSet<'a> {
    /// Returns the set with its searches, which have no `COUNT` to count. In the set of 9:00 on every
    /// day without 2024-01-02 9:00, 2024-01-03 9:00 comes after 2024-01-01 9:00.
    pub fn counted(&self) -> CountedSet<'a>
        ensures { result ≡ self.now }
    {
        CountedSet {
            set: self.copy(),
            left: Uncounted::none(&self.rule),
        }
    }
}

impl<'a> CountedSet<'a> {
    /// Returns how far the searches counted, for another set of the same recurrence and start. For
    /// `FREQ=DAILY;COUNT=1000` from 2024-01-01 9:00 on, after a search for the first reading from
    /// 2025-01-01 on, fewer than 700 readings are left.
    pub fn cursor(&self) -> ReadingCursor
        ensures { (its : Recurrence) (start : ℤ) (c : ReadingCursor) → self.now.rule ≡ resumed_rule its start c
            → resumed_rule its start result ≡ self.now.rule }
    {
        self.left.cursor(&self.set.rule)
    }

    /// Returns the first reading of the set after a reading, or from it on.
    fn search(&mut self, reading: PlainDateTime, after: bool) -> Option<PlainDateTime>
        ensures value { result ≡ slice_get (readings_from (is_in_set self.old) (first_number after reading)) 0 }
        ensures same { self.new ≡ self.old }
    {
        self.left.pass_over(&mut self.set.rule, reading);
        loop {
            let found = if after {
                self.set.next_after(reading)
            } else {
                self.set.first_from(reading)
            };
            if let Some(next) = found {
                if self.set.rule.is_not_after(next) {
                    return found;
                }
            }
            if !self.left.count_on(&mut self.set.rule) {
                return found;
            }
        }
    }

    /// Returns the first reading of the set after a reading, or `None` if the range has no such
    /// reading. For 9:00 on three days from 2024-01-01 on, 2024-01-02 9:00 comes after 2024-01-01
    /// 9:00.
    pub fn next_after(&mut self, reading: PlainDateTime) -> Option<PlainDateTime>
        ensures value { result ≡ slice_get (set_readings_after self.old reading) 0 }
        ensures same { self.new ≡ self.old }
    {
        self.search(reading, true)
    }

    /// Returns the first reading of the set that isn't before a reading, or `None` if the range has
    /// no such reading. For 9:00 on three days from 2024-01-01 on, 2024-01-02 9:00 is the first from
    /// 2024-01-01 10:00 on.
    pub fn first_from(&mut self, reading: PlainDateTime) -> Option<PlainDateTime>
        ensures value { result ≡ slice_get (set_readings_from self.old reading) 0 }
        ensures same { self.new ≡ self.old }
    {
        self.search(reading, false)
    }

    /// Returns `true` if a reading is in the set. For 9:00 on three days from 2024-01-01 on,
    /// 2024-01-03 9:00 is in it, and 2024-01-04 9:00 isn't.
    pub fn contains(&mut self, reading: PlainDateTime) -> bool
        ensures value { result ≡ is_in_set self.old reading }
        ensures same { self.new ≡ self.old }
    {
        // This states that the reading is in range. It costs nothing.
        let _ = reading.date();
        match self.first_from(reading) {
            Some(first) => first == reading,
            None => false,
        }
    }

    /// Returns an iterator over all readings of the set, in ascending order, each once. For 9:00 on
    /// three days from 2024-01-01 on, these are 9:00 on 1, 2 and 3 January.
    pub fn readings(self) -> DateTimeSetReadings<'a>
        ensures { result ≡ set_readings_from self.entry (pos 0) }
    {
        // The first reading of the range.
        self.readings_from(midnight(to_date(0)))
    }

    /// Returns an iterator over the readings of the set from a reading on, in ascending order, each
    /// once. For 9:00 on three days from 2024-01-01 on, only 2024-01-03 9:00 is left from 2024-01-02
    /// 10:00 on.
    pub fn readings_from(mut self, reading: PlainDateTime) -> DateTimeSetReadings<'a>
        ensures { result ≡ set_readings_from self.entry reading }
    {
        let front = self.first_from(reading);
        DateTimeSetReadings { set: self, front }
    }
}
