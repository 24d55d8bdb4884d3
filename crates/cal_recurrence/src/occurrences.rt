//! The iterator over the occurrences of a set in a zone.
use crate::counted_zoned_set::CountedZonedSet;
use cal_datetime::OffsetDateTime;
use std::marker::Model;

/// An iterator over the occurrences of a set in a zone, in ascending order, each instant once.
/// Contracts see the set and the next occurrence.
#[derive(Debug, Drop)]
pub struct Occurrences<'a> {
    pub(crate) set: CountedZonedSet<'a>,
    pub(crate) front: Option<OffsetDateTime>,
}

impl<'a> Model for Occurrences<'a> {
    ghost use Rattle.cal_recurrence.specs.Occurrences.{OccurrencesLeft};

    ghost Value = { OccurrencesLeft };

    ghost view = { λ walk. record { set = walk.set; front = walk.front } };
}

impl Iterator for Occurrences<'_> {
    type Item = OffsetDateTime;

    ghost use Rattle.std.specs.Iterator.{at_most};
    ghost use Rattle.cal_recurrence.specs.Occurrences.{nanoseconds_left, YieldsNext};

    ghost next_gives = { YieldsNext };

    ghost remaining = { λ walk. at_most (nanoseconds_left walk.front) };

    /// Returns the next occurrence, or `None` after the last one.
    fn next(&mut self) -> Option<OffsetDateTime> {
        let item = self.front?;
        self.front = self.set.next_after(item);
        Some(item)
    }
}
