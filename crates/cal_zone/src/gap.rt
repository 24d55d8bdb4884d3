//! Gaps.
ghost use Rattle.std.specs.Prelude.{◌≡◌, ℤ, pos, ◌+ℤ◌, ◌-ℤ◌, ◌*ℤ◌, Some, SomeIff};
ghost use Rattle.cal_time.specs.SignedDuration.{second};
ghost use Rattle.cal_datetime.specs.DateTime.{IsDateTime};
ghost use Rattle.cal_datetime.specs.OffsetDateTime.{unix_epoch};
ghost use Rattle.cal_zone.specs.Local.{moved_back, moved_forward};
ghost use Rattle.cal_zone.specs.Policy.{in_gap, in_range};

use crate::{LocalTimeError, Policy};
use cal_datetime::{OffsetDateTime, PlainDateTime};
use cal_time::{SignedDuration, UtcOffset};

/// A reading that the clocks of a zone skip: they go forward over it, from one offset to another,
/// such as 2024-03-31 2:30 in Berlin.
#[derive(Clone, Copy, Debug, PartialEq, Eq)]
pub struct Gap {
    pub(crate) reading: PlainDateTime,
    pub(crate) at: i64,
    pub(crate) before: UtcOffset,
    pub(crate) after: UtcOffset,
}

/// Returns what clocks at an offset show at a Unix time, or `None` if it is out of range.
pub(crate) fn local_date_time(at: i64, offset: UtcOffset) -> Option<PlainDateTime>
    ensures { let local = unix_epoch +ℤ (at +ℤ offset) *ℤ pos second
        in SomeIff result (IsDateTime local) local }
{
    let seconds = at.checked_add(i64::from(offset.whole_seconds()))?;
    OffsetDateTime::unix_epoch()
        .local()
        .checked_add(SignedDuration::seconds(seconds))
}

impl Gap {
    /// Returns the Unix time at which the clocks go forward, in seconds. For 2024-03-31 2:30 in
    /// Berlin it is 1711846800.
    pub fn at(self) -> i64
        ensures { result ≡ self.at }
    {
        self.at
    }

    /// Returns the offset before the gap. For 2024-03-31 2:30 in Berlin it is +01:00:00.
    pub fn offset_before(self) -> UtcOffset
        ensures { result ≡ self.before }
    {
        self.before
    }

    /// Returns the offset after the gap. For 2024-03-31 2:30 in Berlin it is +02:00:00.
    pub fn offset_after(self) -> UtcOffset
        ensures { result ≡ self.after }
    {
        self.after
    }

    /// Returns the first reading that is skipped, or `None` if it is out of range. For 2024-03-31
    /// 2:30 in Berlin it is 2:00.
    pub fn start(self) -> Option<PlainDateTime>
        ensures { let local = unix_epoch +ℤ (self.at +ℤ self.before) *ℤ pos second
            in SomeIff result (IsDateTime local) local }
    {
        local_date_time(self.at, self.before)
    }

    /// Returns the first reading after the gap, or `None` if it is out of range. For 2024-03-31
    /// 2:30 in Berlin it is 3:00.
    pub fn end(self) -> Option<PlainDateTime>
        ensures { let local = unix_epoch +ℤ (self.at +ℤ self.after) *ℤ pos second
            in SomeIff result (IsDateTime local) local }
    {
        local_date_time(self.at, self.after)
    }

    /// Returns the reading moved back by the length of the gap, at the offset before it. Returns
    /// `None` if the result is out of range. For 2024-03-31 2:30 in Berlin it is 1:30 +01:00:00.
    pub fn earlier(self) -> Option<OffsetDateTime>
        ensures { let local = self.reading -ℤ (self.after -ℤ self.before) *ℤ pos second
            in SomeIff result (IsDateTime local) (record { local = local; offset = self.before }) }
    {
        self.reading
            .assume_offset(self.after)
            .checked_to_offset(self.before)
    }

    /// Returns the reading moved forward by the length of the gap, at the offset after it. Returns
    /// `None` if the result is out of range. For 2024-03-31 2:30 in Berlin it is 3:30 +02:00:00.
    pub fn later(self) -> Option<OffsetDateTime>
        ensures { let local = self.reading +ℤ (self.after -ℤ self.before) *ℤ pos second
            in SomeIff result (IsDateTime local) (record { local = local; offset = self.after }) }
    {
        self.reading
            .assume_offset(self.before)
            .checked_to_offset(self.after)
    }

    /// Returns the reading moved by a policy, or an error.
    pub(crate) fn select(self, policy: Policy) -> Result<OffsetDateTime, LocalTimeError>
        ensures { result ≡ in_gap policy (in_range (moved_back self)) (in_range (moved_forward self)) }
    {
        let moved = match policy {
            Policy::Compatible | Policy::Later => self.later(),
            Policy::Earlier => self.earlier(),
            Policy::Reject => return Err(LocalTimeError::Skipped),
        };
        moved.ok_or(LocalTimeError::OutOfRange)
    }
}
