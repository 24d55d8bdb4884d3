//! The date-times that a reading names in a zone.
ghost use Rattle.std.specs.Prelude.{◌≡◌};
ghost use Rattle.cal_zone.specs.Local.{IsCompatible, IsEarlier, IsLater, reject};
ghost use Rattle.cal_zone.specs.Policy.{moment_by};

use crate::{Gap, LocalTimeError, Policy};
use cal_datetime::OffsetDateTime;

/// The date-times at which the clocks of a zone show a reading: one, none or two.
#[derive(Clone, Copy, Debug, PartialEq, Eq)]
pub enum Local {
    /// The clocks show it once.
    Single(OffsetDateTime),
    /// The clocks skip it.
    Gap(Gap),
    /// The clocks show it twice, since they go back in between.
    Fold {
        earlier: OffsetDateTime,
        later: OffsetDateTime,
    },
}

impl Local {
    /// Returns the date-time that a reading means by a policy.
    ///
    /// # Errors
    ///
    /// Returns `Skipped` or `Repeated` by [`Policy::Reject`] in a gap or in a fold, and
    /// `OutOfRange` if the reading of a gap leaves the range as it moves.
    pub fn select(self, policy: Policy) -> Result<OffsetDateTime, LocalTimeError>
        ensures { result ≡ moment_by policy self }
    {
        match self {
            Local::Single(moment) => Ok(moment),
            Local::Gap(gap) => gap.select(policy),
            Local::Fold { earlier, later } => match policy {
                Policy::Compatible | Policy::Earlier => Ok(earlier),
                Policy::Later => Ok(later),
                Policy::Reject => Err(LocalTimeError::Repeated),
            },
        }
    }

    /// Returns the date-time that RFC 5545 and most calendars mean. A reading in a gap moves
    /// forward by the length of the gap, and in a fold the earlier date-time is meant. Returns
    /// `None` if the result is out of range. In Berlin 2024-03-31 2:30 becomes 3:30 +02:00:00, and
    /// 2024-10-27 2:30 becomes 2:30 +02:00:00.
    pub fn compatible(self) -> Option<OffsetDateTime>
        ensures { IsCompatible self result }
    {
        self.select(Policy::Compatible).ok()
    }

    /// Returns the earlier date-time. A reading in a gap moves back by the length of the gap.
    /// Returns `None` if the result is out of range. In Berlin 2024-03-31 2:30 becomes 1:30
    /// +01:00:00.
    pub fn earlier(self) -> Option<OffsetDateTime>
        ensures { IsEarlier self result }
    {
        self.select(Policy::Earlier).ok()
    }

    /// Returns the later date-time. A reading in a gap moves forward by the length of the gap.
    /// Returns `None` if the result is out of range. In Berlin 2024-10-27 2:30 becomes 2:30
    /// +01:00:00.
    pub fn later(self) -> Option<OffsetDateTime>
        ensures { IsLater self result }
    {
        self.select(Policy::Later).ok()
    }

    /// Returns the date-time if the clocks show the reading exactly once, and `None` otherwise.
    pub fn reject(self) -> Option<OffsetDateTime>
        ensures { result ≡ reject self }
    {
        self.select(Policy::Reject).ok()
    }
}
