//! The instants at which clocks show a reading.
ghost use Rattle.std.specs.Prelude.{◌≡◌};
ghost use Rattle.cal_zone.specs.Policy.{instant_by};
ghost use Rattle.cal_zone.specs.Timeline.{IsMoment};

use crate::{LocalTimeError, Policy};

/// The instants at which the clocks of a zone show a reading, as Unix times in seconds: one, none
/// or two.
#[derive(Clone, Copy, Debug, PartialEq, Eq)]
pub enum Instants {
    /// The clocks show it once, at this Unix time.
    Single(i64),
    /// The clocks skip it. At the Unix time `at` they go forward from the offset `before` to the
    /// offset `after`, in seconds.
    Gap { at: i64, before: i32, after: i32 },
    /// The clocks show it at two Unix times, since they go back in between.
    Fold { earlier: i64, later: i64 },
}

impl Instants {
    /// Returns the Unix time that their reading means by a policy. The reading is in seconds.
    ///
    /// # Errors
    ///
    /// Returns `Skipped` or `Repeated` by [`Policy::Reject`] in a gap or in a fold.
    pub fn select(self, reading: i64, policy: Policy) -> Result<i64, LocalTimeError>
        requires { IsMoment reading }
        ensures { result ≡ instant_by policy reading self }
    {
        match self {
            Instants::Single(instant) => Ok(instant),
            Instants::Gap { before, after, .. } => match policy {
                Policy::Compatible | Policy::Later => Ok(reading - i64::from(before)),
                Policy::Earlier => Ok(reading - i64::from(after)),
                Policy::Reject => Err(LocalTimeError::Skipped),
            },
            Instants::Fold { earlier, later } => match policy {
                Policy::Compatible | Policy::Earlier => Ok(earlier),
                Policy::Later => Ok(later),
                Policy::Reject => Err(LocalTimeError::Repeated),
            },
        }
    }
}
