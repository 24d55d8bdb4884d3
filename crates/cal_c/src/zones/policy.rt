//! The numbers of policies, and the statuses of readings that mean nothing.
ghost use Rattle.std.specs.Prelude.{◌≡◌, MatchOption};
ghost use Rattle.cal_c.specs.Zones.{local_time_status, policy_number, IsPolicy};

use crate::status::{REPEATED_TIME, RESULT_OUT_OF_RANGE, SKIPPED_TIME};
use cal_zone::{LocalTimeError, Policy};

/// Returns the policy with a number, from 0 for `Compatible`, or `None`.
pub fn valid_policy(number: u32) -> Option<Policy>
    ensures { MatchOption result (¬ IsPolicy number)
        (λ found. IsPolicy number × (policy_number found ≡ number)) }
{
    match number {
        0 => Some(Policy::Compatible),
        1 => Some(Policy::Earlier),
        2 => Some(Policy::Later),
        3 => Some(Policy::Reject),
        _ => None,
    }
}

/// Returns the status of an error.
pub fn local_time_status(error: LocalTimeError) -> i32
    ensures { result ≡ local_time_status error }
{
    match error {
        LocalTimeError::Skipped => SKIPPED_TIME,
        LocalTimeError::Repeated => REPEATED_TIME,
        LocalTimeError::OutOfRange => RESULT_OUT_OF_RANGE,
    }
}
