//! The changes of a zone's clocks.
ghost use Rattle.std.specs.Prelude.{◌≡◌};
ghost use Rattle.cal_c.specs.Results.{int64_error};
ghost use Rattle.cal_c.specs.Zones.{IsForZone, IsNextResult, IsPreviousResult};

use crate::results::Int64Result;
use crate::status::{INVALID_ZONE, RESULT_OUT_OF_RANGE};
use crate::zones::checked_zone::CheckedZone;

/// Returns the Unix time of the first change after a Unix time in seconds. Fails if no change comes
/// after it. In Berlin it is 1711846800 after 1700000000.
#[unsafe(no_mangle)]
pub extern "C" fn fots_zone_next_change(zone: &CheckedZone<'_>, seconds: i64) -> Int64Result
    ensures { IsForZone zone.now (λ z. IsNextResult z seconds result)
        (result ≡ int64_error INVALID_ZONE) }
{
    let zone = or_error!(Int64Result, zone.unchecked(), INVALID_ZONE);
    match zone.next_change(seconds) {
        Some(change) => Int64Result::ok(change.at),
        None => Int64Result::error(RESULT_OUT_OF_RANGE),
    }
}

/// Returns the Unix time of the last change that is not after a Unix time in seconds. Fails if all
/// changes come after it. In Berlin it is 1711846800 for 1711846800.
#[unsafe(no_mangle)]
pub extern "C" fn fots_zone_previous_change(zone: &CheckedZone<'_>, seconds: i64) -> Int64Result
    ensures { IsForZone zone.now (λ z. IsPreviousResult z seconds result)
        (result ≡ int64_error INVALID_ZONE) }
{
    let zone = or_error!(Int64Result, zone.unchecked(), INVALID_ZONE);
    match zone.previous_change(seconds) {
        Some(change) => Int64Result::ok(change.at),
        None => Int64Result::error(RESULT_OUT_OF_RANGE),
    }
}
