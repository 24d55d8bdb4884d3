//! Constructors of moments, and other offsets.
ghost use Rattle.std.specs.Prelude.{◌≡◌};
ghost use Rattle.cal_time.specs.Time.{IsTime};
ghost use Rattle.cal_time.specs.UtcOffset.{IsOffset};
ghost use Rattle.cal_datetime.specs.OffsetDateTime.{instant, local_at};
ghost use Rattle.cal_c.specs.Moments.{IsMoment, IsMomentOrError, local_in, moment_ok, moment_error, local_and_offset_in};
ghost use Rattle.cal_c.specs.Values.{need◌else◌then◌, IsJulianDay, moment_of};

use crate::moment::valid_moment;
use crate::results::{Moment, MomentResult};
use crate::status::{
    INVALID_DATE, INVALID_MOMENT, INVALID_OFFSET, INVALID_TIME, RESULT_OUT_OF_RANGE,
};
use crate::values::{valid_date, valid_offset, valid_time};
use cal_datetime::OffsetDateTime;
use cal_time::UtcOffset;

/// Creates a moment from a local date, a local time of day and an offset. 2460370, 86399250000000
/// and 3600 give 2024-02-29 23:59:59.25 +01:00.
#[unsafe(no_mangle)]
pub extern "C" fn fots_moment_new(date: i32, time: u64, offset: i32) -> MomentResult
    ensures invalid_date { ¬ IsJulianDay date → result ≡ moment_error INVALID_DATE }
    ensures invalid_time { IsJulianDay date → ¬ IsTime time → result ≡ moment_error INVALID_TIME }
    ensures invalid_offset { IsJulianDay date → IsTime time → ¬ IsOffset offset
        → result ≡ moment_error INVALID_OFFSET }
    ensures value { IsJulianDay date → IsTime time → IsOffset offset
        → result ≡ moment_ok (moment_of date time offset) }
{
    let date = or_error!(MomentResult, valid_date(date), INVALID_DATE);
    let time = or_error!(MomentResult, valid_time(time), INVALID_TIME);
    let offset = or_error!(MomentResult, valid_offset(offset), INVALID_OFFSET);
    MomentResult::ok(OffsetDateTime::new_in_offset(date, time, offset))
}

/// Converts to another offset, at the same instant. Fails if the local result is out of range. At
/// UTC, 2024-02-29 23:59:59.25 +01:00 is 22:59:59.25.
#[unsafe(no_mangle)]
pub extern "C" fn fots_moment_to_offset(moment: Moment, offset: i32) -> MomentResult
    ensures { need IsMoment moment else result ≡ moment_error INVALID_MOMENT then
        need IsOffset offset else result ≡ moment_error INVALID_OFFSET then
        IsMomentOrError RESULT_OUT_OF_RANGE (local_at (instant (local_and_offset_in moment)) offset) offset result }
{
    let moment = or_error!(MomentResult, valid_moment(moment), INVALID_MOMENT);
    let offset = or_error!(MomentResult, valid_offset(offset), INVALID_OFFSET);
    at_offset(moment, offset)
}

/// Converts a moment to another offset.
fn at_offset(moment: OffsetDateTime, offset: UtcOffset) -> MomentResult
    ensures { IsMomentOrError RESULT_OUT_OF_RANGE (local_at (instant moment) offset) offset result }
{
    let shown = or_return!(
        moment.checked_to_offset(offset),
        MomentResult::error(RESULT_OUT_OF_RANGE)
    );
    MomentResult::ok(shown)
}

/// Replaces the offset and keeps the local date and time of day. 2024-02-29 23:59 +01:00 at the
/// offset 0 is 23:59 at UTC, an hour later.
#[unsafe(no_mangle)]
pub extern "C" fn fots_moment_replace_offset(moment: Moment, offset: i32) -> MomentResult
    ensures { need IsMoment moment else result ≡ moment_error INVALID_MOMENT then
        need IsOffset offset else result ≡ moment_error INVALID_OFFSET then
        result ≡ moment_ok (record { local = local_in moment; offset = offset }) }
{
    let moment = or_error!(MomentResult, valid_moment(moment), INVALID_MOMENT);
    let offset = or_error!(MomentResult, valid_offset(offset), INVALID_OFFSET);
    MomentResult::ok(moment.replace_offset(offset))
}
