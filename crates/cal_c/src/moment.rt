//! Moments: a date and a time of day at an offset from UTC.
ghost use Rattle.std.specs.Prelude.{SomeIff};
ghost use Rattle.cal_c.specs.Moments.{IsMoment, local_and_offset_in};

use crate::day_number::is_julian_day;
use crate::results::Moment;
use crate::values::{valid_date, valid_offset, valid_time};
use cal_datetime::OffsetDateTime;
use cal_time::Time;

mod arithmetic;
mod constructors;
mod unix;

/// Returns the moment of three numbers, or `None` if one of them is invalid.
pub fn valid_moment(moment: Moment) -> Option<OffsetDateTime>
    ensures { SomeIff result (IsMoment moment) (local_and_offset_in moment) }
{
    let date = valid_date(moment.date)?;
    let time = valid_time(moment.time)?;
    let offset = valid_offset(moment.offset)?;
    Some(OffsetDateTime::new_in_offset(date, time, offset))
}

/// Returns the time of day of a moment, or `None` if one of its three numbers is invalid.
fn valid_time_of(moment: Moment) -> Option<Time>
    ensures { SomeIff result (IsMoment moment) moment.time }
{
    if !is_julian_day(moment.date) {
        return None;
    }
    let time = valid_time(moment.time)?;
    let _ = valid_offset(moment.offset)?;
    Some(time)
}
