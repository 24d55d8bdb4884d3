//! The start of a day in a zone.
ghost use Rattle.std.specs.Prelude.{ℤ, ◌≤ℤ◌, IfSome};
ghost use Rattle.cal_datetime.specs.DateTime.{date_time};
ghost use Rattle.cal_zoned.specs.Day.{IsStart};
ghost use Rattle.cal_zoned.specs.Zoned.{reading_at};

use crate::ZonedDateTime;
use cal_datetime::PlainDateTime;
use cal_time::{Date, Time};
use cal_zone::laws::in_order;
use cal_zone::{Local, Zone};

/// Returns the first instant at which the clocks of a zone have reached a date. Where they skip
/// midnight it is the end of the gap, and for a date that they skip it is the first instant after
/// it, so the lengths of the days add up. In Toronto 1919-03-31 starts at 0:30.
///
/// Returns `None` if what the clocks show then is out of range.
pub fn start_of_day<'z>(date: Date, zone: &'z Zone<'z>) -> Option<ZonedDateTime<'z>>
    ensures start { IsStart zone.now (date_time date 0) result }
    ensures least { IfSome result (λ r. (y : ℤ) → date_time date 0 ≤ℤ reading_at zone.now y
        → r.moment.local ≤ℤ reading_at zone.now y) }
{
    // It states that the changes are in order.
    in_order(zone);
    match zone.resolve(PlainDateTime::new(date, Time::MIDNIGHT)) {
        Local::Single(moment) => Some(ZonedDateTime { zone, moment }),
        Local::Gap(gap) => {
            ZonedDateTime::from_unix_timestamp_nanos(i128::from(gap.at()) * 1_000_000_000, zone)
        }
        Local::Fold { earlier, .. } => Some(ZonedDateTime {
            zone,
            moment: earlier,
        }),
    }
}
