//! The day of a date-time in a zone.
ghost use Rattle.std.specs.Prelude.{◌≡◌, IfNone, IfSome};
ghost use Rattle.cal_datetime.specs.DateTime.{date_at, date_time};
ghost use Rattle.cal_zoned.specs.Day.{HasDayLength, IsDayLength, IsStart};

use crate::{ZonedDateTime, start_of_day, unchecked};
use cal_time::SignedDuration;

impl<'z> ZonedDateTime<'z> {
    /// Returns the start of the day, as [`start_of_day`] does.
    pub fn start_of_day(&self) -> Option<Self>
        ensures start { IsStart self.now.zone (date_time (date_at self.now.moment.local) 0) result }
        ensures date { IfSome result (λ r.
            date_at r.moment.local ≡ date_at self.now.moment.local) }
    {
        start_of_day(self.local().date(), self.zone)
    }

    /// Returns the length of the day, from its start to the start of the next day. In Berlin it is
    /// 23 hours for 2024-03-31, and 25 hours for 2024-10-27. Returns `None` if one of the two starts
    /// is out of range, as for the last date.
    pub fn day_length(&self) -> Option<SignedDuration>
        ensures value { IfSome result (IsDayLength self.now.zone (date_at self.now.moment.local)) }
        ensures none { IfNone result (¬ (HasDayLength self.now.zone (date_at self.now.moment.local))) }
    {
        unchecked::day_length(self.date(), self.zone.as_unchecked())
    }
}
