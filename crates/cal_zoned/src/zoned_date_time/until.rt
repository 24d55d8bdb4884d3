//! The period between two date-times in a zone.
ghost use Rattle.std.specs.Prelude.{IfNone, IfSome};
ghost use Rattle.cal_datetime.specs.DateTime.{IsDateTime};
ghost use Rattle.cal_zoned.specs.Until.{IsUntilInZone};
ghost use Rattle.cal_zoned.specs.Zoned.{at_instant, instant_in, reading_at};

use crate::ZonedDateTime;
use crate::unchecked::period_between;
use cal_schedule::{CalendarUnit, Period};
use cal_zone::Policy;

impl<'z> ZonedDateTime<'z> {
    /// Returns the period to another date-time, with `largest` as the largest unit of its parts. It
    /// counts the whole units up to the last day on which the time of day, resolved by the policy,
    /// isn't past `to`, and then the exact rest. Adding the period with the same policy gives the
    /// instant of `to`.
    ///
    /// In Berlin 2024-03-31 13:00 +02:00:00 is 24 hours after 2024-03-30 12:00 +01:00:00. By
    /// [`CalendarUnit::Day`] it is a day and an hour.
    ///
    /// Returns `None` if what the clocks of this zone show at the instant of `to` is out of range.
    pub fn period_until(
        &self,
        to: &ZonedDateTime<'_>,
        largest: CalendarUnit,
        policy: Policy,
    ) -> Option<Period>
        ensures value { IfSome result (IsUntilInZone policy largest self.now
            (at_instant self.now.zone (instant_in to.now))) }
        ensures some { IfSome result
            (λ _. IsDateTime (reading_at self.now.zone (instant_in to.now))) }
        ensures none { IfNone result
            (¬ IsDateTime (reading_at self.now.zone (instant_in to.now))) }
    {
        let to = to.in_zone(self.zone)?;
        let zone = self.zone.as_unchecked();
        Some(period_between(self.moment, to.moment, largest, zone, policy))
    }
}
