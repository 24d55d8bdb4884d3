//! Date-times in a zone with another date, another time or a period later.
ghost use Rattle.cal_datetime.specs.DateTime.{with_date, with_time};
ghost use Rattle.cal_zoned.specs.Moves.{IsMovedTo};
ghost use Rattle.cal_zoned.specs.Period.{IsNthPeriodLater, IsPeriodLater};
ghost use Rattle.cal_zoned.specs.Resolved.{IsKept};

use crate::ZonedDateTime;
use crate::unchecked::{kept, moved_to, nth_later, period_later};
use crate::zoned_date_time::shown_in;
use cal_datetime::PlainDateTime;
use cal_schedule::Period;
use cal_time::{Date, Time};
use cal_zone::{LocalTimeError, Policy};

impl<'z> ZonedDateTime<'z> {
    /// Moves to a local date-time in the same zone. Keeps the offset if the clocks show the local
    /// date-time at it, and otherwise goes by the policy, as [`ZonedDateTime::from_local`] does.
    ///
    /// # Errors
    ///
    /// Returns the errors of [`ZonedDateTime::from_local`].
    pub fn with_local(&self, reading: PlainDateTime, policy: Policy) -> Result<Self, LocalTimeError>
        ensures { IsKept policy self.now reading result }
    {
        let zone = self.zone.as_unchecked();
        shown_in(self.zone, kept(self.moment, reading, zone, policy))
    }

    /// Replaces the time of day that the clocks show, as [`ZonedDateTime::with_local`] does. In
    /// Berlin 2024-10-27 2:30 +01:00:00 with the time 2:45 is 2:45 +01:00:00 by each policy.
    ///
    /// # Errors
    ///
    /// Returns the errors of [`ZonedDateTime::from_local`].
    pub fn with_time(&self, time: Time, policy: Policy) -> Result<Self, LocalTimeError>
        ensures { IsKept policy self.now (with_time self.now.moment.local time) result }
    {
        self.with_local(self.local().replace_time(time), policy)
    }

    /// Replaces the date that the clocks show, as [`ZonedDateTime::with_local`] does. In Berlin
    /// 2024-03-30 2:30 with the date 2024-03-31 is 3:30 +02:00:00 by [`Policy::Compatible`].
    ///
    /// # Errors
    ///
    /// Returns the errors of [`ZonedDateTime::from_local`].
    pub fn with_date(&self, date: Date, policy: Policy) -> Result<Self, LocalTimeError>
        ensures { IsKept policy self.now (with_date self.now.moment.local date) result }
    {
        self.with_local(self.local().replace_date(date), policy)
    }

    /// Moves to another date by the calendar, such as the next Friday or the next working day. The
    /// time of day stays, and the policy says what it means on the new date. Moved to its own date,
    /// the date-time stays as it is, also in the second half of a fold.
    ///
    /// In Berlin 2024-03-30 2:30 moved to 2024-03-31 is 3:30 +02:00:00 by [`Policy::Compatible`].
    ///
    /// # Errors
    ///
    /// Returns the errors of [`ZonedDateTime::from_local`].
    pub fn moved_to(&self, date: Date, policy: Policy) -> Result<Self, LocalTimeError>
        ensures { IsMovedTo policy self.now date result }
    {
        let zone = self.zone.as_unchecked();
        shown_in(self.zone, moved_to(self.moment, date, zone, policy))
    }

    /// Adds a period. The years and the months move the date that the clocks show, then the weeks
    /// and the days, as [`cal_schedule::checked_add_period`] does; the time of day stays, and the
    /// policy says what it means on the new date. Then the duration moves the instant. A period
    /// without years, months, weeks and days only moves the instant.
    ///
    /// In Berlin a month after 2024-02-29 2:30 is 2024-03-29 2:30, and a day after 2024-03-30 2:30
    /// is 2024-03-31 3:30 +02:00:00 by [`Policy::Compatible`].
    ///
    /// # Errors
    ///
    /// Returns the errors of [`ZonedDateTime::from_local`], and `OutOfRange` if the date or the
    /// result is out of range.
    pub fn checked_add_period(&self, period: Period, policy: Policy) -> Result<Self, LocalTimeError>
        ensures { IsPeriodLater policy self.now period result }
    {
        let zone = self.zone.as_unchecked();
        shown_in(self.zone, period_later(self.moment, period, zone, policy))
    }

    /// Adds a period `n` times at once, as [`ZonedDateTime::checked_add_period`] adds it once: `n`
    /// times its years and months, then `n` times its weeks and days, and then `n` times its
    /// duration. Count each step from the start, so that none drifts: in Berlin the steps 1 to 3 of
    /// a month from 2024-01-31 2:30 are 29 February 2:30, 31 March 3:30 by [`Policy::Compatible`],
    /// and 30 April 2:30.
    ///
    /// # Errors
    ///
    /// Returns the errors of [`ZonedDateTime::checked_add_period`].
    pub fn nth_period(&self, period: Period, n: i32, policy: Policy) -> Result<Self, LocalTimeError>
        ensures { IsNthPeriodLater policy self.now period n result }
    {
        let zone = self.zone.as_unchecked();
        shown_in(self.zone, nth_later(self.moment, period, n, zone, policy))
    }
}
