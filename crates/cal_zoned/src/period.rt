//! Periods after local date-times.
ghost use Rattle.std.specs.Prelude.{◌≡◌, ℕ, ℤ, Some, IfSome};
ghost use Rattle.cal_time.specs.Date.{IsDate};
ghost use Rattle.cal_datetime.specs.DateTime.{IsDateTime};
ghost use Rattle.cal_schedule.specs.Period.{days_of, months_of, IsDaysLater};
ghost use Rattle.cal_zoned.specs.Period.{IsLater, IsNthLater};

use cal_datetime::PlainDateTime;
use cal_schedule::{Period, date_after, nth_date};

/// Adds a period to a local date-time: its years and months and then its weeks and days to the
/// date, as [`cal_schedule::checked_add_period`] does, and then its duration. Returns `None` if the
/// result is out of range.
pub fn checked_add_period(start: PlainDateTime, period: Period) -> Option<PlainDateTime>
    ensures every { (r : ℤ) → IsDateTime r → IsLater start period r → result ≡ Some r }
    ensures value { IfSome result (λ r. IsDateTime r × IsLater start period r) }
{
    let date = date_after(start.date(), period)?;
    start.replace_date(date).checked_add(period.duration())
}

/// Adds a period `n` times at once to a local date-time: `n` times its years and months, then `n`
/// times its weeks and days, and then `n` times its duration. Steps of a month from 2024-01-31 8:00
/// are 29 February 8:00, 31 March 8:00 and 30 April 8:00, without a drift. Returns `None` if the
/// result is out of range.
pub fn nth_period(start: PlainDateTime, period: Period, n: i32) -> Option<PlainDateTime>
    ensures every { (r : ℤ) → IsDateTime r → IsNthLater start period n r → result ≡ Some r }
    ensures value { IfSome result (λ r. IsDateTime r × IsNthLater start period n r) }
{
    let date = nth_date(start.date(), period, n)?;
    let duration = period.duration().checked_mul(n)?;
    start.replace_date(date).checked_add(duration)
}
