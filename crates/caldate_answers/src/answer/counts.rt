//! The whole units from one moment to another.
ghost use Rattle.std.specs.Prelude.{◌≡◌, ◌≤ℤ◌, ◌<ℤ◌, ◌+ℤ◌, ◌-ℤ◌, neg_ℤ, pos};
ghost use Rattle.cal_date.specs.Arithmetic.{clamped_date};
ghost use Rattle.cal_time.specs.Date.{last_day};
ghost use Rattle.cal_time.specs.SignedDuration.{cut};
ghost use Rattle.caldate_answers.specs.Counts.{AreMonths, AreMonthsTo, AreWorkdays, AreYearsTo, IsCount, duration_between, number_of, reached};

use crate::request::TimeUnit;
use cal_datetime::OffsetDateTime;
use cal_schedule::{Workdays, months_until};
use cal_time::{Date, SignedDuration};

/// The number of months of the range.
const MONTHS_IN_RANGE: i64 = 23_999_988;

/// Returns the number of whole units from one moment to another, truncated toward zero. Years,
/// months and workdays count up to the first date plus the whole days of the duration, and workdays
/// only up to an end of the range.
pub fn count_between(
    workdays: &Workdays<'_>,
    unit: TimeUnit,
    from: OffsetDateTime,
    to: OffsetDateTime,
) -> i64
    ensures { IsCount workdays.now unit from to result }
{
    match unit {
        TimeUnit::Years => years_to(from, to),
        TimeUnit::Months => months_to(from, to),
        TimeUnit::Workdays => workdays_to(workdays, from.date(), clamped_to(from, to)),
        TimeUnit::Weeks => between(from, to).whole_weeks(),
        TimeUnit::Days => between(from, to).whole_days(),
        TimeUnit::Hours => between(from, to).whole_hours(),
        TimeUnit::Minutes => between(from, to).whole_minutes(),
        TimeUnit::Seconds => between(from, to).whole_seconds(),
    }
}

fn years_to(from: OffsetDateTime, to: OffsetDateTime) -> i64
    ensures { AreYearsTo from to result }
{
    months_to(from, to) / 12
}

fn months_to(from: OffsetDateTime, to: OffsetDateTime) -> i64
    ensures { AreMonthsTo from to result }
{
    let last = clamped_to(from, to);
    let past = days_past(from, to, last);
    if past == 0 {
        i64::from(months_until(from.date(), last))
    } else {
        months_past(from.date(), past)
    }
}

/// Returns how many days the day that is reached lies after the last day of the range, or before the
/// first one as a negative number, or 0. At most three, by the offsets of the moments.
fn days_past(from: OffsetDateTime, to: OffsetDateTime, last: Date) -> i64
    requires { last ≡ clamped_date (reached from to) }
    ensures value { result ≡ reached from to -ℤ pos last }
    ensures min { neg_ℤ (pos 3) ≤ℤ result }
    ensures max { result ≤ℤ pos 3 }
{
    let _in_range = (from.local(), from.offset(), to.local(), to.offset());
    let days = i64::from(last.to_julian_day()) - i64::from(from.date().to_julian_day());
    between(from, to).whole_days() - days
}

/// Returns the months from a date to a day so many days after the last day of the range, or before
/// the first one. That is in a January, or in a December.
fn months_past(from: Date, past: i64) -> i64
    requires min { neg_ℤ (pos 3) ≤ℤ past }
    requires max { past ≤ℤ pos 3 }
    ensures after { pos 0 <ℤ past
        → AreMonths (number_of (pos from)) (number_of (pos last_day +ℤ past)) result }
    ensures before { past <ℤ pos 0 → AreMonths (number_of (pos from)) (number_of past) result }
{
    let (number, day) = from.month_number_and_day();
    if past > 0 {
        let months = MONTHS_IN_RANGE - i64::from(number);
        if i64::from(day) <= past {
            months
        } else {
            months - 1
        }
    } else {
        let months = -1 - i64::from(number);
        if 32 + past <= i64::from(day) {
            months
        } else {
            months + 1
        }
    }
}

/// Returns the working days to a day, without the later of the two days.
fn workdays_to(workdays: &Workdays<'_>, from: Date, to: Date) -> i64
    ensures { AreWorkdays workdays.now from to result }
{
    i64::from(workdays.workdays_between(from, to))
}

fn between(from: OffsetDateTime, to: OffsetDateTime) -> SignedDuration
    ensures { result ≡ duration_between from to }
{
    to - from
}

/// Adds the whole days of the duration to the local date of the first moment, within the range.
fn clamped_to(from: OffsetDateTime, to: OffsetDateTime) -> Date
    ensures { result ≡ clamped_date (reached from to) }
{
    from.date().saturating_add(between(from, to))
}
