//! Replacing a component with its current value changes nothing. A fraction of a second replaced
//! with its whole milliseconds or microseconds loses the rest.
ghost use Rattle.std.specs.Prelude.{◌≡◌, ◌%◌, Ok};
ghost use Rattle.cal_datetime.specs.DateTime.{time_at};

use crate::{OffsetDateTime, PlainDateTime};
use cal_time::error::ComponentRange;

/// The results of a replacement, without and with an offset.
pub type Replaced = (
    Result<PlainDateTime, ComponentRange>,
    Result<OffsetDateTime, ComponentRange>,
);

/// Replaces a component with the current one, without and with an offset.
macro_rules! replaced {
    ($plain:ident, $moment:ident, $replace:ident, $component:ident) => {{
        let _ = ($plain.time(), $moment.time());
        (
            $plain.$replace($plain.$component()),
            $moment.$replace($moment.$component()),
        )
    }};
}

/// Replaces the date with the current date.
pub fn own_date(plain: PlainDateTime, moment: OffsetDateTime) -> (PlainDateTime, OffsetDateTime)
    ensures { result ≡ (plain, moment) }
{
    (
        plain.replace_date(plain.date()),
        moment.replace_date(moment.date()),
    )
}

/// Replaces the time of day with the current one.
pub fn own_time(plain: PlainDateTime, moment: OffsetDateTime) -> (PlainDateTime, OffsetDateTime)
    ensures { result ≡ (plain, moment) }
{
    (
        plain.replace_time(plain.time()),
        moment.replace_time(moment.time()),
    )
}

/// Replaces the local date-time with the current one in the first result, and the offset with the
/// current one in the second.
pub fn own_clock(moment: OffsetDateTime) -> (OffsetDateTime, OffsetDateTime)
    ensures { result ≡ (moment, moment) }
{
    (
        moment.replace_date_time(moment.local()),
        moment.replace_offset(moment.offset()),
    )
}

/// Replaces the year with the current year.
pub fn own_year(plain: PlainDateTime, moment: OffsetDateTime) -> Replaced
    ensures { result ≡ (Ok plain, Ok moment) }
{
    replaced!(plain, moment, replace_year, year)
}

/// Replaces the month with the current month.
pub fn own_month(plain: PlainDateTime, moment: OffsetDateTime) -> Replaced
    ensures { result ≡ (Ok plain, Ok moment) }
{
    replaced!(plain, moment, replace_month, month)
}

/// Replaces the day with the current day of the month.
pub fn own_day(plain: PlainDateTime, moment: OffsetDateTime) -> Replaced
    ensures { result ≡ (Ok plain, Ok moment) }
{
    replaced!(plain, moment, replace_day, day)
}

/// Replaces the ordinal with the current one.
pub fn own_ordinal(plain: PlainDateTime, moment: OffsetDateTime) -> Replaced
    ensures { result ≡ (Ok plain, Ok moment) }
{
    replaced!(plain, moment, replace_ordinal, ordinal)
}

/// Replaces the hour with the current hour.
pub fn own_hour(plain: PlainDateTime, moment: OffsetDateTime) -> Replaced
    ensures { result ≡ (Ok plain, Ok moment) }
{
    replaced!(plain, moment, replace_hour, hour)
}

/// Replaces the minute with the current minute.
pub fn own_minute(plain: PlainDateTime, moment: OffsetDateTime) -> Replaced
    ensures { result ≡ (Ok plain, Ok moment) }
{
    replaced!(plain, moment, replace_minute, minute)
}

/// Replaces the second with the current second.
pub fn own_second(plain: PlainDateTime, moment: OffsetDateTime) -> Replaced
    ensures { result ≡ (Ok plain, Ok moment) }
{
    replaced!(plain, moment, replace_second, second)
}

/// Replaces the fraction of the second with its whole milliseconds. A time in whole milliseconds
/// doesn't change.
pub fn own_millisecond(plain: PlainDateTime, moment: OffsetDateTime) -> Replaced
    ensures plain { time_at plain % 1_000_000 ≡ 0 → result.0 ≡ Ok plain }
    ensures moment { time_at moment.local % 1_000_000 ≡ 0 → result.1 ≡ Ok moment }
{
    replaced!(plain, moment, replace_millisecond, millisecond)
}

/// Replaces the fraction of the second with its whole microseconds. A time in whole microseconds
/// doesn't change.
pub fn own_microsecond(plain: PlainDateTime, moment: OffsetDateTime) -> Replaced
    ensures plain { time_at plain % 1_000 ≡ 0 → result.0 ≡ Ok plain }
    ensures moment { time_at moment.local % 1_000 ≡ 0 → result.1 ≡ Ok moment }
{
    replaced!(plain, moment, replace_microsecond, microsecond)
}

/// Replaces the fraction of the second with its nanoseconds.
pub fn own_nanosecond(plain: PlainDateTime, moment: OffsetDateTime) -> Replaced
    ensures { result ≡ (Ok plain, Ok moment) }
{
    replaced!(plain, moment, replace_nanosecond, nanosecond)
}
