//! Date-times at an offset.
ghost use Rattle.std.specs.Prelude.{◌≡◌};

use crate::tests::one_answer::Twice;
use cal_datetime::OffsetDateTime;
use cal_time::error::ComponentRange;
use cal_time::{Month, SignedDuration, UtcOffset, Weekday};

fn month(moment: OffsetDateTime) -> Twice<Month>
    ensures { result.0 ≡ result.1 }
{
    twice!(moment.month())
}

fn weekday(moment: OffsetDateTime) -> Twice<Weekday>
    ensures { result.0 ≡ result.1 }
{
    twice!(moment.weekday())
}

fn to_calendar_date(moment: OffsetDateTime) -> Twice<(i32, Month, u8)>
    ensures { result.0 ≡ result.1 }
{
    twice!(moment.to_calendar_date())
}

fn to_ordinal_date(moment: OffsetDateTime) -> Twice<(i32, u16)>
    ensures { result.0 ≡ result.1 }
{
    twice!(moment.to_ordinal_date())
}

fn to_iso_week_date(moment: OffsetDateTime) -> Twice<(i32, u8, Weekday)>
    ensures { result.0 ≡ result.1 }
{
    twice!(moment.to_iso_week_date())
}

fn replace_year(moment: OffsetDateTime, year: i32) -> Twice<Result<OffsetDateTime, ComponentRange>>
    ensures { result.0 ≡ result.1 }
{
    twice!(moment.replace_year(year))
}

fn replace_month(
    moment: OffsetDateTime,
    month: Month,
) -> Twice<Result<OffsetDateTime, ComponentRange>>
    ensures { result.0 ≡ result.1 }
{
    twice!(moment.replace_month(month))
}

fn replace_day(moment: OffsetDateTime, day: u8) -> Twice<Result<OffsetDateTime, ComponentRange>>
    ensures { result.0 ≡ result.1 }
{
    twice!(moment.replace_day(day))
}

fn replace_ordinal(
    moment: OffsetDateTime,
    ordinal: u16,
) -> Twice<Result<OffsetDateTime, ComponentRange>>
    ensures { result.0 ≡ result.1 }
{
    twice!(moment.replace_ordinal(ordinal))
}

fn replace_hour(moment: OffsetDateTime, hour: u8) -> Twice<Result<OffsetDateTime, ComponentRange>>
    ensures { result.0 ≡ result.1 }
{
    twice!(moment.replace_hour(hour))
}

fn replace_minute(
    moment: OffsetDateTime,
    minute: u8,
) -> Twice<Result<OffsetDateTime, ComponentRange>>
    ensures { result.0 ≡ result.1 }
{
    twice!(moment.replace_minute(minute))
}

fn replace_second(
    moment: OffsetDateTime,
    second: u8,
) -> Twice<Result<OffsetDateTime, ComponentRange>>
    ensures { result.0 ≡ result.1 }
{
    twice!(moment.replace_second(second))
}

fn replace_millisecond(
    moment: OffsetDateTime,
    millisecond: u16,
) -> Twice<Result<OffsetDateTime, ComponentRange>>
    ensures { result.0 ≡ result.1 }
{
    twice!(moment.replace_millisecond(millisecond))
}

fn replace_microsecond(
    moment: OffsetDateTime,
    microsecond: u32,
) -> Twice<Result<OffsetDateTime, ComponentRange>>
    ensures { result.0 ≡ result.1 }
{
    twice!(moment.replace_microsecond(microsecond))
}

fn replace_nanosecond(
    moment: OffsetDateTime,
    nanosecond: u32,
) -> Twice<Result<OffsetDateTime, ComponentRange>>
    ensures { result.0 ≡ result.1 }
{
    twice!(moment.replace_nanosecond(nanosecond))
}

fn checked_add(moment: OffsetDateTime, duration: SignedDuration) -> Twice<Option<OffsetDateTime>>
    ensures { result.0 ≡ result.1 }
{
    twice!(moment.checked_add(duration))
}

fn checked_sub(moment: OffsetDateTime, duration: SignedDuration) -> Twice<Option<OffsetDateTime>>
    ensures { result.0 ≡ result.1 }
{
    twice!(moment.checked_sub(duration))
}

fn checked_to_offset(moment: OffsetDateTime, offset: UtcOffset) -> Twice<Option<OffsetDateTime>>
    ensures { result.0 ≡ result.1 }
{
    twice!(moment.checked_to_offset(offset))
}

fn checked_to_utc(moment: OffsetDateTime) -> Twice<Option<OffsetDateTime>>
    ensures { result.0 ≡ result.1 }
{
    twice!(moment.checked_to_utc())
}

fn from_unix_timestamp(timestamp: i64) -> Twice<Result<OffsetDateTime, ComponentRange>>
    ensures { result.0 ≡ result.1 }
{
    twice!(OffsetDateTime::from_unix_timestamp(timestamp))
}

fn from_unix_timestamp_nanos(timestamp: i128) -> Twice<Result<OffsetDateTime, ComponentRange>>
    ensures { result.0 ≡ result.1 }
{
    twice!(OffsetDateTime::from_unix_timestamp_nanos(timestamp))
}
