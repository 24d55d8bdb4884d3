//! Date-times.
ghost use Rattle.std.specs.Prelude.{◌≡◌};

use crate::tests::one_answer::Twice;
use cal_datetime::PlainDateTime;
use cal_time::error::ComponentRange;
use cal_time::{Month, SignedDuration, Weekday};

fn month(plain: PlainDateTime) -> Twice<Month>
    ensures { result.0 ≡ result.1 }
{
    twice!(plain.month())
}

fn weekday(plain: PlainDateTime) -> Twice<Weekday>
    ensures { result.0 ≡ result.1 }
{
    twice!(plain.weekday())
}

fn to_calendar_date(plain: PlainDateTime) -> Twice<(i32, Month, u8)>
    ensures { result.0 ≡ result.1 }
{
    twice!(plain.to_calendar_date())
}

fn to_ordinal_date(plain: PlainDateTime) -> Twice<(i32, u16)>
    ensures { result.0 ≡ result.1 }
{
    twice!(plain.to_ordinal_date())
}

fn to_iso_week_date(plain: PlainDateTime) -> Twice<(i32, u8, Weekday)>
    ensures { result.0 ≡ result.1 }
{
    twice!(plain.to_iso_week_date())
}

fn replace_year(plain: PlainDateTime, year: i32) -> Twice<Result<PlainDateTime, ComponentRange>>
    ensures { result.0 ≡ result.1 }
{
    twice!(plain.replace_year(year))
}

fn replace_month(plain: PlainDateTime, month: Month) -> Twice<Result<PlainDateTime, ComponentRange>>
    ensures { result.0 ≡ result.1 }
{
    twice!(plain.replace_month(month))
}

fn replace_day(plain: PlainDateTime, day: u8) -> Twice<Result<PlainDateTime, ComponentRange>>
    ensures { result.0 ≡ result.1 }
{
    twice!(plain.replace_day(day))
}

fn replace_ordinal(
    plain: PlainDateTime,
    ordinal: u16,
) -> Twice<Result<PlainDateTime, ComponentRange>>
    ensures { result.0 ≡ result.1 }
{
    twice!(plain.replace_ordinal(ordinal))
}

fn replace_hour(plain: PlainDateTime, hour: u8) -> Twice<Result<PlainDateTime, ComponentRange>>
    ensures { result.0 ≡ result.1 }
{
    twice!(plain.replace_hour(hour))
}

fn replace_minute(plain: PlainDateTime, minute: u8) -> Twice<Result<PlainDateTime, ComponentRange>>
    ensures { result.0 ≡ result.1 }
{
    twice!(plain.replace_minute(minute))
}

fn replace_second(plain: PlainDateTime, second: u8) -> Twice<Result<PlainDateTime, ComponentRange>>
    ensures { result.0 ≡ result.1 }
{
    twice!(plain.replace_second(second))
}

fn replace_millisecond(
    plain: PlainDateTime,
    millisecond: u16,
) -> Twice<Result<PlainDateTime, ComponentRange>>
    ensures { result.0 ≡ result.1 }
{
    twice!(plain.replace_millisecond(millisecond))
}

fn replace_microsecond(
    plain: PlainDateTime,
    microsecond: u32,
) -> Twice<Result<PlainDateTime, ComponentRange>>
    ensures { result.0 ≡ result.1 }
{
    twice!(plain.replace_microsecond(microsecond))
}

fn replace_nanosecond(
    plain: PlainDateTime,
    nanosecond: u32,
) -> Twice<Result<PlainDateTime, ComponentRange>>
    ensures { result.0 ≡ result.1 }
{
    twice!(plain.replace_nanosecond(nanosecond))
}

fn checked_add(plain: PlainDateTime, duration: SignedDuration) -> Twice<Option<PlainDateTime>>
    ensures { result.0 ≡ result.1 }
{
    twice!(plain.checked_add(duration))
}

fn checked_sub(plain: PlainDateTime, duration: SignedDuration) -> Twice<Option<PlainDateTime>>
    ensures { result.0 ≡ result.1 }
{
    twice!(plain.checked_sub(duration))
}
