//! Date-times of a date and the components of a time.
ghost use Rattle.std.specs.Prelude.{◌≡◌};

use crate::tests::one_answer::Twice;
use cal_datetime::PlainDateTime;
use cal_time::Date;
use cal_time::error::ComponentRange;

fn with_hms(
    date: Date,
    hour: u8,
    minute: u8,
    second: u8,
) -> Twice<Result<PlainDateTime, ComponentRange>>
    ensures { result.0 ≡ result.1 }
{
    twice!(cal_datetime::with_hms(date, hour, minute, second))
}

fn with_hms_milli(
    date: Date,
    hour: u8,
    minute: u8,
    second: u8,
    millisecond: u16,
) -> Twice<Result<PlainDateTime, ComponentRange>>
    ensures { result.0 ≡ result.1 }
{
    twice!(cal_datetime::with_hms_milli(date, hour, minute, second, millisecond))
}

fn with_hms_micro(
    date: Date,
    hour: u8,
    minute: u8,
    second: u8,
    microsecond: u32,
) -> Twice<Result<PlainDateTime, ComponentRange>>
    ensures { result.0 ≡ result.1 }
{
    twice!(cal_datetime::with_hms_micro(date, hour, minute, second, microsecond))
}

fn with_hms_nano(
    date: Date,
    hour: u8,
    minute: u8,
    second: u8,
    nanosecond: u32,
) -> Twice<Result<PlainDateTime, ComponentRange>>
    ensures { result.0 ≡ result.1 }
{
    twice!(cal_datetime::with_hms_nano(date, hour, minute, second, nanosecond))
}
