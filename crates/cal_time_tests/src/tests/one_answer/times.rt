//! Times from components, with one component replaced, and moved.
ghost use Rattle.std.specs.Prelude.{◌≡◌};

use crate::tests::one_answer::Twice;
use cal_time::error::ComponentRange;
use cal_time::util::DateAdjustment;
use cal_time::{SignedDuration, Time};

fn from_hms(hour: u8, minute: u8, second: u8) -> Twice<Result<Time, ComponentRange>>
    ensures { result.0 ≡ result.1 }
{
    twice!(Time::from_hms(hour, minute, second))
}

fn from_hms_milli(
    hour: u8,
    minute: u8,
    second: u8,
    millisecond: u16,
) -> Twice<Result<Time, ComponentRange>>
    ensures { result.0 ≡ result.1 }
{
    twice!(Time::from_hms_milli(hour, minute, second, millisecond))
}

fn from_hms_micro(
    hour: u8,
    minute: u8,
    second: u8,
    microsecond: u32,
) -> Twice<Result<Time, ComponentRange>>
    ensures { result.0 ≡ result.1 }
{
    twice!(Time::from_hms_micro(hour, minute, second, microsecond))
}

fn from_hms_nano(
    hour: u8,
    minute: u8,
    second: u8,
    nanosecond: u32,
) -> Twice<Result<Time, ComponentRange>>
    ensures { result.0 ≡ result.1 }
{
    twice!(Time::from_hms_nano(hour, minute, second, nanosecond))
}

fn replace_hour(time: Time, hour: u8) -> Twice<Result<Time, ComponentRange>>
    ensures { result.0 ≡ result.1 }
{
    twice!(time.replace_hour(hour))
}

fn replace_minute(time: Time, minute: u8) -> Twice<Result<Time, ComponentRange>>
    ensures { result.0 ≡ result.1 }
{
    twice!(time.replace_minute(minute))
}

fn replace_second(time: Time, second: u8) -> Twice<Result<Time, ComponentRange>>
    ensures { result.0 ≡ result.1 }
{
    twice!(time.replace_second(second))
}

fn replace_millisecond(time: Time, millisecond: u16) -> Twice<Result<Time, ComponentRange>>
    ensures { result.0 ≡ result.1 }
{
    twice!(time.replace_millisecond(millisecond))
}

fn replace_microsecond(time: Time, microsecond: u32) -> Twice<Result<Time, ComponentRange>>
    ensures { result.0 ≡ result.1 }
{
    twice!(time.replace_microsecond(microsecond))
}

fn replace_nanosecond(time: Time, nanosecond: u32) -> Twice<Result<Time, ComponentRange>>
    ensures { result.0 ≡ result.1 }
{
    twice!(time.replace_nanosecond(nanosecond))
}

fn adjusting_add(time: Time, duration: SignedDuration) -> Twice<(DateAdjustment, Time)>
    ensures { result.0 ≡ result.1 }
{
    twice!(time.adjusting_add(duration))
}

fn adjusting_sub(time: Time, duration: SignedDuration) -> Twice<(DateAdjustment, Time)>
    ensures { result.0 ≡ result.1 }
{
    twice!(time.adjusting_sub(duration))
}
