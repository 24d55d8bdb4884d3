//! Offsets from UTC.
ghost use Rattle.std.specs.Prelude.{◌≡◌};

use crate::tests::one_answer::Twice;
use cal_time::UtcOffset;
use cal_time::error::ComponentRange;

fn from_hms(hours: i8, minutes: i8, seconds: i8) -> Twice<Result<UtcOffset, ComponentRange>>
    ensures { result.0 ≡ result.1 }
{
    twice!(UtcOffset::from_hms(hours, minutes, seconds))
}

fn from_whole_seconds(seconds: i32) -> Twice<Result<UtcOffset, ComponentRange>>
    ensures { result.0 ≡ result.1 }
{
    twice!(UtcOffset::from_whole_seconds(seconds))
}

fn as_hms(offset: UtcOffset) -> Twice<(i8, i8, i8)>
    ensures { result.0 ≡ result.1 }
{
    twice!(offset.as_hms())
}

fn is_utc(offset: UtcOffset) -> Twice<bool>
    ensures { result.0 ≡ result.1 }
{
    twice!(offset.is_utc())
}

fn is_positive(offset: UtcOffset) -> Twice<bool>
    ensures { result.0 ≡ result.1 }
{
    twice!(offset.is_positive())
}

fn is_negative(offset: UtcOffset) -> Twice<bool>
    ensures { result.0 ≡ result.1 }
{
    twice!(offset.is_negative())
}
