//! Times by the durations between them, and offsets by their seconds.
ghost use Rattle.std.specs.Prelude.{◌≡◌, Ok};

use cal_time::error::ComponentRange;
use cal_time::{SignedDuration, Time, UtcOffset};

pub fn by_duration_until(from: Time, to: Time) -> Time
    ensures { result ≡ to }
{
    from + from.duration_until(to)
}

pub fn time_and_back(time: Time, duration: SignedDuration) -> Time
    ensures { result ≡ time }
{
    (time + duration) - duration
}

pub fn by_whole_seconds(offset: UtcOffset) -> Result<UtcOffset, ComponentRange>
    ensures { result ≡ Ok offset }
{
    UtcOffset::from_whole_seconds(offset.whole_seconds())
}

pub fn negated_twice(offset: UtcOffset) -> UtcOffset
    ensures { result ≡ offset }
{
    -(-offset)
}
