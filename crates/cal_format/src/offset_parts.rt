//! Offsets from the numbers of a text.
ghost use Rattle.std.specs.Prelude.{◌≡◌, ◌+◌, ◌*◌, ◌≤◌};
ghost use Rattle.cal_time.specs.UtcOffset.{IsOffset};
ghost use Rattle.cal_format.specs.declared.item.Component.{Component};
ghost use Rattle.cal_format.specs.Ranges.{maximum};
ghost use Rattle.cal_format.specs.Scanning.{number_at, signed_seconds};
ghost use Rattle.cal_format.specs.Values.{offset_in};

use crate::fields::Fields;
use crate::item::Component;
use crate::timestamp::signed;
use cal_time::UtcOffset;

/// Returns the offset with the numbers of the fields.
pub(crate) fn offset_of(fields: &Fields) -> UtcOffset
    requires { (c : Component) → number_at c fields.now ≤ maximum c }
    ensures value { result ≡ offset_in (λ c. number_at c fields.now) }
    ensures in_range { IsOffset result }
{
    let sign = fields.get(Component::OffsetSign);
    let hour = fields.get(Component::OffsetHour);
    let minute = fields.get(Component::OffsetMinute);
    let second = fields.get(Component::OffsetSecond);
    offset_with(sign, hour, minute, second)
}

/// Returns the offset with this sign, which is 1 for minus, and these hours, minutes and seconds.
fn offset_with(sign: u64, hour: u64, minute: u64, second: u64) -> UtcOffset
    requires { (hour ≤ 25) × (minute ≤ 59) × (second ≤ 59) }
    ensures value { result ≡ signed_seconds sign (hour * 3_600 + minute * 60 + second) }
    ensures in_range { IsOffset result }
{
    match UtcOffset::from_whole_seconds(signed(sign, hour * 3_600 + minute * 60 + second) as i32) {
        Ok(offset) => {
            let _ = offset.whole_seconds();
            offset
        }
        Err(_) => UtcOffset::UTC,
    }
}
