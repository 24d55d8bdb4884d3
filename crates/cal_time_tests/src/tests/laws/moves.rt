//! Moves there and back, and by differences.
ghost use Rattle.std.specs.Prelude.{◌≡◌, IfSome, Some};

use cal_time::{Date, SignedDuration};

pub fn date_and_back(date: Date, duration: SignedDuration) -> Option<Option<Date>>
    ensures { IfSome result (λ back. back ≡ Some date) }
{
    match date.checked_add(duration) {
        Some(moved) => Some(moved.checked_sub(duration)),
        None => None,
    }
}

pub fn duration_and_back(
    duration: SignedDuration,
    other: SignedDuration,
) -> Option<Option<SignedDuration>>
    ensures { IfSome result (λ back. back ≡ Some duration) }
{
    let _ = duration.whole_nanoseconds();
    match duration.checked_add(other) {
        Some(sum) => Some(sum.checked_sub(other)),
        None => None,
    }
}

pub fn by_difference(from: Date, to: Date) -> Option<Date>
    ensures { result ≡ Some to }
{
    from.checked_add(to - from)
}
