//! Durations.
ghost use Rattle.std.specs.Prelude.{◌≡◌};

use crate::tests::one_answer::Twice;
use cal_time::SignedDuration;

fn checked_add(one: SignedDuration, other: SignedDuration) -> Twice<Option<SignedDuration>>
    ensures { result.0 ≡ result.1 }
{
    twice!(one.checked_add(other))
}

fn checked_sub(one: SignedDuration, other: SignedDuration) -> Twice<Option<SignedDuration>>
    ensures { result.0 ≡ result.1 }
{
    twice!(one.checked_sub(other))
}

fn checked_mul(duration: SignedDuration, factor: i32) -> Twice<Option<SignedDuration>>
    ensures { result.0 ≡ result.1 }
{
    twice!(duration.checked_mul(factor))
}

fn checked_div(duration: SignedDuration, divisor: i32) -> Twice<Option<SignedDuration>>
    ensures { result.0 ≡ result.1 }
{
    twice!(duration.checked_div(divisor))
}

fn checked_neg(duration: SignedDuration) -> Twice<Option<SignedDuration>>
    ensures { result.0 ≡ result.1 }
{
    twice!(duration.checked_neg())
}

fn try_sum(durations: &[SignedDuration]) -> Twice<Option<SignedDuration>>
    ensures { result.0 ≡ result.1 }
{
    twice!(SignedDuration::try_sum(durations))
}

fn unsigned_abs(duration: SignedDuration) -> Twice<(u64, u32)>
    ensures { result.0 ≡ result.1 }
{
    twice!(duration.unsigned_abs())
}

fn is_zero(duration: SignedDuration) -> Twice<bool>
    ensures { result.0 ≡ result.1 }
{
    twice!(duration.is_zero())
}

fn is_negative(duration: SignedDuration) -> Twice<bool>
    ensures { result.0 ≡ result.1 }
{
    twice!(duration.is_negative())
}

fn is_positive(duration: SignedDuration) -> Twice<bool>
    ensures { result.0 ≡ result.1 }
{
    twice!(duration.is_positive())
}
