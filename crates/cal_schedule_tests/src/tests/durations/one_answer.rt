//! Each parser leaves one answer: two calls with the same text are proved to give the same.
ghost use Rattle.std.specs.Prelude.{◌≡◌};

use crate::tests::one_answer::Twice;
use cal_duration::{ParseDurationError, duration, period};
use cal_schedule::Period;
use cal_time::SignedDuration;

fn of_period(text: &[u8]) -> Twice<Result<Period, ParseDurationError>>
    ensures { result.0 ≡ result.1 }
{
    (period::parse(text), period::parse(text))
}

fn of_duration(text: &[u8]) -> Twice<Result<SignedDuration, ParseDurationError>>
    ensures { result.0 ≡ result.1 }
{
    (duration::parse(text), duration::parse(text))
}
