//! Weekdays.
ghost use Rattle.std.specs.Prelude.{◌≡◌};

use crate::tests::one_answer::Twice;
use cal_time::Weekday;
use cal_time::error::InvalidVariant;
use std::str::FromStr;

fn from_str(text: &str) -> Twice<Result<Weekday, InvalidVariant>>
    ensures { result.0 ≡ result.1 }
{
    twice!(Weekday::from_str(text))
}

fn previous(weekday: Weekday) -> Twice<Weekday>
    ensures { result.0 ≡ result.1 }
{
    twice!(weekday.previous())
}

fn next(weekday: Weekday) -> Twice<Weekday>
    ensures { result.0 ≡ result.1 }
{
    twice!(weekday.next())
}

fn nth_prev(weekday: Weekday, n: u8) -> Twice<Weekday>
    ensures { result.0 ≡ result.1 }
{
    twice!(weekday.nth_prev(n))
}

fn nth_next(weekday: Weekday, n: u8) -> Twice<Weekday>
    ensures { result.0 ≡ result.1 }
{
    twice!(weekday.nth_next(n))
}
