//! Months.
ghost use Rattle.std.specs.Prelude.{◌≡◌};

use crate::tests::one_answer::Twice;
use cal_time::Month;
use cal_time::error::{ComponentRange, InvalidVariant};
use std::str::FromStr;

fn try_from(number: u8) -> Twice<Result<Month, ComponentRange>>
    ensures { result.0 ≡ result.1 }
{
    twice!(Month::try_from(number))
}

fn from_str(text: &str) -> Twice<Result<Month, InvalidVariant>>
    ensures { result.0 ≡ result.1 }
{
    twice!(Month::from_str(text))
}

fn previous(month: Month) -> Twice<Month>
    ensures { result.0 ≡ result.1 }
{
    twice!(month.previous())
}

fn next(month: Month) -> Twice<Month>
    ensures { result.0 ≡ result.1 }
{
    twice!(month.next())
}

fn nth_prev(month: Month, n: u8) -> Twice<Month>
    ensures { result.0 ≡ result.1 }
{
    twice!(month.nth_prev(n))
}

fn nth_next(month: Month, n: u8) -> Twice<Month>
    ensures { result.0 ≡ result.1 }
{
    twice!(month.nth_next(n))
}
