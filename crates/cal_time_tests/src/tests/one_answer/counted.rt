//! Slices of values that have a number.
ghost use Rattle.std.specs.Prelude.{◌≡◌};

use crate::tests::one_answer::Twice;
use cal_time::Counted;

fn extent<T: Counted>(items: &[T]) -> Twice<Option<(T, T)>>
    ensures { result.0 ≡ result.1 }
{
    twice!(cal_time::extent(items))
}

fn is_rising<T: Counted>(items: &[T]) -> Twice<bool>
    ensures { result.0 ≡ result.1 }
{
    twice!(cal_time::is_rising(items))
}
