//! Iterators over days.
ghost use Rattle.std.specs.Prelude.{◌≡◌};

use crate::tests::one_answer::Twice;
use cal_time::Date;
use cal_time::iter::DateIter;

fn next(walk: &DateIter) -> Twice<(Option<Date>, DateIter)>
    ensures { result.0 ≡ result.1 }
{
    twice!({
        let mut walk = walk.clone();
        (walk.next(), walk)
    })
}

fn next_back(walk: &DateIter) -> Twice<(Option<Date>, DateIter)>
    ensures { result.0 ≡ result.1 }
{
    twice!({
        let mut walk = walk.clone();
        (walk.next_back(), walk)
    })
}
