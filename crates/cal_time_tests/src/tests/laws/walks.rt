//! What a walk gives from its front and from its back, and what is left of it.
ghost use Rattle.std.specs.Prelude.{◌≡◌, ◌++◌, reverse, IfOk, OnOk};
ghost use Rattle.cal_date.specs.DateIter.{days_of};

use cal_time::Date;
use cal_time::iter::DateIter;
use std::alloc::{AllocError, Global};

/// The days from the front, what is left, and the days from the back.
pub type Taken = (Vec<Date>, DateIter, Vec<Date>);

/// Takes the first day that is left, or the last one.
#[tactic(auto, using(cal_time::proofs::RoundTrips::taken))]
pub fn take(
    is_front: bool,
    left: &mut DateIter,
    front: &mut Vec<Date>,
    back: &mut Vec<Date>,
) -> Result<(), AllocError>
    ensures { OnOk result
        (front.new.items ++ (days_of left.new ++ reverse back.new.items)
        ≡ front.old.items ++ (days_of left.old ++ reverse back.old.items)) }
{
    if is_front {
        if let Some(day) = left.next() {
            front.push(day)?;
        }
    } else if let Some(day) = left.next_back() {
        back.push(day)?;
    }
    Ok(())
}

/// Takes a day from the front for each `true`, and from the back for each `false`.
pub fn taken(alloc: Global, walk: &DateIter, turns: &[bool]) -> Result<Taken, AllocError>
    ensures { IfOk result (λ all. all.0.items ++ (days_of all.1 ++ reverse all.2.items)
        ≡ days_of walk.now) }
{
    let mut left = walk.clone();
    let (mut front, mut back) = (Vec::new(alloc), Vec::new(alloc));
    for is_front in turns {
        take(*is_front, &mut left, &mut front, &mut back)?;
    }
    Ok((front, left, back))
}
