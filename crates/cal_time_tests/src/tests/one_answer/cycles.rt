//! Steps, iterators and tests along a cycle.
ghost use Rattle.std.specs.Prelude.{◌≡◌, Bool};

use crate::tests::one_answer::Twice;
use cal_time::iter::{CycleIter, Rev};
use cal_time::{Cycle, Month};

fn nth_in<C: Cycle>(start: C, n: usize) -> Twice<C>
    ensures { result.0 ≡ result.1 }
{
    twice!(cal_time::nth_in(start, n))
}

fn next<C: Cycle>(start: C) -> Twice<(Option<C>, CycleIter<C>)>
    ensures { result.0 ≡ result.1 }
{
    twice!({
        let mut walk = CycleIter::new(start);
        (walk.next(), walk)
    })
}

fn nth<C: Cycle>(start: C, n: usize) -> Twice<(Option<C>, CycleIter<C>)>
    ensures { result.0 ≡ result.1 }
{
    twice!({
        let mut walk = CycleIter::new(start);
        (walk.nth(n), walk)
    })
}

fn back_next<C: Cycle>(start: C) -> Twice<(Option<C>, Rev<CycleIter<C>>)>
    ensures { result.0 ≡ result.1 }
{
    twice!({
        let mut walk = CycleIter::new(start).rev();
        (walk.next(), walk)
    })
}

fn back_nth<C: Cycle>(start: C, n: usize) -> Twice<(Option<C>, Rev<CycleIter<C>>)>
    ensures { result.0 ≡ result.1 }
{
    twice!({
        let mut walk = CycleIter::new(start).rev();
        (walk.nth(n), walk)
    })
}

fn all_once<C: Cycle, F: FnMut(C) -> bool + Copy>(start: C, f: F) -> Twice<bool>
    requires callable { F.IsAlwaysCallable f }
    requires steps { (x : C) (a b c : F) (p q : Bool) → F.step a x p b → F.step a x q c
        → (p ≡ q) × (b ≡ c) }
    ensures { result.0 ≡ result.1 }
{
    twice!(CycleIter::new(start).all_once(f))
}

fn back_all_once<C: Cycle, F: FnMut(C) -> bool + Copy>(start: C, f: F) -> Twice<bool>
    requires callable { F.IsAlwaysCallable f }
    requires steps { (x : C) (a b c : F) (p q : Bool) → F.step a x p b → F.step a x q c
        → (p ≡ q) × (b ≡ c) }
    ensures { result.0 ≡ result.1 }
{
    twice!(CycleIter::new(start).rev().all_once(f))
}

fn any_once<C: Cycle, F: FnMut(C) -> bool + Copy>(start: C, f: F) -> Twice<bool>
    requires callable { F.IsAlwaysCallable f }
    requires steps { (x : C) (a b c : F) (p q : Bool) → F.step a x p b → F.step a x q c
        → (p ≡ q) × (b ≡ c) }
    ensures { result.0 ≡ result.1 }
{
    twice!(CycleIter::new(start).any_once(f))
}

fn back_any_once<C: Cycle, F: FnMut(C) -> bool + Copy>(start: C, f: F) -> Twice<bool>
    requires callable { F.IsAlwaysCallable f }
    requires steps { (x : C) (a b c : F) (p q : Bool) → F.step a x p b → F.step a x q c
        → (p ≡ q) × (b ≡ c) }
    ensures { result.0 ≡ result.1 }
{
    twice!(CycleIter::new(start).rev().any_once(f))
}

/// A closure that changes nothing meets the condition.
fn all_once_of_indices_below(start: Month, end: u8) -> Twice<bool>
    ensures { result.0 ≡ result.1 }
{
    all_once(start, move |month: Month| month.place() < end)
}
