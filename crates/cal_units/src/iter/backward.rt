//! The backward iterator.
ghost use Rattle.std.specs.Prelude.{◌≡◌, true, false, Some, IfSome, IsSomeAnd};
ghost use Rattle.std.specs.Iterator.{UpTo, endless};
ghost use Rattle.std.specs.Iterator.SizeHint.{IsWithinCount};
ghost use Rattle.cal_units.specs.CycleSteps.{IsBehind, ShortCircuits};

use crate::cycle::Cycle;
use crate::iter::forward::CycleIter;
use crate::month::Month;
use crate::steps::{all_in, any_in, nth_back_in};
use std::marker::Model;

/// An endless iterator that goes backward: the start, then each value before it, again and again.
///
/// It never returns `None`, so limit it, for example with
/// `MonthIter::new(Month::June).rev().take(3)`. Two iterators are equal if their next values are
/// equal.
#[derive(Debug, PartialEq, Eq, Drop)]
pub struct Rev<I> {
    forward: I,
}

impl<I> Model for Rev<I> {
    ghost Value = { I };

    ghost view = { λ walk. walk.forward };

    ghost inverse = { λ forward. record { forward = forward } };
}

impl<C: Cycle> Rev<CycleIter<C>> {
    /// Creates a backward iterator that starts at the next value of `forward`.
    pub(super) fn new(forward: CycleIter<C>) -> Self
        ensures { result ≡ forward }
    {
        Rev { forward }
    }

    /// Returns a separate iterator with the same next value. The clone of an iterator back from
    /// June returns June, then May. The original still returns June.
    pub fn clone(&self) -> Self
        ensures { result ≡ self.now }
    {
        Rev {
            forward: self.forward.clone(),
        }
    }

    /// Skips `n` values and returns the value after them, always `Some`. `nth(0)` is `next()`. From
    /// June, `nth(2)` is April, and then `next()` is March.
    pub fn nth(&mut self, n: usize) -> Option<C>
        ensures { IsSomeAnd result (λ x.
            IsBehind C.Cycle n self.old x × IsBehind C.Cycle 1 x self.new) }
    {
        let value = nth_back_in(self.forward.next, n);
        self.forward.next = nth_back_in(value, 1);
        Some(value)
    }

    /// Returns `true` if `f` returns `true` for every value of the cycle. The iterator doesn't
    /// move.
    ///
    /// Calls `f` for each value from January or Monday on, until it returns `false`. For the
    /// condition "the number of the month is below 5" it calls `f` for January to May and returns
    /// `false`.
    pub fn all_once<F: FnMut(C) -> bool>(&mut self, f: F) -> bool
        requires { F.IsAlwaysCallable f }
        ensures value { ShortCircuits C.Cycle F.step true 0 f result }
        ensures unchanged { self.new ≡ self.old }
    {
        all_in(f)
    }

    /// Returns `true` if `f` returns `true` for some value of the cycle. The iterator doesn't move.
    ///
    /// Calls `f` for each value from January or Monday on, until it returns `true`. For the
    /// condition "the number of the month is above 4" it calls `f` for January to May and returns
    /// `true`.
    pub fn any_once<F: FnMut(C) -> bool>(&mut self, f: F) -> bool
        requires { F.IsAlwaysCallable f }
        ensures value { ShortCircuits C.Cycle F.step false 0 f result }
        ensures unchanged { self.new ≡ self.old }
    {
        any_in(f)
    }
}

impl Rev<CycleIter<Month>> {
    ghost use Rattle.cal_units.specs.declared.month.Month.TheVariants.{January, December};

    /// Returns the minimum of all months, January. It is always `Some`.
    pub fn min(self) -> Option<Month>
        ensures { result ≡ Some January }
    {
        Some(Month::January)
    }

    /// Returns the maximum of all months, December. It is always `Some`.
    pub fn max(self) -> Option<Month>
        ensures { result ≡ Some December }
    {
        Some(Month::December)
    }

    /// Returns `false`: the months go down, so November comes after December.
    pub fn is_sorted(self) -> bool
        ensures { result ≡ false }
    {
        false
    }
}

impl<C: Cycle> Iterator for Rev<CycleIter<C>> {
    type Item = C;

    // The call returns the next value and moves back by one place.
    ghost next_gives = { λ old r new. (r ≡ Some old) × IsBehind C.Cycle 1 old new };

    /// Returns the next value, always `Some`. From January it returns January, December, November
    /// and so on.
    fn next(&mut self) -> Option<C> {
        let item = self.forward.next;
        self.forward.next = nth_back_in(item, 1);
        Some(item)
    }

    /// Returns `(usize::MAX, None)`, because the iterator has no end.
    fn size_hint(&self) -> (usize, Option<usize>)
        ensures lower { IsWithinCount result.0 endless }
        ensures upper { IfSome result.1 (UpTo endless) }
        ensures value { result ≡ (usize.MAX, None) }
    {
        (usize::MAX, None)
    }
}
