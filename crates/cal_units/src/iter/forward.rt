//! The forward iterator.
ghost use Rattle.std.specs.Prelude.{◌≡◌, true, false, Some, IfSome, IsSomeAnd};
ghost use Rattle.std.specs.Iterator.{UpTo, endless};
ghost use Rattle.std.specs.Iterator.SizeHint.{IsWithinCount};
ghost use Rattle.cal_units.specs.CycleSteps.{IsAhead, ShortCircuits};

use crate::cycle::Cycle;
use crate::iter::backward::Rev;
use crate::month::Month;
use crate::steps::{all_in, any_in, nth_in};
use std::marker::Model;

/// An endless iterator over a cycle: the start, then each value after it, again and again.
///
/// It never returns `None`, so limit it, for example with `MonthIter::new(Month::June).take(3)`.
/// Two iterators are equal if their next values are equal.
#[derive(Debug, PartialEq, Eq, Drop)]
pub struct CycleIter<C> {
    pub(super) next: C,
}

impl<C> Model for CycleIter<C> {
    ghost Value = { C };

    ghost view = { λ walk. walk.next };

    ghost inverse = { λ next. record { next = next } };
}

impl<C: Cycle> CycleIter<C> {
    /// Creates an iterator that starts at `start`. `MonthIter::new(Month::November)` returns
    /// November, December, January and so on.
    pub fn new(start: C) -> Self
        ensures { result ≡ start }
    {
        CycleIter { next: start }
    }

    /// Reverses the direction. The new iterator starts at the next value of this one.
    /// `MonthIter::new(Month::June).rev()` returns June, May, April and so on.
    pub fn rev(self) -> Rev<Self>
        ensures { result ≡ self }
    {
        Rev::new(self)
    }

    /// Returns a separate iterator with the same next value. The clone of an iterator from June
    /// returns June, then July. The original still returns June.
    pub fn clone(&self) -> Self
        ensures { result ≡ self.now }
    {
        CycleIter { next: self.next }
    }

    /// Skips `n` values and returns the value after them, always `Some`. `nth(0)` is `next()`. From
    /// June, `nth(2)` is August, and then `next()` is September.
    pub fn nth(&mut self, n: usize) -> Option<C>
        ensures { IsSomeAnd result (λ x.
            IsAhead C.Cycle n self.old x × IsAhead C.Cycle 1 x self.new) }
    {
        let value = nth_in(self.next, n);
        self.next = nth_in(value, 1);
        Some(value)
    }

    /// Returns `true` if `f` returns `true` for every value of the cycle. The iterator doesn't
    /// move.
    ///
    /// Calls `f` for each value from January or Monday on, until it returns `false`. For the
    /// condition "the number of the month is below 5" it calls `f` for January to May and returns
    /// `false`.
    pub fn all_once<F: FnMut(C) -> bool>(&mut self, f: F) -> bool
        requires { F.IsAlwaysCallable f }
        ensures value { ShortCircuits C.Cycle F.step true 0 f result }
        ensures unchanged { self.new ≡ self.old }
    {
        all_in(f)
    }

    /// Returns `true` if `f` returns `true` for some value of the cycle. The iterator doesn't move.
    ///
    /// Calls `f` for each value from January or Monday on, until it returns `true`. For the
    /// condition "the number of the month is above 4" it calls `f` for January to May and returns
    /// `true`.
    pub fn any_once<F: FnMut(C) -> bool>(&mut self, f: F) -> bool
        requires { F.IsAlwaysCallable f }
        ensures value { ShortCircuits C.Cycle F.step false 0 f result }
        ensures unchanged { self.new ≡ self.old }
    {
        any_in(f)
    }
}

impl CycleIter<Month> {
    ghost use Rattle.cal_units.specs.declared.month.Month.TheVariants.{January, December};

    /// Returns the minimum of all months, January. It is always `Some`.
    pub fn min(self) -> Option<Month>
        ensures { result ≡ Some January }
    {
        Some(Month::January)
    }

    /// Returns the maximum of all months, December. It is always `Some`.
    pub fn max(self) -> Option<Month>
        ensures { result ≡ Some December }
    {
        Some(Month::December)
    }

    /// Returns `false`: January comes after December.
    pub fn is_sorted(self) -> bool
        ensures { result ≡ false }
    {
        false
    }
}

impl<C: Cycle> Iterator for CycleIter<C> {
    type Item = C;

    // The call returns the next value and moves on by one place.
    ghost next_gives = { λ old r new. (r ≡ Some old) × IsAhead C.Cycle 1 old new };

    /// Returns the next value, always `Some`. From December it returns December, January, February
    /// and so on.
    fn next(&mut self) -> Option<C> {
        let item = self.next;
        self.next = nth_in(item, 1);
        Some(item)
    }

    /// Returns `(usize::MAX, None)`, because the iterator has no end.
    fn size_hint(&self) -> (usize, Option<usize>)
        ensures lower { IsWithinCount result.0 endless }
        ensures upper { IfSome result.1 (UpTo endless) }
        ensures value { result ≡ (usize.MAX, None) }
    {
        (usize::MAX, None)
    }
}
