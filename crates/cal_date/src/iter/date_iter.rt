//! The iterator over days from both ends.
ghost use Rattle.std.specs.Prelude.{◌≡◌, ℕ, ◌+◌, ◌-◌, ◌<◌, ◌≤◌, IfSome, IsSomeAnd, None, true, ⊤, slice_get, reverse, length};
ghost use Rattle.std.specs.Iterator.{YieldsFirst, YieldsLast, UpTo, item_count};
ghost use Rattle.std.specs.Iterator.SizeHint.{IsWithinCount};
ghost use Rattle.std.specs.List.Sorted.{IsSorted};
ghost use Rattle.std.specs.Ordering.{nat_cmp};
ghost use Rattle.std.proofs.Common.{rules};
ghost use Rattle.std.specs.Cmp.Rules.{comparing};
ghost use Rattle.cal_date.specs.Date.{last_day, year_at, ordinal_at, HasOrdinalDate};
ghost use Rattle.cal_date.specs.DateIter.{IsInOneYear, TakesFirst, TakesLast, walk_between, walk_eq, days_of, without_first, without_last};

use crate::date::Date;
use std::marker::Model;

/// An iterator over the days from one date to another, both included, from both ends.
///
/// It has a front day and a back day. An empty iterator keeps its front day, has no back day, and
/// always returns `None`. Two iterators are equal if their front days and their back days are
/// equal, so two empty iterators with different front days aren't.
#[derive(Debug, Drop)]
pub struct DateIter {
    front: Date,
    back: Option<Date>,
}

impl Model for DateIter {
    ghost use Rattle.cal_date.specs.DateIter.{Walk, IsWalk, walk};

    ghost Value = { Walk };

    ghost view = { λ a. walk a.front a.back };

    ghost invariant = { λ a. IsWalk (walk a.front a.back) };
}

impl Date {
    /// Creates an iterator from this date to `end`, both included. It is empty if this date is
    /// after `end`. From 2019-12-30 to 2020-01-02 it has four days.
    pub fn iter_to(self, end: Self) -> DateIter
        ensures { result ≡ walk_between self end }
    {
        DateIter::new(self, end)
    }
}

impl DateIter {
    /// Creates an iterator from `start` to `end`, both included. It is empty if `start` is after
    /// `end`. From 2019-12-30 to 2020-01-02 it has four days.
    ///
    /// The front day is `start`. The back day is `end`, or none if the iterator is empty.
    pub fn new(start: Date, end: Date) -> Self
        ensures { result ≡ walk_between start end }
    {
        end.is_in_range();
        DateIter {
            front: start,
            back: if start <= end { Some(end) } else { None },
        }
    }

    /// Skips `n` days from the front and returns the day after them. `nth(0)` is `next()`.
    ///
    /// Returns `None` if `n` days or fewer are left; then the iterator is empty. From 2019-12-30 to
    /// 2020-01-02, `nth(2)` is 2020-01-01, and 2020-01-02 is left.
    pub fn nth(&mut self, n: usize) -> Option<Date>
        ensures value { result ≡ slice_get (days_of self.old) n }
        ensures remaining { self.new ≡ without_first (n + 1) self.old }

        // If the front day and the back day are in one year, the ordinals give the result.
        ensures same_year { (back : ℕ) → IsInOneYear self.old back
            → ordinal_at self.old.front + n ≤ ordinal_at back
            → IsSomeAnd result (HasOrdinalDate (year_at back) (ordinal_at self.old.front + n)) }
        ensures past_back { (back : ℕ) → IsInOneYear self.old back
            → ordinal_at back < ordinal_at self.old.front + n
            → result ≡ None }
    {
        let back = self.back?;
        if n >= self.len() {
            self.back = None;
            return None;
        }
        let item = self.front.add_days(n as u32);
        self.advance_front_past(item, back);
        Some(item)
    }

    /// Skips `n` days from the back and returns the day before them. `nth_back(0)` is
    /// `next_back()`.
    ///
    /// Returns `None` if `n` days or fewer are left; then the iterator is empty. From 2019-12-30 to
    /// 2020-01-02, `nth_back(2)` is 2019-12-31, and 2019-12-30 is left.
    pub fn nth_back(&mut self, n: usize) -> Option<Date>
        ensures value { result ≡ slice_get (reverse (days_of self.old)) n }
        ensures remaining { self.new ≡ without_last (n + 1) self.old }

        // If the front day and the back day are in one year, the ordinals give the result.
        ensures same_year { (back : ℕ) → IsInOneYear self.old back
            → ordinal_at self.old.front + n ≤ ordinal_at back
            → IsSomeAnd result (HasOrdinalDate (year_at back) (ordinal_at back - n)) }
        ensures past_front { (back : ℕ) → IsInOneYear self.old back
            → ordinal_at back < ordinal_at self.old.front + n
            → result ≡ None }
    {
        let back = self.back?;
        if self.len() <= n {
            self.back = None;
            return None;
        }
        let item = back.sub_days(n as u32);
        self.advance_back_past(item, back);
        Some(item)
    }

    /// Returns the number of days left, from 0 to 730484634. From 2019-12-30 to 2020-01-02 it is 4.
    #[tactic(auto, using(crate::proofs::DateIters::lengths))]
    pub fn len(&self) -> usize
        ensures value { result ≡ length (days_of self.now) }
        ensures max { result ≤ last_day + 1 }
        ensures same_year { (back : ℕ) → IsInOneYear self.now back
            → result + ordinal_at self.now.front ≡ ordinal_at back + 1 }
    {
        let Some(back) = self.back else {
            return 0;
        };
        self.front.days_until(back) as usize + 1
    }

    /// Returns the number of days left, like [`Self::len`]. From 2019-12-30 to 2020-01-02 it is 4.
    pub fn count(self) -> usize
        ensures { result ≡ length (days_of self) }
    {
        self.len()
    }

    /// Returns the last day, or `None` if the iterator is empty. From 2019-12-30 to 2020-01-02 it
    /// is 2020-01-02.
    #[tactic(auto, using(crate::proofs::DateIters::items))]
    pub fn last(self) -> Option<Date>
        ensures { result ≡ slice_get (reverse (days_of self)) 0 }
    {
        self.back
    }

    /// Returns the maximum day, the last one, or `None` if the iterator is empty. From 2019-12-30
    /// to 2020-01-02 it is 2020-01-02.
    #[tactic(auto, using(crate::proofs::DateIters::items))]
    pub fn max(self) -> Option<Date>
        ensures { result ≡ slice_get (reverse (days_of self)) 0 }
    {
        self.back
    }

    /// Returns the minimum day, the first one, or `None` if the iterator is empty. From 2019-12-30
    /// to 2020-01-02 it is 2019-12-30.
    #[tactic(auto, using(crate::proofs::DateIters::items))]
    pub fn min(self) -> Option<Date>
        ensures { result ≡ slice_get (days_of self) 0 }
    {
        match self.back {
            Some(_) => Some(self.front),
            None => None,
        }
    }

    /// Returns `true`, because the days ascend.
    #[tactic(auto, using(crate::proofs::DateIters::items))]
    pub fn is_sorted(self) -> bool
        ensures value { result ≡ true }
        ensures sorted { IsSorted nat_cmp (days_of self) }
    {
        true
    }

    /// Returns a separate iterator over the same days. After `next` on the clone of an iterator
    /// over 4 days, the clone has 3 days left, and the original still has 4.
    pub fn clone(&self) -> Self
        ensures { result ≡ self.now }
    {
        DateIter {
            front: self.front,
            back: self.back,
        }
    }

    /// Removes the days up to `item`, which is one of them. `back` is the back day.
    #[tactic(auto, using(crate::proofs::DateIters::days_left_after))]
    fn advance_front_past(&mut self, item: Date, back: Date)
        requires back { self.old.back ≡ Some back }
        requires from_front { self.old.front ≤ item }
        requires to_back { item ≤ back }
        ensures { self.new ≡ without_first (item + 1 - self.old.front) self.old }
    {
        if item < back {
            self.front = item.day_after();
        } else {
            self.back = None;
        }
    }

    /// Removes the days from `item` on, which is one of them. `back` is the back day.
    #[tactic(auto, using(crate::proofs::DateIters::days_left_before))]
    fn advance_back_past(&mut self, item: Date, back: Date)
        requires back { self.old.back ≡ Some back }
        requires from_front { self.old.front ≤ item }
        requires to_back { item ≤ back }
        ensures { self.new ≡ without_last (back + 1 - item) self.old }
    {
        if self.front < item {
            self.back = Some(item.day_before());
        } else {
            self.back = None;
        }
    }
}

impl PartialEq for DateIter {
    ghost eq = { walk_eq };

    ghost laws = { Prim.search (comparing, rules) };

    fn eq(&self, other: &Self) -> bool {
        self.front == other.front && self.back == other.back
    }
}

impl Eq for DateIter {
    ghost laws = { Prim.search (comparing, rules) };
}

impl Iterator for DateIter {
    type Item = Date;

    // The call returns the first day and removes it.
    ghost next_gives = { λ old result new.
        YieldsFirst days_of old result new × TakesFirst old result new };

    ghost remaining = { item_count days_of };

    /// Removes and returns the first day, or returns `None` if the iterator is empty. From
    /// 2019-12-30 to 2020-01-02 it is 2019-12-30.
    fn next(&mut self) -> Option<Date> {
        let back = self.back?;
        let item = self.front;
        self.advance_front_past(item, back);
        Some(item)
    }

    /// Returns the number of days left as both bounds. From 2019-12-30 to 2020-01-02 it is
    /// `(4, Some(4))`.
    fn size_hint(&self) -> (usize, Option<usize>)
        ensures lower { IsWithinCount result.0 (item_count days_of self.now) }
        ensures upper { IfSome result.1 (UpTo (item_count days_of self.now)) }
        ensures value { let n = length (days_of self.now) in result ≡ (n, Some n) }
    {
        let length = self.len();
        (length, Some(length))
    }
}

impl DoubleEndedIterator for DateIter {
    // The call returns the last day and removes it.
    ghost next_back_gives = { λ old result new.
        YieldsLast days_of old result new × TakesLast old result new };

    /// Removes and returns the last day, or returns `None` if the iterator is empty. From
    /// 2019-12-30 to 2020-01-02 it is 2020-01-02.
    fn next_back(&mut self) -> Option<Date> {
        let item = self.back?;
        self.advance_back_past(item, item);
        Some(item)
    }
}
