//! Iterators by the promises of their bounds only.
ghost use Rattle.std.specs.Iterator.{IsFinite};

use cal_time::Date;
use cal_time::iter::DateIter;

pub fn next<I: Iterator>(walk: &mut I) -> Option<I::Item>
    requires { I.can_next walk.old }
{
    walk.next()
}

pub fn next_back<I: DoubleEndedIterator>(walk: &mut I) -> Option<I::Item>
    requires { I.can_next_back walk.old }
{
    walk.next_back()
}

/// Counts the items of any iterator that ends.
pub fn count_items<I: Iterator + Drop>(items: I) -> usize
where
    I::Item: Drop,
    requires goes { I.can_next items }
    requires ends { IsFinite (I.remaining items) }
{
    let mut count = 0usize;
    for _ in items {
        count = count.saturating_add(1);
    }
    count
}

/// Calls each on days, which meet its conditions.
fn days(walk: &mut DateIter) -> (Option<Date>, Option<Date>, usize) {
    (next(walk), next_back(walk), count_items(walk.clone()))
}
