//! The order, the equality and the hash of values, by their numbers.
ghost use Rattle.std.specs.Prelude.{◌≡◌, ◌↔◌, ◌<ℤ◌, IsTrue};

use crate::tests::hash_of;
use cal_time::{Counted, SignedDuration, UtcOffset};
use std::cmp::Ordering;

pub fn is_below<T: Counted>(a: T, b: T) -> bool
    ensures { IsTrue result ↔ (T.number_of a <ℤ T.number_of b) }
{
    a < b
}

pub fn is_same<T: Counted>(a: T, b: T) -> bool
    ensures { IsTrue result ↔ (T.number_of a ≡ T.number_of b) }
{
    a == b
}

/// Returns the hashes of two values, which are equal if the values are.
pub fn hashes<T: Counted>(a: T, b: T) -> (u64, u64)
    ensures { IsTrue (T.eq a b) → result.0 ≡ result.1 }
{
    (hash_of(&a), hash_of(&b))
}

/// Returns the order of two values, and whether they are equal.
pub fn order_and_equality<T: Counted>(a: T, b: T) -> (bool, bool)
    ensures { result.0 ≡ result.1 }
{
    (a.cmp(&b) == Ordering::Equal, a == b)
}

/// Compares two durations, and their nanoseconds.
pub fn orders_of_durations(a: SignedDuration, b: SignedDuration) -> (Ordering, Ordering)
    ensures { result.0 ≡ result.1 }
{
    (a.cmp(&b), a.whole_nanoseconds().cmp(&b.whole_nanoseconds()))
}

/// Compares two offsets, and their seconds.
pub fn orders_of_offsets(a: UtcOffset, b: UtcOffset) -> (Ordering, Ordering)
    ensures { result.0 ≡ result.1 }
{
    (a.cmp(&b), a.whole_seconds().cmp(&b.whole_seconds()))
}
