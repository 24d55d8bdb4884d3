//! Values with a number, and functions on slices of them.
ghost use Rattle.std.specs.Prelude.{◌≡◌, ◌↔◌, ◌⊎◌, ℤ, ◌<ℤ◌, ◌≤ℤ◌, [], MatchOption, IsTrue};
ghost use Rattle.std.specs.Ordering.{int_cmp};
ghost use Rattle.cal_units.specs.Counted.{IsExtent, IsRising};

use std::hash::Hash;

/// A value with a whole number that decides its order, its equality and its hash.
pub trait Counted: Copy + Ord + Hash {
    // The number of a value.
    ghost number_of: { Self → ℤ };

    /// Returns the number of the value. For a date it is the Julian day, for a time of day the
    /// nanoseconds since midnight: 2000-01-01 has 2451545, and 1:00 has 3600000000000.
    fn number(self) -> i128
        ensures { result ≡ number_of self };

    // Values are ordered by their numbers.
    ghost cmp_by_number: { (x y : Self) → Self.cmp x y ≡ int_cmp (number_of x) (number_of y) };

    // Two values are equal if and only if their numbers are equal.
    ghost eq_by_number: { (x y : Self) → IsTrue (Self.eq x y) ↔ (number_of x ≡ number_of y) };

    // Two values with the same number feed the same input to a hasher.
    ghost hash_by_number: { (x y : Self) → number_of x ≡ number_of y
        → Self.hash_input x ≡ Self.hash_input y };
}

/// Returns the minimum and the maximum of the slice, or `None` if it is empty.
///
/// If several items have the same number, the first of them is returned. For the durations 2 s,
/// -1 s and 5 s the result is -1 s and 5 s.
pub fn extent<T: Counted>(items: &[T]) -> Option<(T, T)>
    ensures { MatchOption result (items.now ≡ []) (IsExtent T.number_of items.now) }
{
    let (first, rest) = items.split_first()?;
    let mut minimum = *first;
    let mut maximum = *first;
    for item in rest {
        if *item < minimum {
            minimum = *item;
        }
        if *item > maximum {
            maximum = *item;
        }
    }
    Some((minimum, maximum))
}

/// Returns `true` if each item is less than the next one, or if there are fewer than two items. The
/// durations -1 s, 2 s and 5 s are rising; -1 s, 2 s and 2 s aren't.
pub fn is_rising<T: Counted>(items: &[T]) -> bool
    ensures { IsTrue result ↔ IsRising T.number_of items.now }
{
    for i in 1..items.len() {
        if !(items[i - 1] < items[i]) {
            return false;
        }
    }
    true
}
