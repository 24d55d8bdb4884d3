//! Lists of the values of a pattern, without allocation.
ghost use Rattle.std.specs.Prelude.{⊤, ◌≡◌, ◌<◌, ◌≤◌, ◌==◌, ◌++◌, [], ◌∷◌, length, nat_le};
ghost use Rattle.std.specs.Cmp.Lexicographic.{pointwise, lists_equiv, lists_per};
ghost use Rattle.cal_schedule.specs.Values.{most_values};

use std::alloc::AllocError;
use std::fmt;
use std::marker::Model;

/// The maximum number of values of a list. A month has at most 31 days, counted from either end.
const MAX_VALUES: usize = 62;

/// A list of at most 62 values, without allocation. Contracts see it as a list.
#[derive(Drop)]
pub struct Values<T> {
    items: [T; MAX_VALUES],
    filled: usize,
}

impl<T> Model for Values<T> {
    ghost use Rattle.std.specs.Prelude.{◌≤◌, List, take};
    ghost use Rattle.cal_schedule.specs.Values.{most_values};

    ghost Value = { List T };

    ghost view = { λ values. take values.filled values.items };

    ghost invariant = { λ values. values.filled ≤ most_values };
}

impl<T> Values<T> {
    /// Returns the values, in order. For `Values::from_slice(&[1, 15], 0)` they are 1 and 15.
    pub fn as_slice(&self) -> &[T]
        ensures values { result.now ≡ self.now }
        ensures few { length result.now ≤ most_values }
    {
        &self.items[..self.filled]
    }

    /// Returns `true` if there are no values. A list that [`Self::none`] creates is empty.
    pub fn is_empty(&self) -> bool
        ensures { result ≡ (length self.now == 0) }
    {
        self.as_slice().is_empty()
    }
}

impl<T: Copy> Values<T> {
    /// Creates an empty list. `filler` fills the unused places, which no call sees.
    /// `Values::none(0)` is an empty list of numbers.
    pub fn none(filler: T) -> Self
        ensures { result ≡ [] }
    {
        Values {
            items: [filler; MAX_VALUES],
            filled: 0,
        }
    }

    /// Creates a list of these values, in order. There must be at most 62 of them. `filler` fills
    /// the unused places, which no call sees. `Values::from_slice(&[1, 15], 0)` has the values 1
    /// and 15.
    pub fn from_slice(values: &[T], filler: T) -> Self
        requires { length values.now ≤ most_values }
        ensures { result ≡ values.now }
    {
        let mut items = [filler; MAX_VALUES];
        items[..values.len()].copy_from_slice(values);
        Values {
            items,
            filled: values.len(),
        }
    }

    /// Copies the list.
    pub(super) fn copy(&self) -> Self
        ensures { result ≡ self.now }
    {
        Values {
            items: self.items,
            filled: self.filled,
        }
    }

    /// Returns `true` if the list has 62 values, the maximum. Then no value can be pushed.
    pub fn is_full(&self) -> bool
        ensures { result ≡ nat_le most_values (length self.now) }
    {
        self.as_slice().len() >= MAX_VALUES
    }

    /// Appends a value. The list must have fewer than 62 values: [`Self::is_full`] returns `false`.
    /// A list of 1 and 15 has 1, 15 and -1 after -1 is pushed.
    pub fn push(&mut self, value: T)
        requires { length self.old < most_values }
        ensures { self.new ≡ self.old ++ value ∷ [] }
    {
        self.items[self.filled] = value;
        self.filled += 1;
    }
}

impl<T: Copy> Clone for Values<T> {
    ghost is_clone = { λ values clone. clone ≡ values };

    ghost is_infallible = { λ _. ⊤ };

    fn clone(&self) -> Result<Self, AllocError> {
        Ok(self.copy())
    }
}

/// Two lists are equal if their values are equal, in order.
impl<T: PartialEq> PartialEq for Values<T> {
    ghost eq = { pointwise T.eq };

    ghost laws = { lists_per T.laws };

    fn eq(&self, other: &Self) -> bool {
        self.as_slice() == other.as_slice()
    }
}

impl<T: Eq> Eq for Values<T> {
    ghost laws = { lists_equiv T.Eq.laws };
}

/// Formats the list of the values.
impl<T: fmt::Debug> fmt::Debug for Values<T> {
    fn fmt<W: fmt::Write>(&self, f: &mut fmt::Formatter<W>) -> fmt::Result {
        f.debug_list().entries(self.as_slice()).finish()
    }
}
