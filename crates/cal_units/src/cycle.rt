//! Types whose values form a cycle.
ghost use Rattle.std.specs.Prelude.{◌≡◌, ◌<◌, ℕ};

/// A type whose values follow each other in a cycle, such as the months or the weekdays. Each value
/// has an index from 0 to `LENGTH` - 1, and each of these indexes has one value.
pub trait Cycle: Copy {
    /// The number of values: 12 for `Month`, 7 for `Weekday`.
    const LENGTH: u8;

    // The number of values, as contracts name it.
    ghost LENGTH: { ℕ };

    // The index of a value.
    ghost index_of: { Self → ℕ };

    // The value at an index.
    ghost value_at: { ℕ → Self };

    /// Returns the index of the value, counted from 0 at January or Monday. The index of May is 4.
    fn place(self) -> u8
        ensures { result ≡ index_of self };

    /// Returns the value at the index `place`, which must be below `LENGTH`. `Month::at(4)` is May.
    fn at(place: u8) -> Self
        requires { place < LENGTH }
        ensures { result ≡ value_at place };

    // The index of a value is below `LENGTH`.
    ghost index_below: { (x : Self) → index_of x < LENGTH };

    // The value at the index of x is x.
    ghost value_at_index: { (x : Self) → value_at (index_of x) ≡ x };

    // The index of the value at i is i, if i is below `LENGTH`.
    ghost index_of_value: { (i : ℕ) → i < LENGTH → index_of (value_at i) ≡ i };
}
