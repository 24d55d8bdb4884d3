//! The errors of names.

/// An error: two values could have the same string in a format with the names of a table.
#[derive(Clone, Copy, Debug, PartialEq, Eq)]
pub enum NamesError {
    /// Two names of an item: the other name is the first one, or the first one goes on to it with
    /// what comes after the item. The index of the item in the format, and the indices of the names
    /// in their table, from 0. With Turkish names, `%Atesi` is `AmbiguousNames(0, 6, 0)`: `Pazar`
    /// goes on to `Pazartesi`.
    AmbiguousNames(usize, usize, usize),
    /// A number, a fraction or a sign goes on with what comes after it. The index of the item in the
    /// format, from 0, and the first such byte. With Japanese names, `%-d%B` is
    /// `AmbiguousNumber(0, b'1')`, as the name of January begins with `1`.
    AmbiguousNumber(usize, u8),
}
