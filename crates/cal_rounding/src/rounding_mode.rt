//! Modes of rounding.

/// How to round to a multiple of a unit. The names are those of Temporal.
///
/// `-7.5` and `2.5`, rounded to whole numbers, are `-8` and `2` by `Floor`, `-7` and `3` by `Ceil`,
/// `-7` and `2` by `Trunc`, `-7` and `3` by `HalfCeil`, and `-8` and `2` by `HalfEven`.
#[derive(Clone, Copy, Debug, PartialEq, Eq, Hash)]
pub enum RoundingMode {
    /// Down, to the last multiple that isn't greater.
    Floor,
    /// Up, to the first multiple that isn't less.
    Ceil,
    /// Toward zero. For times of day and date-times it is the same as `Floor`.
    Trunc,
    /// To the nearest multiple, and up if two are equally near.
    HalfCeil,
    /// To the nearest multiple, and to the even one if two are equally near: the unit times an even
    /// number.
    HalfEven,
}
