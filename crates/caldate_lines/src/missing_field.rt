//! Fields that a line lacks.

/// A field that a line lacks, and how many fields it has.
#[derive(Clone, Copy, Debug, PartialEq, Eq)]
pub struct MissingField {
    /// The number of the field, counted from 1. Of neighbouring fields it is the last.
    pub number: u32,
    /// How many fields the line has.
    pub count: u32,
}
