//! The numbers of fields.

/// The numbers of one field, or of neighbouring fields.
#[derive(Clone, Copy)]
pub struct FieldNumbers {
    /// The number of the first field, counted from 1.
    pub first: u16,
    /// How many fields after the first one are joined to it.
    pub joined: u16,
}
