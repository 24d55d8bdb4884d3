//! The errors of a run.

/// An error that ends a run.
#[derive(Clone, Copy, Debug, PartialEq, Eq)]
pub enum Fault {
    /// The input is longer than 4096 bytes.
    TooLong,
    /// A read failed.
    Read,
    /// A write failed, or took nothing.
    Write,
}
