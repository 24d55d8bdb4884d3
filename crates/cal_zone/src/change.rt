//! Changes of a zone's clocks.

use crate::LocalType;

/// A change of a zone's clocks. They have its type from its instant on, until the next change.
#[derive(Clone, Copy, Debug, PartialEq, Eq)]
pub struct Change {
    /// The Unix time of the change, in seconds.
    pub at: i64,
    /// How the clocks are set from then on.
    pub kind: LocalType,
}
