//! Errors of changes and a rule that are not a zone.

use crate::ChangeError;

/// An error: changes and a rule are not a zone.
#[derive(Clone, Copy, Debug, PartialEq, Eq)]
pub enum TimelineError {
    /// The changes are not in order.
    Change(ChangeError),
    /// The gap or fold of the last change overlaps the gap or fold of the rule's next change.
    Junction,
}
