//! Zones in parts.

use crate::{Layout, LocalType, Rule};

/// A zone in parts. [`UncheckedZone::new`](crate::UncheckedZone::new) creates the zone from them,
/// and looks at no change for that.
#[derive(Clone, Copy, Debug)]
pub struct ZoneParts<'a> {
    /// How the clocks are set before the first change.
    pub first: LocalType,
    /// The bytes of the changes.
    pub bytes: &'a [u8],
    /// The positions of the changes in the bytes.
    pub layout: Layout,
    /// The rule after the last of these changes.
    pub rule: Option<Rule>,
    /// The number of changes of the rule, from the year -999999 on, that are not after the last of
    /// these changes.
    pub skip: u32,
}
