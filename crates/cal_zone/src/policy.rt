//! Policies for readings in a gap or a fold.

/// The meaning of a reading that clocks skip or show twice, with the names of Temporal.
///
/// In a gap, it is the instant of the reading by the offset before or after the gap. [`Local`] and
/// `Instants` return the reading moved by the length of the gap, with the other offset. In
/// `cal_zoned` it is what the clocks show at this instant, which differs if they change again within
/// this length.
///
/// [`Local`]: crate::Local
#[derive(Clone, Copy, Debug, PartialEq, Eq)]
pub enum Policy {
    /// `Later` in a gap, and `Earlier` in a fold.
    Compatible,
    /// By the offset after a gap, and the first date-time of a fold.
    Earlier,
    /// By the offset before a gap, and the second date-time of a fold.
    Later,
    /// Nothing.
    Reject,
}
