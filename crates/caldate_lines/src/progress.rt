//! The progress of a run.
ghost use Rattle.std.specs.Prelude.{◌≡◌};
ghost use Rattle.caldate_lines.specs.RunStates.{quoting_of};

use crate::excerpt::Excerpt;
use crate::quoting::Quoting;
use crate::tally::Tally;

/// A record of how far a run is.
#[derive(Clone, Copy)]
pub struct Progress {
    /// The lines so far.
    pub tally: Tally,
    /// `true` if the next line is too long, so that its front was dropped.
    pub is_long: bool,
    /// The front of that line to show, if it is long.
    pub front: Excerpt,
    /// The state of the quotes after that front, if the line is long.
    pub quoting: Quoting,
}

impl Progress {
    /// Returns the state of the quotes at the next byte: at the start of a line, a quote opens them.
    pub fn quoting(&self) -> Quoting
        ensures { result ≡ quoting_of self.now }
    {
        if self.is_long {
            self.quoting
        } else {
            Quoting::Ready
        }
    }

    /// Returns the text to show of a line. `text` lacks the front if that was dropped.
    pub fn excerpt_of(&self, text: &[u8]) -> Excerpt {
        if self.is_long {
            self.front
        } else {
            Excerpt::new(text)
        }
    }
}
