//! The reasons why a run fails.
ghost use Rattle.std.specs.Prelude.{◌≡◌};
ghost use Rattle.caldate_lines.specs.Ending.{is_closed};

use crate::tally::Tally;
use crate::unanswered::UnansweredLine;
use std::io::ErrorKind;

/// A reason why a run fails.
#[derive(Clone, Copy, Debug, PartialEq, Eq)]
pub enum RunError {
    /// A read failed.
    Read,
    /// A write failed with this kind of error, which is `WriteZero` if it took nothing.
    Write(ErrorKind),
    /// The run ended at this line, which has no answer.
    Stopped(UnansweredLine),
    /// The run is complete, but some of its lines have no answer.
    Unanswered(Tally),
}

/// Returns whether the error says that nobody reads the output any more: a broken pipe.
pub fn is_closed(kind: ErrorKind) -> bool
    ensures { result ≡ is_closed kind }
{
    kind == ErrorKind::BrokenPipe
}
