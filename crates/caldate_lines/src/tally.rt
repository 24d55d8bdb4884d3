//! Counts of the lines of a run.
ghost use Rattle.std.specs.Prelude.{◌≡◌, Some, MatchOption};
ghost use Rattle.caldate_lines.specs.RunStates.{more};

use crate::unanswered::UnansweredLine;

/// The number of lines so far, and those without an answer. Each number is at most `u64::MAX`.
#[derive(Clone, Copy, Debug, PartialEq, Eq)]
pub struct Tally {
    /// The number of lines.
    pub lines: u64,
    /// The number of lines without an answer.
    pub unanswered: u64,
    /// The first line without an answer.
    pub first: Option<UnansweredLine>,
}

impl Tally {
    /// Counts a line.
    pub fn count(&mut self)
        ensures { self.new ≡ record self.old { lines = more self.old.lines } }
    {
        self.lines = self.lines.saturating_add(1);
    }

    /// Counts a line without an answer, and keeps the first one.
    pub fn count_unanswered(&mut self, line: UnansweredLine)
        ensures lines { self.new.lines ≡ more self.old.lines }
        ensures unanswered { self.new.unanswered ≡ more self.old.unanswered }
        ensures first { MatchOption self.old.first (self.new.first ≡ Some line)
            (λ first. self.new.first ≡ Some first) }
    {
        self.count();
        self.unanswered = self.unanswered.saturating_add(1);
        if self.first.is_none() {
            self.first = Some(line);
        }
    }
}
