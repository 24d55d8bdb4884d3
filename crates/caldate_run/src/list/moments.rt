//! Lists of moments in steps of one length, by the clocks of a zone.
ghost use Rattle.std.specs.Prelude.{◌≡◌, ◌<◌, IfSome, MatchOption};
ghost use Rattle.caldate_lines.specs.Calls.{Writes, write_failure};
ghost use Rattle.caldate_answers.specs.ClockMoves.{IsMovedOn};
ghost use Rattle.caldate_answers.specs.Moves.{monday_to_friday};
ghost use Rattle.caldate_args.specs.Lists.{IsStep};
ghost use Rattle.caldate_run.specs.Steps.{IsPastSteps, IsStepTo, ListsSteps, is_later, step_move};

use crate::list::FAR;
use cal_datetime::OffsetDateTime;
use cal_time::SignedDuration;
use cal_zone::LocalTimeError;
use cal_zone::laws::one_local;
use caldate_answers::answer::clock_moves::moved_on;
use caldate_answers::answer::moves::workdays;
use caldate_answers::request::{DayMove, Move};
use caldate_args::args::clock_words::rfc3339_or_unix_text;
use caldate_args::command::{Moments, StepUnit};
use caldate_lines::output::Output;
use caldate_lines::run_error::RunError;
use caldate_lines::streams::Sink;

/// Writes the moments of the list in order, each in RFC 3339 at the offset of the zone with a line
/// feed. Two steps can lead to one moment, as to a day that the zone skips and to the next: it is
/// written once. After a `RunError::Write`, only a part of the lines was written.
pub fn list_moments<W: Sink>(moments: &Moments<'_>, writer: &mut W) -> Result<(), RunError>
    requires { IsStep moments.now.step }
    ensures lists { ListsSteps moments.now result (W.contents writer.old) (W.contents writer.new) }
    ensures writes { Writes W.write_gives writer.old (write_failure result) writer.new }
{
    let mut output = Output::new();
    let mut before = None;
    let mut count = 0;
    while let Some(moment) = moment_within(moments, count) {
        count += moments.step.every;
        if is_later(&before, moment) {
            match output.push_line(rfc3339_or_unix_text(moment).as_bytes(), writer) {
                Ok(()) => before = Some(moment),
                Err(error) => return Err(error),
            }
        }
    }
    output.finish(writer)
}

/// Returns whether the moment is after the moment listed before it, if any.
fn is_later(before: &Option<OffsetDateTime>, moment: OffsetDateTime) -> bool
    ensures { result ≡ is_later before.now moment }
{
    match before {
        Some(before) => *before < moment,
        None => true,
    }
}

/// Returns the moment `count` days or months after the first, or `None` past the last.
fn moment_within(moments: &Moments<'_>, count: u64) -> Option<OffsetDateTime>
    ensures step { MatchOption result (IsPastSteps moments.now count) (IsStepTo moments.now count) }
    ensures near { IfSome result (λ _. count < 1_000_000_000) }
{
    one_local(&moments.clock.zone);
    if count >= FAR {
        return None;
    }
    match step_to(moments, count) {
        Ok(moment) => {
            if moment > moments.last {
                return None;
            }
            Some(moment)
        }
        Err(_) => None,
    }
}

/// Returns the moment `count` days or months after the first.
fn step_to(moments: &Moments<'_>, count: u64) -> Result<OffsetDateTime, LocalTimeError>
    requires { count < 1_000_000_000 }
    ensures { IsMovedOn moments.now.clock monday_to_friday
        (step_move moments.now.step.unit count) moments.now.first result }
{
    let by = step_move(moments.step.unit, count);
    moved_on(&moments.clock, &workdays(), by, moments.first)
}

/// Returns the move by `count` days or months.
fn step_move(unit: StepUnit, count: u64) -> Move
    requires { count < 1_000_000_000 }
    ensures { result ≡ step_move unit count }
{
    match unit {
        StepUnit::Days => Move::Days(SignedDuration::days(count as i64)),
        StepUnit::Months => Move::Day(DayMove::Months(count as i64)),
    }
}
