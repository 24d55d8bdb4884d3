//! Why a date or moment that was read has no answer.
ghost use Rattle.std.specs.Prelude.{◌≡◌};
ghost use Rattle.caldate_answers.specs.Answers.{IsWhyNotMoved, IsWhyUnanswered, IsWhyUnmoved, why_rejected};

use crate::answer::clock_moves::moved_on;
use crate::answer::moment_of;
use crate::request::{Clock, Move, Request};
use cal_datetime::OffsetDateTime;
use cal_schedule::Workdays;
use cal_text::DateOrMoment;
use cal_zone::LocalTimeError;
use caldate_lines::no_answer::NoAnswer;

/// Returns why a date or moment has no answer: `Skipped` or `Repeated` if the policy rejects the
/// time to which it moves, and otherwise `None`.
#[inline(never)]
pub fn why_unanswered(
    clock: &Option<Clock<'_>>,
    workdays: &Workdays<'_>,
    request: &Request<'_>,
    found: &DateOrMoment,
) -> NoAnswer
    ensures { IsWhyUnanswered clock.now workdays.now request.now found.now result }
{
    match request {
        Request::Move(by) => why_not_moved(clock, workdays, *by, found),
        Request::MoveAt(own, by) => why_unmoved(own, workdays, *by, moment_of(found)),
        Request::To(_)
        | Request::ToIso
        | Request::Print(_)
        | Request::PrintInLanguage(_, _)
        | Request::Until(_, _, _)
        | Request::Since(_, _, _)
        | Request::At(_, _)
        | Request::PrintAt(_, _)
        | Request::PrintInLanguageAt(_, _, _)
        | Request::Keep(_) => NoAnswer::None,
    }
}

/// Returns the reason for a move by the clocks of `--zone`, by which only a moment moves.
fn why_not_moved(
    clock: &Option<Clock<'_>>,
    workdays: &Workdays<'_>,
    by: Move,
    found: &DateOrMoment,
) -> NoAnswer
    ensures { IsWhyNotMoved clock.now workdays.now by found.now result }
{
    match clock {
        Some(clock) => match found {
            DateOrMoment::Date(_, _) => NoAnswer::None,
            DateOrMoment::Moment(_, moment) => why_unmoved(clock, workdays, by, *moment),
        },
        None => NoAnswer::None,
    }
}

/// Returns the reason for a move of a moment.
fn why_unmoved(
    clock: &Clock<'_>,
    workdays: &Workdays<'_>,
    by: Move,
    moment: OffsetDateTime,
) -> NoAnswer
    ensures { IsWhyUnmoved clock.now workdays.now by moment result }
{
    match moved_on(clock, workdays, by, moment) {
        Ok(_) => NoAnswer::None,
        Err(error) => why_rejected(error),
    }
}

fn why_rejected(error: LocalTimeError) -> NoAnswer
    ensures { result ≡ why_rejected error }
{
    match error {
        LocalTimeError::Skipped => NoAnswer::Skipped,
        LocalTimeError::Repeated => NoAnswer::Repeated,
        LocalTimeError::OutOfRange => NoAnswer::None,
    }
}
