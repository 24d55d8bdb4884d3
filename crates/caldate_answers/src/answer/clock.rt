//! Moments of strings without an offset, by the clocks of a zone.
ghost use Rattle.std.specs.Prelude.{◌≡◌, ℤ, Option, Result};
ghost use Rattle.cal_text.specs.declared.any.DateOrMoment.{DateOrMoment};
ghost use Rattle.caldate_lines.specs.declared.no_answer.NoAnswer.{NoAnswer};
ghost use Rattle.caldate_answers.specs.Clocks.{IsOnClock, IsPlaced, why_none};

use crate::request::Clock;
use cal_datetime::OffsetDateTime;
use cal_text::{DateOrMoment, MomentForm};
use cal_zone::LocalTimeError;
use cal_zone::laws::one_local;
use caldate_lines::no_answer::NoAnswer;

/// Replaces a moment by the one at which clocks show its local time, if there are clocks.
#[inline(always)]
pub fn placed(clock: &Option<Clock<'_>>, found: DateOrMoment) -> Result<DateOrMoment, NoAnswer>
    ensures value { IsPlaced clock.now found result }
    ensures one { (r : Result DateOrMoment NoAnswer) → IsPlaced clock.now found r → result ≡ r }
{
    let Some(clock) = clock else {
        return Ok(found);
    };
    match found {
        DateOrMoment::Date(form, date) => Ok(DateOrMoment::Date(form, date)),
        DateOrMoment::Moment(form, moment) => on_clock(clock, form, moment),
    }
}

/// Returns the moment at which the clocks show the local time.
#[inline(never)]
#[tactic(auto, using(crate::proofs::OneMoment::one_moment))]
fn on_clock(
    clock: &Clock<'_>,
    form: MomentForm,
    moment: OffsetDateTime,
) -> Result<DateOrMoment, NoAnswer>
    ensures value { IsOnClock clock.now form moment.local result }
    ensures one { (r : Result DateOrMoment NoAnswer)
        → IsOnClock clock.now form moment.local r → result ≡ r }
{
    one_local(&clock.zone);
    match clock.zone.resolve(moment.local()).select(clock.policy) {
        Ok(moment) => Ok(DateOrMoment::Moment(form, moment)),
        Err(error) => Err(why_none(error)),
    }
}

fn why_none(error: LocalTimeError) -> NoAnswer
    ensures { result ≡ why_none error }
{
    match error {
        LocalTimeError::Repeated => NoAnswer::Repeated,
        LocalTimeError::Skipped | LocalTimeError::OutOfRange => NoAnswer::Skipped,
    }
}
