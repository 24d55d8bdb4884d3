//! Times of day and durations, rounded.
ghost use Rattle.std.specs.Prelude.{ℕ, IfSome};
ghost use Rattle.cal_time.specs.SignedDuration.{hour};
ghost use Rattle.cal_rounding.specs.Rounding.{IsRounded, IsRoundedTime};
ghost use Rattle.cal_rounding.specs.declared.rounding_mode.RoundingMode.TheVariants as mode;

use cal_rounding::{RoundingMode, RoundingUnit, round_duration, round_time};
use cal_time::{SignedDuration, Time};
use std::io;

/// Returns the start of the quarter of an hour that a time of day is in.
fn quarter_hour(time: Time) -> Option<Time>
    ensures { IfSome result (λ t. (unit : ℕ) × IsRoundedTime mode.Floor unit time t) }
{
    let quarter = RoundingUnit::new(SignedDuration::minutes(15))?;
    Some(round_time(time, quarter, RoundingMode::Floor))
}

/// Returns a duration in whole hours, where each hour that has begun counts.
fn begun_hours(worked: SignedDuration) -> Option<SignedDuration>
    ensures { IfSome result (λ v. IsRounded mode.Ceil hour worked v) }
{
    round_duration(worked, SignedDuration::HOUR, RoundingMode::Ceil)
}

pub fn show(rt: &impl Print) -> io::Result<()> {
    let Ok(time) = Time::from_hms(9, 40, 0) else {
        return Ok(());
    };
    match (
        quarter_hour(time),
        begun_hours(SignedDuration::minutes(100)),
    ) {
        (Some(quarter), Some(hours)) => println!(rt; "{quarter} {hours}"),
        _ => Ok(()),
    }
}
