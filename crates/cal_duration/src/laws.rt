//! Consequences of the parsers: a text has at most one value, and a printed value parses back.
ghost use Rattle.std.specs.Prelude.{◌≡◌, ℤ, Ok};
ghost use Rattle.cal_schedule.specs.Period.{Parts};
ghost use Rattle.cal_duration.specs.Values.{IsDurationText, IsPeriodText};

use crate::error::ParseDurationError;
use crate::{duration, period};
use cal_schedule::Period;
use cal_time::SignedDuration;

/// Parses a period. A text is the text of at most one period.
pub(crate) fn one_period(text: &[u8]) -> Result<Period, ParseDurationError>
    ensures { (p q : Parts) → IsPeriodText text.now p → IsPeriodText text.now q → p ≡ q }
{
    period::parse(text)
}

/// Parses an exact duration. A text is the text of at most one duration.
pub(crate) fn one_duration(text: &[u8]) -> Result<SignedDuration, ParseDurationError>
    ensures { (v w : ℤ) → IsDurationText text.now v → IsDurationText text.now w → v ≡ w }
{
    duration::parse(text)
}

/// Prints a period and parses it, which gives it back.
pub(crate) fn period_read_back(period: Period) -> Result<Period, ParseDurationError>
    ensures { result ≡ Ok period }
{
    let text = period::Text::new(period);
    period::parse(text.as_bytes())
}

/// Prints an exact duration and parses it, which gives it back.
pub(crate) fn duration_read_back(
    duration: SignedDuration,
) -> Result<SignedDuration, ParseDurationError>
    ensures { result ≡ Ok duration }
{
    let text = duration::text(duration);
    duration::parse(text.as_bytes())
}
