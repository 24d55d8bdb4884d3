//! Each contract that isn't a plain equation allows only one result: two calls return the same.
ghost use Rattle.std.specs.Prelude.{◌≡◌};
ghost use Rattle.cal_zone.specs.Timeline.{InOrder, IsMoment};

use crate::tests::one_answer::Twice;
use cal_tzif::ZoneError;
use cal_zone::{Guesses, Span, UncheckedZone, Zone};

fn parse(bytes: &[u8]) -> Twice<Result<Zone<'_>, ZoneError>>
    ensures { result.0 ≡ result.1 }
{
    (cal_tzif::parse(bytes), cal_tzif::parse(bytes))
}

fn parse_posix(text: &[u8]) -> Twice<Result<Zone<'_>, ZoneError>>
    ensures { result.0 ≡ result.1 }
{
    (cal_tzif::parse_posix(text), cal_tzif::parse_posix(text))
}

fn span_at(zone: &UncheckedZone<'_>, instant: i64, guesses: &mut Guesses) -> Twice<Span>
    ensures { InOrder zone.now → result.0 ≡ result.1 }
{
    (zone.span_at(instant), zone.span_by(instant, guesses))
}

fn single(span: Span, reading: i64) -> Twice<Option<i64>>
    requires { IsMoment reading }
    ensures { result.0 ≡ result.1 }
{
    (span.single(reading), span.single(reading))
}
