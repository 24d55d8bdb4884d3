//! Each reader leaves one answer: two calls with the same text are proved to give the same.
ghost use Rattle.std.specs.Prelude.{◌≡◌};

use cal_datetime::{OffsetDateTime, PlainDateTime};
use cal_text::{
    DateOrMoment, ParseError, date, julian_day, offset, offset_date_time, parse_any, plain,
    rfc3339, time, unix,
};
use cal_time::{Date, Time, UtcOffset};

/// The results of two calls.
type Twice<T> = (Result<T, ParseError>, Result<T, ParseError>);

fn of_date(text: &[u8]) -> Twice<Date>
    ensures { result.0 ≡ result.1 }
{
    (date::parse(text), date::parse(text))
}

fn of_julian_day(text: &[u8]) -> Twice<Date>
    ensures { result.0 ≡ result.1 }
{
    (julian_day::parse(text), julian_day::parse(text))
}

fn of_time(text: &[u8]) -> Twice<Time>
    ensures { result.0 ≡ result.1 }
{
    (time::parse(text), time::parse(text))
}

fn of_offset(text: &[u8]) -> Twice<UtcOffset>
    ensures { result.0 ≡ result.1 }
{
    (offset::parse(text), offset::parse(text))
}

fn of_plain(text: &[u8]) -> Twice<PlainDateTime>
    ensures { result.0 ≡ result.1 }
{
    (plain::parse(text), plain::parse(text))
}

fn of_offset_date_time(text: &[u8]) -> Twice<OffsetDateTime>
    ensures { result.0 ≡ result.1 }
{
    (offset_date_time::parse(text), offset_date_time::parse(text))
}

fn of_rfc3339(text: &[u8]) -> Twice<OffsetDateTime>
    ensures { result.0 ≡ result.1 }
{
    (rfc3339::parse(text), rfc3339::parse(text))
}

fn of_unix(text: &[u8]) -> Twice<OffsetDateTime>
    ensures { result.0 ≡ result.1 }
{
    (unix::parse(text), unix::parse(text))
}

fn of_any(text: &[u8]) -> Twice<DateOrMoment>
    ensures { result.0 ≡ result.1 }
{
    (parse_any(text), parse_any(text))
}
