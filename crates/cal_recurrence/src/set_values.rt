//! The values of a recurrence set by their kind.
ghost use Rattle.std.specs.Prelude.{◌≡◌, Bool, Option, filter_map};
ghost use Rattle.cal_recurrence.specs.SetMeaning.{day_of, instant_of, reading_of};
ghost use Rattle.cal_recurrence.specs.declared.date_or_time.DateOrTime.{DateOrTime as Value};

use crate::date_or_time::DateOrTime;
use cal_datetime::{OffsetDateTime, PlainDateTime};
use cal_schedule::Values;
use cal_time::Date;

/// A day, a reading or an instant that a value of a set can mean.
pub trait SetValue: Copy {
    ghost meaning_of: { Bool → Value → Option Self };

    /// Returns what the value means, or `None` for a value of another kind. A reading is at UTC or
    /// not.
    fn of(value: DateOrTime, is_utc: bool) -> Option<Self>
        ensures { result ≡ meaning_of is_utc value };
}

impl SetValue for Date {
    ghost meaning_of = { λ is_utc. day_of };

    fn of(value: DateOrTime, _is_utc: bool) -> Option<Self> {
        match value {
            DateOrTime::Date(date) => Some(date),
            DateOrTime::Local(_) | DateOrTime::Utc(_) => None,
        }
    }
}

impl SetValue for PlainDateTime {
    ghost meaning_of = { reading_of };

    fn of(value: DateOrTime, is_utc: bool) -> Option<Self> {
        match value {
            DateOrTime::Local(reading) if !is_utc => Some(reading),
            DateOrTime::Utc(reading) if is_utc => Some(reading),
            _ => None,
        }
    }
}

impl SetValue for OffsetDateTime {
    ghost meaning_of = { λ is_utc. instant_of };

    fn of(value: DateOrTime, _is_utc: bool) -> Option<Self> {
        match value {
            DateOrTime::Utc(reading) => Some(reading.assume_utc()),
            DateOrTime::Date(_) | DateOrTime::Local(_) => None,
        }
    }
}

/// Returns the meanings of the values of one kind, in order. `filler` fills the unused places.
pub fn kept<T: SetValue>(values: &Values<DateOrTime>, is_utc: bool, filler: T) -> Values<T>
    ensures { result ≡ filter_map (T.meaning_of is_utc) values.now }
{
    let mut kept = Values::none(filler);
    for value in values.as_slice() {
        if let Some(one) = T::of(*value, is_utc) {
            kept.push(one);
        }
    }
    kept
}
