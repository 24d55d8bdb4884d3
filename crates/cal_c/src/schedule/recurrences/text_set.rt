//! Recurrences in text with other readings and exceptions, as C passes them.
ghost use Rattle.std.specs.Prelude.{◌≡◌, IfErr, IfOk};
ghost use Rattle.cal_c.specs.TextSets.{AreFew, AreValid, HasReadings};

use crate::moment::valid_moment;
use crate::results::Moment;
use crate::schedule::date_list::{DateList, MAX_DATES};
use crate::status::{INVALID_MOMENT, TOO_MANY_DATES};
use cal_datetime::PlainDateTime;

/// A recurrence set: the string of a recurrence, its start, and readings in any order. A reading is
/// the local date and time of a moment, at any offset.
#[repr(C)]
#[derive(Clone, Copy, Debug)]
pub struct TextSet<'a> {
    pub text: &'a [u8],
    /// The first possible reading (`DTSTART`).
    pub start: Moment,
    /// Other readings (`RDATE`) and readings to leave out (`EXDATE`).
    pub dates: &'a [Moment],
    pub exceptions: &'a [Moment],
}

/// The readings of a set.
#[derive(Drop)]
pub(super) struct SetReadings {
    pub(super) start: PlainDateTime,
    pub(super) dates: DateList<PlainDateTime>,
    pub(super) exceptions: DateList<PlainDateTime>,
}

impl SetReadings {
    /// Converts the readings, or returns the status of the first wrong list or reading.
    pub(super) fn from_parts(parts: &TextSet<'_>) -> Result<Self, i32>
        ensures few { IfErr result (λ status. ¬ AreFew parts.now → status ≡ TOO_MANY_DATES) }
        ensures invalid { IfErr result (λ status. AreFew parts.now → (¬ AreValid parts.now) × (status ≡ INVALID_MOMENT)) }
        ensures value { IfOk result (λ its. HasReadings parts.now its.start its.dates its.exceptions) }
    {
        if parts.dates.len() > MAX_DATES || parts.exceptions.len() > MAX_DATES {
            return Err(TOO_MANY_DATES);
        }
        let start = or_return!(valid_moment(parts.start), Err(INVALID_MOMENT));
        let dates = or_return!(DateList::from_moments(parts.dates), Err(INVALID_MOMENT));
        let exceptions = or_return!(
            DateList::from_moments(parts.exceptions),
            Err(INVALID_MOMENT)
        );
        Ok(SetReadings {
            start: start.local(),
            dates,
            exceptions,
        })
    }
}
