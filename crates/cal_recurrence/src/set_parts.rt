//! The parts of a recurrence set in text.

use crate::date_or_time::DateOrTime;
use crate::recurrence::Recurrence;
use crate::zone_name::ZoneName;
use cal_schedule::Values;

/// The parts of a recurrence set, as its lines in a calendar file say them.
#[derive(Clone, Debug, PartialEq, Eq, Drop)]
pub struct SetParts<'a> {
    /// The start (`DTSTART`). With a `Z` the zone of the set is UTC.
    pub start: DateOrTime,
    /// The recurrence (`RRULE`). Without such a line it is `FREQ=DAILY;COUNT=1`, the start only.
    pub recurrence: Recurrence,
    /// The other dates or readings (`RDATE`).
    pub dates: Values<DateOrTime>,
    /// The dates or readings to leave out (`EXDATE`).
    pub exceptions: Values<DateOrTime>,
    /// The name of the zone of the local values (`TZID`), or `None` if no line names a zone.
    pub zone: Option<ZoneName<'a>>,
}
