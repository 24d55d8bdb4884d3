//! Events of calendar files (iCalendar, RFC 5545) and their recurrence sets.
//!
//! The text of a file has its lines unfolded first, by `cal_recurrence::unfold`. Then
//! [`first_event`] finds the next event, and [`Event::set`] parses its set.
//!
//! These components and properties aren't applied: `VTODO`, `VJOURNAL`, `VFREEBUSY`, `EXRULE`,
//! `RECURRENCE-ID` and the rules of a `VTIMEZONE`. A `TZID` is the name of a zone.
#![tactic(auto)]

mod event;
mod event_error;
mod event_set;
mod event_value;
mod lines;
mod search;

pub use event::Event;
pub use event_error::{ParseEventError, ParseEventErrorKind};
pub use event_set::parse_event_set;
pub use event_value::first_value;
pub use search::first_event;
