//! Commands.

use cal_datetime::OffsetDateTime;
use cal_recurrence::Recurrence;
use cal_time::Date;
use cal_zone::Zone;
use caldate_answers::request::{Clock, Filter};
use caldate_lines::field::Field;

/// A unit of steps.
#[derive(Clone, Copy)]
pub enum StepUnit {
    Days,
    Months,
}

/// A step from one date of a list to the next.
#[derive(Clone, Copy)]
pub struct Step {
    /// The number of days or months.
    pub every: u64,
    /// Days or months.
    pub unit: StepUnit,
}

/// A list of dates. Each is counted from the first.
#[derive(Clone, Copy)]
pub struct Listing {
    /// The first date.
    pub first: Date,
    /// The last date that the list may have.
    pub last: Date,
    /// The step from one date to the next.
    pub step: Step,
}

/// A list of moments. Each is counted from the first by clocks.
#[derive(Drop)]
pub struct Moments<'a> {
    /// The clocks.
    pub clock: Clock<'a>,
    /// The first moment.
    pub first: OffsetDateTime,
    /// The last moment that the list may have.
    pub last: OffsetDateTime,
    /// The step from one moment to the next.
    pub step: Step,
}

/// The start of a recurrence, and the last date or moment that a list may have.
#[derive(Drop)]
pub enum Span<'a> {
    /// Two dates.
    Dates(Date, Date),
    /// Two moments. The list has the offset of the first.
    Moments(OffsetDateTime, OffsetDateTime),
    /// Two moments and the zone whose clocks the recurrence goes by.
    InZone(Zone<'a>, OffsetDateTime, OffsetDateTime),
}

/// A list of the dates or moments of a recurrence.
#[derive(Drop)]
pub struct Occurrences<'a> {
    /// The start and the last possible date or moment.
    pub span: Span<'a>,
    /// The recurrence of RFC 5545.
    pub recurrence: Recurrence,
}

/// The zones of a list of events.
#[derive(Drop)]
pub struct EventZones<'a> {
    /// The zone of the list, and of events whose times name no zone.
    pub own: Zone<'a>,
    /// The zone that events name, or `None` if no event does.
    pub named: Option<Zone<'a>>,
    /// UTC.
    pub utc: Zone<'a>,
}

/// A list of the times of the events of a calendar file.
#[derive(Drop)]
pub struct EventList<'a> {
    /// The text of the file, whose lines are unfolded.
    pub text: &'a [u8],
    /// The zones of the times.
    pub zones: EventZones<'a>,
    /// The first time that the list may have.
    pub first: OffsetDateTime,
    /// The last time that the list may have.
    pub last: OffsetDateTime,
    /// `true` if the list has the dates of the times.
    pub has_dates: bool,
}

/// A command of the program.
#[derive(Drop)]
pub enum Command<'a> {
    /// `--help`, `-h` or `help`: the help page.
    Help,
    /// `--version`: the version.
    Version,
    /// A request for the lines of the input.
    Lines(Filter<'a>),
    /// A request for the lines of the input, whose header gives the numbers of fields. The field to
    /// answer is this one, whose number may be among them.
    Named(Filter<'a>, Field),
    /// `--date TEXT` and a request: for the second argument instead of an input.
    Once(Filter<'a>),
    /// The same, for a field with a name: the string is the header.
    NamedOnce(Filter<'a>, Field),
    /// `list from A to B [by N UNIT]`: the dates from A to B.
    Dates(Listing),
    /// `list from A to B by N UNIT at ZONE`: the moments from A to B.
    Moments(Moments<'a>),
    /// `list from A to B by RULE [at ZONE]`: the dates or moments of the recurrence.
    Recurring(Occurrences<'a>),
    /// `list from A to B by FILE.ics [at ZONE]`: the dates or moments of the events of a file.
    Events(EventList<'a>),
}
