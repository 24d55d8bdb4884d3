//! Requests, and how they apply to the lines.
ghost use Rattle.std.specs.Prelude.{◌≡◌, MatchOption, None, Some};
ghost use Rattle.caldate_answers.specs.Answers.{clock_of, keeps};
ghost use Rattle.caldate_answers.specs.Targets.{target_fields, target_name};

use crate::reading::Readers;
use crate::reading::reader::Assumptions;
use cal_format::Format;
use cal_names::Names;
use cal_rounding::RoundingUnit;
use cal_schedule::{CalendarUnit, Period, Workdays};
use cal_text::{DateForm, DateOrMoment, MomentForm};
use cal_time::{SignedDuration, UtcOffset, Weekday};
use cal_zone::{Policy, Zone};
use caldate_lines::field::Field;
use caldate_lines::field_name::FieldName;
use caldate_lines::field_names::FieldNames;
use caldate_lines::field_numbers::FieldNumbers;
use caldate_lines::on_invalid::OnInvalid;
use caldate_lines::several_fields::SeveralFields;

/// A form in which a date or a moment is written.
#[derive(Clone, Copy)]
pub enum Form {
    /// `2024-02-29`, `2024-060`, `2024-W09-4` or `J2460370`.
    Date(DateForm),
    /// `Thursday`.
    Weekday,
    /// `2024-02-29T00:00:00Z` or `@1709164800`.
    Moment(MomentForm),
    /// `Thu`.
    ShortWeekday,
    /// `2024-02`.
    Month,
    /// `2024-Q1`.
    Quarter,
    /// `20240229`.
    Basic,
    /// `1709164800000`, here in milliseconds.
    Unix(UnixUnit),
}

/// A unit of whole Unix times.
#[derive(Clone, Copy)]
pub enum UnixUnit {
    Milliseconds,
    Microseconds,
    Nanoseconds,
}

/// A unit of time.
#[derive(Clone, Copy)]
pub enum TimeUnit {
    Years,
    Months,
    Weeks,
    Days,
    /// Monday to Friday, except the holidays.
    Workdays,
    Hours,
    Minutes,
    Seconds,
}

/// What `until` and `since` write.
#[derive(Clone, Copy)]
pub enum Measure {
    /// `in UNIT`: the whole units.
    Units(TimeUnit),
    /// `in P`: years, months, days and an exact rest, such as `P1Y2M3DT4H`.
    Period,
    /// `in PT`: an exact duration, such as `PT36H`.
    Duration,
    /// `in HH:MM:SS`: an exact duration, such as `36:00:00`.
    Clock,
}

/// A move from one day to another.
#[derive(Clone, Copy)]
pub enum DayMove {
    /// `next WEEKDAY N`: the N-th such weekday after the day.
    Next(Weekday, u8),
    /// `last WEEKDAY N`: the N-th such weekday before the day.
    Last(Weekday, u8),
    /// `on-or-after WEEKDAY`: the first such weekday on or after the day.
    OnOrAfter(Weekday),
    /// `on-or-before WEEKDAY`: the last such weekday on or before the day.
    OnOrBefore(Weekday),
    /// `add N months`: the same day N months later, or the last day of that month.
    Months(i64),
    /// `add N years`: the same day N years later, or 28 February.
    Years(i64),
    /// `add N workdays`: the N-th working day after the day.
    Workdays(i64),
    /// `start PERIOD`: the first day of the unit.
    Start(CalendarUnit),
    /// `end PERIOD`: the last day of the unit.
    End(CalendarUnit),
}

/// A move of a date or a moment.
#[derive(Clone, Copy)]
pub enum Move {
    /// To another day, at the same time of day.
    Day(DayMove),
    /// `add N days`, `add N weeks`: by the whole days of a duration, at the same time of day.
    Days(SignedDuration),
    /// `add N hours`, `add N minutes`, `add N seconds`: by a duration.
    Add(SignedDuration),
    /// `start day`, `start hour`, `start minute` or `start N minutes`: the time of day rounded down
    /// to a multiple of a number of minutes, from 1 to 1440.
    Floor(u16),
    /// `add PERIOD`: by years, months, weeks and days, and then by an exact duration.
    Period(Period),
    /// `round N UNIT`: to the nearest multiple of a unit since midnight, and up between two.
    Round(RoundingUnit),
}

/// A range for dates and moments. A date bound compares local dates, a moment bound instants.
#[derive(Clone, Copy)]
pub enum Bounds {
    /// `from A to B`, including both.
    FromTo(DateOrMoment, DateOrMoment),
    /// `after A`, excluding it.
    After(DateOrMoment),
    /// `before B`, excluding it.
    Before(DateOrMoment),
}

/// A place whose clocks show a moment.
#[derive(Drop)]
pub enum Place<'a> {
    /// One with this offset from UTC.
    Offset(UtcOffset),
    /// One in this time zone.
    Zone(Zone<'a>),
}

/// The clocks of a zone, which give a local time its moment.
#[derive(Drop)]
pub struct Clock<'a> {
    /// The zone of the clocks.
    pub zone: Zone<'a>,
    /// The policy for a local time that the clocks skip or show twice.
    pub policy: Policy,
}

/// The date or moment TEXT of `until` and `since`, or where each line has it.
#[derive(Drop)]
pub enum Target<'a> {
    /// `TEXT`.
    Text(DateOrMoment),
    /// `field N` or `field N-M`: in these fields of the line.
    Fields(FieldNumbers),
    /// `field NAME`: in the field of this name, whose number isn't known yet.
    Name(FieldName<'a>),
}

/// A request for each line.
#[derive(Drop)]
pub enum Request<'a> {
    /// `to FORM`: the same date or moment in this form.
    To(Form),
    /// `to iso`: a date as a calendar date, a moment in RFC 3339.
    ToIso,
    /// `to FORMAT`: the same date or moment in this format.
    Print(Format),
    /// The same with the names of a language.
    PrintInLanguage(Format, &'static Names<'static>),
    /// The moved date or moment, such as `add N UNIT`.
    Move(Move),
    /// `at ZONE` or `at OFFSET`, and a move: the moment moved by these clocks, at their offset.
    MoveAt(Clock<'a>, Move),
    /// `until TEXT [in UNIT]`: the days or the duration to TEXT, or its measure, by these clocks if
    /// it is after `at`.
    Until(Option<Clock<'a>>, Target<'a>, Option<Measure>),
    /// `since TEXT [in UNIT]`: the days or the duration from TEXT, or its measure, by these clocks
    /// if it is after `at`.
    Since(Option<Clock<'a>>, Target<'a>, Option<Measure>),
    /// `at OFFSET` or `at ZONE`, perhaps with `to FORM`: the moment at this offset, or at the
    /// offset of the zone, in this form.
    At(Place<'a>, Form),
    /// `at OFFSET` or `at ZONE`, and `to FORMAT`: the same in this format.
    PrintAt(Place<'a>, Format),
    /// The same with the names of a language.
    PrintInLanguageAt(Place<'a>, Format, &'static Names<'static>),
    /// `keep BOUNDS`: the line itself if it lies within the bounds, otherwise nothing.
    Keep(Bounds),
}

impl<'a> Request<'a> {
    /// Returns whether this is `keep`, which answers with the string itself.
    pub fn keeps(&self) -> bool
        ensures { result ≡ keeps self.now }
    {
        match self {
            Request::Keep(_) => true,
            _ => false,
        }
    }

    /// Returns the fields of the line that have TEXT, if their numbers are known.
    pub fn target_fields(&self) -> Option<FieldNumbers>
        ensures { result ≡ target_fields self.now }
    {
        match self {
            Request::Until(_, Target::Fields(numbers), _) => Some(*numbers),
            Request::Since(_, Target::Fields(numbers), _) => Some(*numbers),
            _ => None,
        }
    }

    /// Returns the name of the field of the line that has TEXT, if its number isn't known yet.
    pub fn target_name(&self) -> Option<&[u8]>
        ensures { MatchOption result (target_name self.now ≡ None)
            (λ name. target_name self.now ≡ Some name.now) }
    {
        match self {
            Request::Until(_, Target::Name(name), _) => Some(name.as_bytes()),
            Request::Since(_, Target::Name(name), _) => Some(name.as_bytes()),
            _ => None,
        }
    }

    /// Returns the clocks of the request after `at`, if it goes by clocks.
    pub fn clock(&self) -> Option<&Clock<'a>>
        ensures { MatchOption result (clock_of self.now ≡ None)
            (λ clock. clock_of self.now ≡ Some clock.now) }
    {
        match self {
            Request::MoveAt(clock, _) => Some(clock),
            Request::Until(Some(clock), _, _) => Some(clock),
            Request::Since(Some(clock), _, _) => Some(clock),
            _ => None,
        }
    }

    /// Returns whether the request prints the names of a language.
    pub fn is_in_language(&self) -> bool {
        match self {
            Request::PrintInLanguage(_, _) | Request::PrintInLanguageAt(_, _, _) => true,
            _ => false,
        }
    }

    /// Returns whether the field that has TEXT has a name.
    pub fn names_other(&self) -> bool {
        match self.target_name() {
            Some(_) => true,
            None => false,
        }
    }

    /// Returns whether other fields of the line have TEXT.
    pub fn reads_other(&self) -> bool {
        match self.target_fields() {
            Some(_) => true,
            None => self.names_other(),
        }
    }

    /// Returns whether this is `at` and a move.
    pub fn moves_at(&self) -> bool {
        match self {
            Request::MoveAt(_, _) => true,
            _ => false,
        }
    }

    /// Returns whether this counts working days.
    pub fn counts_workdays(&self) -> bool {
        match self {
            Request::Move(Move::Day(DayMove::Workdays(_))) => true,
            Request::MoveAt(_, Move::Day(DayMove::Workdays(_))) => true,
            Request::Until(_, _, Some(Measure::Units(TimeUnit::Workdays))) => true,
            Request::Since(_, _, Some(Measure::Units(TimeUnit::Workdays))) => true,
            _ => false,
        }
    }
}

/// The units of Unix times. One of this century has as many digits as its unit says: 9 or 10 in
/// seconds, and 3, 6 or 9 more in smaller units.
#[derive(Clone, Copy)]
pub struct DigitCounts {
    /// `true` for 9 and 10 digits.
    pub seconds: bool,
    /// `true` for 12 and 13 digits.
    pub milliseconds: bool,
    /// `true` for 15 and 16 digits.
    pub microseconds: bool,
    /// `true` for 18 and 19 digits.
    pub nanoseconds: bool,
}

/// A request with its options.
#[derive(Drop)]
pub struct Filter<'a> {
    /// The request for each line.
    pub request: Request<'a>,
    /// The working days.
    pub workdays: Workdays<'a>,
    /// The forms that a line is read in.
    pub readers: Readers,
    /// The parts that a string may leave out.
    pub assumptions: Assumptions,
    /// The clocks that a string without an offset is read on instead, if a zone is given.
    pub clock: Option<Clock<'a>>,
    /// The mode for a line without an answer.
    pub on_invalid: OnInvalid,
    /// The field to answer, or `None` for the whole line.
    pub field: Option<Field>,
    /// All fields to answer, which have its separator, if there are several.
    pub several: SeveralFields,
    /// `true` if each string in the line that has a form is answered, and not the whole line.
    pub scans: bool,
    /// The lengths of numbers in a line that may be Unix times, or `None` if all may.
    pub numbers: Option<DigitCounts>,
    /// The names of the fields to answer whose numbers aren't known yet.
    pub names: FieldNames<'a>,
    /// The name that the header, the first line, gets for a new last field.
    pub column: Option<FieldName<'a>>,
    /// How many lines to pass on unchanged at the start.
    pub skip: u64,
}
