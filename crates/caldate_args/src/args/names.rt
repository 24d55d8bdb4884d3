//! The names in the arguments, and their meanings.

use cal_schedule::CalendarUnit;
use cal_text::{DateForm, MomentForm};
use cal_zone::Policy;
use caldate_answers::reading::DateOrder;
use caldate_answers::request::{Form, Measure, TimeUnit, UnixUnit};
use caldate_lines::on_invalid::OnInvalid;

/// A form of `--read` that has a name.
#[derive(Clone, Copy)]
pub enum NamedReader {
    Date(DateOrder),
    Unix(UnixUnit),
    Seconds,
    Iso,
    Local,
}

/// An option before a request.
#[derive(Clone, Copy)]
pub enum OptionName {
    Invalid,
    Field,
    Append,
    Csv,
    Header,
    Scan,
    Separator,
    Skip,
    Read,
    Assume,
    AssumeYear,
    /// `near`, a value of `--assume-year`, which has a value of its own.
    Near,
    Lenient,
    Pivot,
    Language,
    Zone,
    Ambiguous,
    Holidays,
}

/// The first word of a request.
#[derive(Clone, Copy)]
pub enum Verb {
    To,
    Move(MoveVerb),
    Until,
    Since,
    At,
    Keep,
}

/// The first word of a move.
#[derive(Clone, Copy)]
pub enum MoveVerb {
    Add,
    Next,
    Last,
    Start,
    End,
    OnOrAfter,
    OnOrBefore,
    Round,
}

/// The first word of a command that reads no input.
#[derive(Clone, Copy)]
pub enum CommandName {
    List,
    Date,
    Help,
    Version,
}

/// The options before a request.
pub(crate) const OPTIONS: [(&str, OptionName); 17] = [
    ("--invalid", OptionName::Invalid),
    ("--field", OptionName::Field),
    ("--append", OptionName::Append),
    ("--csv", OptionName::Csv),
    ("--header", OptionName::Header),
    ("--scan", OptionName::Scan),
    ("--separator", OptionName::Separator),
    ("--skip", OptionName::Skip),
    ("--read", OptionName::Read),
    ("--assume", OptionName::Assume),
    ("--assume-year", OptionName::AssumeYear),
    ("--lenient", OptionName::Lenient),
    ("--pivot", OptionName::Pivot),
    ("--language", OptionName::Language),
    ("--zone", OptionName::Zone),
    ("--ambiguous", OptionName::Ambiguous),
    ("--holidays", OptionName::Holidays),
];

/// The verbs.
pub(crate) const VERBS: [(&str, Verb); 13] = [
    ("to", Verb::To),
    ("add", Verb::Move(MoveVerb::Add)),
    ("next", Verb::Move(MoveVerb::Next)),
    ("last", Verb::Move(MoveVerb::Last)),
    ("until", Verb::Until),
    ("since", Verb::Since),
    ("start", Verb::Move(MoveVerb::Start)),
    ("end", Verb::Move(MoveVerb::End)),
    ("on-or-after", Verb::Move(MoveVerb::OnOrAfter)),
    ("on-or-before", Verb::Move(MoveVerb::OnOrBefore)),
    ("round", Verb::Move(MoveVerb::Round)),
    ("at", Verb::At),
    ("keep", Verb::Keep),
];

/// The commands that read no input.
pub(crate) const COMMANDS: [(&str, CommandName); 6] = [
    ("list", CommandName::List),
    ("--date", CommandName::Date),
    ("--help", CommandName::Help),
    ("--version", CommandName::Version),
    ("-h", CommandName::Help),
    ("help", CommandName::Help),
];

/// The modes of `--invalid`.
pub(crate) const MODES: [(&str, OnInvalid); 4] = [
    ("keep", OnInvalid::Keep),
    ("answer", OnInvalid::Answer),
    ("drop", OnInvalid::Drop),
    ("stop", OnInvalid::Stop),
];

/// The policies of `--ambiguous`.
pub(crate) const POLICIES: [(&str, Policy); 4] = [
    ("compatible", Policy::Compatible),
    ("earlier", Policy::Earlier),
    ("later", Policy::Later),
    ("reject", Policy::Reject),
];

/// The formats with a name.
pub(crate) const FORMATS: [(&str, &str); 3] = [
    ("clf", "%d/%b/%Y:%T %z"),
    ("rfc2822", "%a, %d %b %Y %T %z"),
    ("syslog", "%b %e %T"),
];

/// The forms of `--read`.
pub(crate) const READERS: [(&str, NamedReader); 9] = [
    ("basic", NamedReader::Date(DateOrder::Basic)),
    ("dmy", NamedReader::Date(DateOrder::DayFirst)),
    ("mdy", NamedReader::Date(DateOrder::MonthFirst)),
    ("unix", NamedReader::Seconds),
    ("unix-ms", NamedReader::Unix(UnixUnit::Milliseconds)),
    ("unix-us", NamedReader::Unix(UnixUnit::Microseconds)),
    ("unix-ns", NamedReader::Unix(UnixUnit::Nanoseconds)),
    ("iso", NamedReader::Iso),
    ("local", NamedReader::Local),
];

/// The forms of `to`.
pub(crate) const FORMS: [(&str, Form); 14] = [
    ("calendar", Form::Date(DateForm::Calendar)),
    ("ordinal", Form::Date(DateForm::Ordinal)),
    ("week", Form::Date(DateForm::Week)),
    ("julian", Form::Date(DateForm::JulianDay)),
    ("weekday", Form::Weekday),
    ("short-weekday", Form::ShortWeekday),
    ("month", Form::Month),
    ("quarter", Form::Quarter),
    ("basic", Form::Basic),
    ("rfc3339", Form::Moment(MomentForm::Rfc3339)),
    ("unix", Form::Moment(MomentForm::Unix)),
    ("unix-ms", Form::Unix(UnixUnit::Milliseconds)),
    ("unix-us", Form::Unix(UnixUnit::Microseconds)),
    ("unix-ns", Form::Unix(UnixUnit::Nanoseconds)),
];

/// The units of time.
pub(crate) const UNITS: [(&str, TimeUnit); 8] = [
    ("days", TimeUnit::Days),
    ("weeks", TimeUnit::Weeks),
    ("months", TimeUnit::Months),
    ("years", TimeUnit::Years),
    ("workdays", TimeUnit::Workdays),
    ("hours", TimeUnit::Hours),
    ("minutes", TimeUnit::Minutes),
    ("seconds", TimeUnit::Seconds),
];

/// The periods of `start` and `end`.
pub(crate) const PERIODS: [(&str, CalendarUnit); 4] = [
    ("weeks", CalendarUnit::Week),
    ("months", CalendarUnit::Month),
    ("quarters", CalendarUnit::Quarter),
    ("years", CalendarUnit::Year),
];

/// The units to which `start` rounds down, with their minutes.
pub(crate) const ROUNDINGS: [(&str, u16); 3] = [("days", 1440), ("hours", 60), ("minutes", 1)];

/// The units of `round`, with their seconds.
pub(crate) const ROUNDED_UNITS: [(&str, u32); 4] = [
    ("days", 86_400),
    ("hours", 3_600),
    ("minutes", 60),
    ("seconds", 1),
];

/// The measures of `until` and `since` that aren't units of time.
pub(crate) const MEASURES: [(&str, Measure); 3] = [
    ("P", Measure::Period),
    ("PT", Measure::Duration),
    ("HH:MM:SS", Measure::Clock),
];

/// Returns the meaning of a name.
pub fn value_named<T: Copy>(word: &[u8], table: &[(&str, T)]) -> Option<T> {
    let row = table.iter().find(|row| word == row.0.as_bytes());
    row.map(|row| row.1)
}

/// Returns the meaning of a unit. `month`, `MONTHS` and `mon` are the same.
pub fn value_of_unit<T: Copy>(word: &[u8], table: &[(&str, T)]) -> Option<T> {
    let row = table.iter().find(|row| spells_unit(word, row.0.as_bytes()));
    row.map(|row| row.1)
}

/// Returns whether the word is the name or its first three letters, ignoring ASCII case.
pub fn spells(word: &[u8], name: &[u8]) -> bool {
    let length = if name.len() < 3 { name.len() } else { 3 };
    is_alike(word, name) || is_alike(word, &name[..length])
}

/// Returns whether the word is the unit in plural, singular or its first three letters.
pub fn spells_unit(word: &[u8], many: &[u8]) -> bool {
    let one = match many {
        [one @ .., _] => one,
        [] => many,
    };
    is_alike(word, many) || spells(word, one)
}

fn is_alike(word: &[u8], name: &[u8]) -> bool {
    word.eq_ignore_ascii_case(name)
}
