//! The command that the arguments give.
ghost use Rattle.std.specs.Prelude.{◌+◌, ◌<◌, ◌^◌, ◌≤◌, IfOk};
ghost use Rattle.caldate_args.specs.Lists.{HasValidStep};

pub mod arguments;
pub(crate) mod bounds;
pub mod clock_words;
pub(crate) mod extent;
pub(crate) mod formats;
pub(crate) mod listing;
pub(crate) mod messages;
pub(crate) mod names;
pub(crate) mod numbers;
pub(crate) mod offset;
pub(crate) mod options;
pub mod requirement;
pub(crate) mod spelling;
pub(crate) mod target;
pub mod usage_error;
pub mod usage_message;
pub mod word_error;
pub mod words;

use crate::args::bounds::bounds_at;
use crate::args::clock_words::{is_day_word, now_in, now_on};
use crate::args::formats::{is_in_language, to_at_place_of, to_of};
use crate::args::listing::list_of;
use crate::args::names::{CommandName, MoveVerb, Verb};
use crate::args::numbers::counts_of;
use crate::args::offset::offset_of;
use crate::args::options::{
    Options, ReaderChoices, assumptions_in, field_of, language_in, no_options, parse_options,
    readers_in, unmet_in, zone_of,
};
use crate::args::requirement::Requirement;
use crate::args::spelling::{
    command_of, is_period_like, iso_period_of, minutes_of, minutes_word, parse_i64, parse_u8,
    period_of, rounded_unit_of, rounding_of, start_of, unit_of, verb_of, weekday_of,
};
use crate::args::target::target_at;
use crate::args::usage_error::UsageError;
use crate::args::word_error::{Expected, WordError, requirement_at, word_error_at};
use crate::args::words::{check_end, cut, ends_at, only_at, word_as, word_at};
use crate::command::Command;
use crate::data_files::system_files::SystemFiles;
use crate::zones::{is_zone_like, zone_with};
use cal_datetime::{OffsetDateTime, PlainDateTime};
use cal_names::Names;
use cal_schedule::Workdays;
use cal_text::MomentForm;
use cal_time::{SignedDuration, Weekday};
use cal_zone::{Policy, Zone};
use caldate_answers::answer::moves;
use caldate_answers::request::{Clock, DayMove, Filter, Form, Move, Place, Request, TimeUnit};
use caldate_lines::field::Field;
use caldate_lines::field_name::FieldName;
use caldate_lines::field_names::MAX_FIELDS;
use caldate_lines::field_numbers::FieldNumbers;
use caldate_lines::lines::next_line;
use caldate_lines::on_invalid::OnInvalid;
use caldate_lines::quoting::Quoting;
use caldate_lines::several_fields::{RankedField, SeveralFields};
use std::fs::Files;

/// Parses arguments with zero bytes between them, or `None` if they are too long.
pub fn asked_by<'a, S: Files>(
    arguments: Option<&'a [u8]>,
    now: Option<PlainDateTime>,
    files: &mut SystemFiles<'_, 'a, S>,
) -> Result<Command<'a>, UsageError<'a>>
    ensures steps { IfOk result HasValidStep }
{
    let command = match arguments {
        Some(words) => parse_args(words, now, files),
        None => Err(requirement_at(0, Requirement::Short)),
    };
    match command {
        Ok(command) => Ok(command),
        Err(word) => Err(UsageError {
            word,
            reason: files.take_reason(),
        }),
    }
}

/// Parses arguments with zero bytes between them, or returns the first invalid or missing word. In
/// `add 1 fortnight` the word at index 2 is not a unit. The words `today` and `now` mean the
/// date-time `now`, which is at UTC.
pub fn parse_args<'a, S: Files>(
    words: &'a [u8],
    now: Option<PlainDateTime>,
    files: &mut SystemFiles<'_, 'a, S>,
) -> Result<Command<'a>, WordError>
    ensures steps { IfOk result HasValidStep }
{
    let nothing = requirement_at(0, Requirement::Something);
    let first = word_at(words, 0).ok_or(nothing)?;
    if first == b"".as_slice() && ends_at(words, 1) {
        return Err(nothing);
    }
    match command_of(first) {
        Some(CommandName::List) => list_of(words, &now_in(&None, now), files),
        Some(CommandName::Date) => once_of(words, now, files),
        Some(CommandName::Help) => {
            check_end(words, 1)?;
            Ok(Command::Help)
        }
        Some(CommandName::Version) => {
            check_end(words, 1)?;
            Ok(Command::Version)
        }
        None => Ok(lines_command(filter_at(words, Some(words), (0, false), now, files)?)),
    }
}

/// Parses the string after `--date`, options and a request.
// Filters and requests are large, so the frames of the callers don't have their copies.
#[inline(never)]
fn once_of<'a, S: Files>(
    words: &'a [u8],
    now: Option<PlainDateTime>,
    files: &mut SystemFiles<'_, 'a, S>,
) -> Result<Command<'a>, WordError>
    ensures steps { IfOk result HasValidStep }
{
    let Some(rest) = cut(words).1 else {
        return Err(word_error_at(1, Expected::Target));
    };
    let (text, rest) = cut(rest);
    if text == b"".as_slice() {
        return Err(word_error_at(1, Expected::Target));
    }
    let filter = filter_at(words, rest, (2, is_day_word(text)), now, files)?;
    if has_more_lines(filter.field, text) {
        return Err(word_error_at(1, Expected::Target));
    }
    Ok(once_command(filter))
}

/// Returns whether the string has more than one line, or with `--csv` more than one record.
fn has_more_lines(field: Option<Field>, text: &[u8]) -> bool {
    match next_line(field, Quoting::Ready, text) {
        Some((_line, rest)) => !rest.is_empty(),
        None => false,
    }
}

/// Returns the command for the lines of the input.
fn lines_command<'a>(filter: Filter<'a>) -> Command<'a>
    ensures steps { HasValidStep result }
{
    match named_field(&filter) {
        Some(field) => Command::Named(filter, field),
        None => Command::Lines(filter),
    }
}

/// Returns the command for the string after `--date`.
fn once_command<'a>(filter: Filter<'a>) -> Command<'a>
    ensures steps { HasValidStep result }
{
    match named_field(&filter) {
        Some(field) => Command::NamedOnce(filter, field),
        None => Command::Once(filter),
    }
}

/// Returns the first field to answer, if any field has a name.
fn named_field(filter: &Filter<'_>) -> Option<Field> {
    if filter.names.any() || filter.request.names_other() {
        filter.field
    } else {
        None
    }
}

/// Parses options and a request from the word at an index on, where `rest` is. With the index comes
/// whether the only text is the date of a clock, such as `today`.
fn filter_at<'a, S: Files>(
    words: &'a [u8],
    rest: Option<&'a [u8]>,
    start: (usize, bool),
    now: Option<PlainDateTime>,
    files: &mut SystemFiles<'_, 'a, S>,
) -> Result<Filter<'a>, WordError>
    requires few { start.0 ≤ 2 }
{
    let (at, is_day) = start;
    let mut options: Options<'a> = no_options();
    options.language = language_in(rest);
    let at = parse_options(&mut options, rest, at, files)?;
    if let (true, Some(index)) = (options.lenient, options.ambiguous) {
        return Err(word_error_at(index, Expected::LenientFormat));
    }
    if let Some(requirement) = unmet_in(&options, is_day) {
        return Err(requirement_at(at, requirement));
    }
    let now = now_in(&options.zone, now);
    let choices = RequestChoices {
        policy: policy_of(options.policy),
        names: options.language,
    };
    let request = request_at(words, at, choices, now, files)?;
    filter_with(at, options, request)
}

/// Returns the filter, unless the request and the options conflict.
fn filter_with<'a>(
    at: usize,
    options: Options<'a>,
    request: Request<'a>,
) -> Result<Filter<'a>, WordError> {
    if let Some(requirement) = unmet_by(&options, &request) {
        return Err(requirement_at(at, requirement));
    }
    let filter = filter_of(options, request);
    if !filter.names.any() && filter.several.overlap() {
        return Err(requirement_at(at, Requirement::Overlap));
    }
    Ok(filter)
}

/// Returns the requirement of the request that the options don't meet, if there is one.
fn unmet_by(options: &Options<'_>, request: &Request<'_>) -> Option<Requirement> {
    if options.append.is_some() && request.keeps() {
        Some(Requirement::AppendKeep)
    } else if request.reads_other() && options.fields.is_none() {
        Some(Requirement::OtherField)
    } else if request.names_other() && !options.header {
        Some(Requirement::Header)
    } else if options.workdays.is_some() && !request.counts_workdays() {
        Some(Requirement::WorkdaysOnly)
    } else if options.policy.is_some() && options.zone.is_none() && !request.moves_at() {
        Some(Requirement::ZoneOption)
    } else if options.has_language && !uses_language(options, request) {
        Some(Requirement::LanguageFormat)
    } else {
        None
    }
}

/// Returns whether a format is read or printed with the names of the language.
fn uses_language(options: &Options<'_>, request: &Request<'_>) -> bool {
    request.is_in_language()
        || options
            .readers
            .as_slice()
            .iter()
            .any(|reader| is_in_language(reader))
}

fn filter_of<'a>(options: Options<'a>, request: Request<'a>) -> Filter<'a> {
    Filter {
        on_invalid: match options.on_invalid {
            Some(mode) => mode,
            None => default_mode(&request, options.fields.is_some() || options.scan),
        },
        request,
        field: field_of(&options),
        scans: options.scan,
        numbers: counts_of(options.scan, options.readers.as_slice()),
        skip: skip_in(&options),
        assumptions: assumptions_in(&options),
        workdays: options.workdays.unwrap_or(moves::workdays()),
        names: options.names,
        several: several_of(options.fields, options.more),
        column: column_of(options.header, options.append),
        readers: readers_in(
            options.readers,
            &ReaderChoices {
                offset: options.offset,
                has_zone: options.zone.is_some(),
                lenient: options.lenient,
                pivot: options.pivot,
            },
        ),
        clock: clock_of(options.zone, policy_of(options.policy)),
    }
}

/// Returns all fields from the left, if there are several.
fn several_of(first: Option<FieldNumbers>, more: SeveralFields) -> SeveralFields {
    let mut several = more;
    let count = several.as_slice().len();
    if let Some(numbers) = first {
        if count > 0 && count < MAX_FIELDS {
            several.insert(RankedField { numbers, rank: 0 });
        }
    }
    several
}

/// Returns the name of a new field in the header, if there is one.
fn column_of<'a>(header: bool, name: Option<FieldName<'a>>) -> Option<FieldName<'a>> {
    if !header {
        return None;
    }
    name
}

/// Returns the policy of `--ambiguous`. The default is `compatible`.
fn policy_of(given: Option<Policy>) -> Policy {
    given.unwrap_or(Policy::Compatible)
}

/// Returns the clocks of the zone.
fn clock_of<'a>(zone: Option<Zone<'a>>, policy: Policy) -> Option<Clock<'a>> {
    Some(Clock {
        zone: zone?,
        policy,
    })
}

/// Returns how many lines are passed on at the start. A header is the first of them.
fn skip_in(options: &Options<'_>) -> u64 {
    let skip = options.skip.unwrap_or(0);
    if options.header && skip == 0 { 1 } else { skip }
}

/// Returns what is written for a line without an answer if no option says it. `part` is `true` if
/// only a part of a line is answered.
fn default_mode(request: &Request<'_>, part: bool) -> OnInvalid {
    match (request, part) {
        (Request::Keep(_), _) => OnInvalid::Drop,
        (_, true) => OnInvalid::Keep,
        (_, false) => OnInvalid::Answer,
    }
}

/// The options for the request.
#[derive(Clone, Copy)]
struct RequestChoices {
    /// The policy of `--ambiguous`.
    policy: Policy,
    /// The names of `--language`.
    names: Option<&'static Names<'static>>,
}

/// Parses the request whose verb has this index.
#[inline(never)]
fn request_at<'a, S: Files>(
    words: &'a [u8],
    at: usize,
    choices: RequestChoices,
    now: Option<OffsetDateTime>,
    files: &mut SystemFiles<'_, 'a, S>,
) -> Result<Request<'a>, WordError>
    requires { at + 7 < 2 ^ 64 }
{
    let verb = word_as(words, at, verb_of, expected_verb(at))?;
    let at = at + 1;
    match verb {
        Verb::To => to_at(words, at, choices.names),
        Verb::Move(verb) => Ok(Request::Move(move_of(verb, words, at)?)),
        Verb::Until => until_at(words, at, None, now),
        Verb::Since => since_at(words, at, None, now),
        Verb::At => at_place(words, at, choices, now, files),
        Verb::Keep => Ok(Request::Keep(bounds_at(words, at, now)?)),
    }
}

/// Parses the arguments of a move.
fn move_of(verb: MoveVerb, words: &[u8], at: usize) -> Result<Move, WordError>
    requires { at + 2 < 2 ^ 64 }
{
    match verb {
        MoveVerb::Add => amount_at(words, at),
        MoveVerb::Next => {
            let (weekday, count) = occurrence_at(words, at)?;
            Ok(Move::Day(DayMove::Next(weekday, count)))
        }
        MoveVerb::Last => {
            let (weekday, count) = occurrence_at(words, at)?;
            Ok(Move::Day(DayMove::Last(weekday, count)))
        }
        MoveVerb::Start => start_at(words, at),
        MoveVerb::End => end_at(words, at),
        MoveVerb::OnOrAfter => Ok(Move::Day(DayMove::OnOrAfter(weekday_at(words, at)?))),
        MoveVerb::OnOrBefore => Ok(Move::Day(DayMove::OnOrBefore(weekday_at(words, at)?))),
        MoveVerb::Round => round_at(words, at),
    }
}

/// Parses `WEEKDAY`.
fn weekday_at(words: &[u8], at: usize) -> Result<Weekday, WordError>
    requires { at + 1 < 2 ^ 64 }
{
    only_at(words, at, weekday_of, Expected::Weekday)
}

/// Parses `FORM` or `FORMAT`.
fn to_at(
    words: &[u8],
    at: usize,
    names: Option<&'static Names<'static>>,
) -> Result<Request<'static>, WordError>
    requires { at + 1 < 2 ^ 64 }
{
    let error = word_error_at(at, Expected::Form);
    let Some(word) = word_at(words, at) else {
        return Err(error);
    };
    let Some(request) = to_of(word, names) else {
        return Err(error);
    };
    check_end(words, at + 1)?;
    Ok(request)
}

/// Parses `PERIOD`, `day`, `hour`, `minute` or `N minutes`.
fn start_at(words: &[u8], at: usize) -> Result<Move, WordError>
    requires { at + 2 < 2 ^ 64 }
{
    match word_at(words, at).and_then(minutes_of) {
        Some(minutes) => floor_at(words, at + 1, minutes),
        None => only_at(words, at, start_of, Expected::StartPeriod),
    }
}

fn floor_at(words: &[u8], at: usize, minutes: u16) -> Result<Move, WordError>
    requires { at + 1 < 2 ^ 64 }
{
    only_at(words, at, minutes_word, Expected::Minutes)?;
    Ok(Move::Floor(minutes))
}

/// Parses `UNIT` or `N UNIT`, which divides a day.
fn round_at(words: &[u8], at: usize) -> Result<Move, WordError>
    requires { at + 2 < 2 ^ 64 }
{
    match word_at(words, at).and_then(parse_i64) {
        Some(number) => {
            let seconds = only_at(words, at + 1, rounded_unit_of, Expected::RoundedUnit)?;
            rounded_by(number, seconds, at)
        }
        None => {
            let seconds = only_at(words, at, rounded_unit_of, Expected::Rounding)?;
            rounded_by(1, seconds, at)
        }
    }
}

/// Returns the rounding to `number` units of `seconds` seconds. The number has this index.
fn rounded_by(number: i64, seconds: u32, at: usize) -> Result<Move, WordError> {
    match rounding_of(number, seconds) {
        Some(unit) => Ok(Move::Round(unit)),
        None => Err(word_error_at(at, Expected::RoundedNumber)),
    }
}

/// Parses `PERIOD`.
fn end_at(words: &[u8], at: usize) -> Result<Move, WordError>
    requires { at + 1 < 2 ^ 64 }
{
    let period = only_at(words, at, period_of, Expected::Period)?;
    Ok(Move::Day(DayMove::End(period)))
}

/// Parses `OFFSET` or `ZONE`, perhaps with a move, `until` or `since`.
fn at_place<'a, S: Files>(
    words: &'a [u8],
    at: usize,
    choices: RequestChoices,
    now: Option<OffsetDateTime>,
    files: &mut SystemFiles<'_, 'a, S>,
) -> Result<Request<'a>, WordError>
    requires { at + 6 < 2 ^ 64 }
{
    let place = place_at(words, at, files)?;
    let Some(verb) = word_at(words, at + 1).and_then(verb_of) else {
        check_end(words, at + 1)?;
        return Ok(Request::At(place, Form::Moment(MomentForm::Rfc3339)));
    };
    if let Verb::To = verb {
        return to_at_place(words, at + 2, place, choices.names);
    }
    let Some(clock) = clock_in(place, choices.policy) else {
        return Err(word_error_at(at, Expected::Place));
    };
    let now = now_on(&clock.zone, now);
    match verb {
        Verb::Move(verb) => Ok(Request::MoveAt(clock, move_of(verb, words, at + 2)?)),
        Verb::Until => until_at(words, at + 2, Some(clock), now),
        Verb::Since => since_at(words, at + 2, Some(clock), now),
        Verb::To | Verb::At | Verb::Keep => Err(word_error_at(at + 1, Expected::End)),
    }
}

/// Parses `FORM` or `FORMAT` after a place and `to`.
fn to_at_place<'a>(
    words: &'a [u8],
    at: usize,
    place: Place<'a>,
    names: Option<&'static Names<'static>>,
) -> Result<Request<'a>, WordError>
    requires { at + 1 < 2 ^ 64 }
{
    let error = word_error_at(at, Expected::Form);
    let Some(word) = word_at(words, at) else {
        return Err(error);
    };
    let Some(request) = to_at_place_of(word, place, names) else {
        return Err(error);
    };
    check_end(words, at + 1)?;
    Ok(request)
}

/// Parses `OFFSET` or `ZONE`, after which words may follow.
fn place_at<'a, S: Files>(
    words: &'a [u8],
    at: usize,
    files: &mut SystemFiles<'_, 'a, S>,
) -> Result<Place<'a>, WordError> {
    if names_zone(words, at) {
        return Ok(Place::Zone(first_zone_at(words, at, files)?));
    }
    Ok(Place::Offset(word_as(words, at, offset_of, Expected::Place)?))
}

/// Returns the clocks of a place, or `None` if its offset can't be that of a zone.
fn clock_in<'a>(place: Place<'a>, policy: Policy) -> Option<Clock<'a>> {
    match place {
        Place::Zone(zone) => Some(Clock { zone, policy }),
        Place::Offset(offset) => match zone_with(offset) {
            Some(zone) => Some(Clock { zone, policy }),
            None => None,
        },
    }
}

/// Parses the arguments of `until`, whose units these clocks count.
fn until_at<'a>(
    words: &'a [u8],
    at: usize,
    own: Option<Clock<'a>>,
    now: Option<OffsetDateTime>,
) -> Result<Request<'a>, WordError>
    requires { at + 4 < 2 ^ 64 }
{
    let (target, unit) = target_at(words, at, now)?;
    Ok(Request::Until(own, target, unit))
}

/// Parses the arguments of `since`, whose units these clocks count.
fn since_at<'a>(
    words: &'a [u8],
    at: usize,
    own: Option<Clock<'a>>,
    now: Option<OffsetDateTime>,
) -> Result<Request<'a>, WordError>
    requires { at + 4 < 2 ^ 64 }
{
    let (target, unit) = target_at(words, at, now)?;
    Ok(Request::Since(own, target, unit))
}

/// Returns whether the word is read as the name of a zone.
fn names_zone(words: &[u8], at: usize) -> bool {
    match word_at(words, at) {
        Some(word) => is_zone_like(word),
        None => false,
    }
}

/// Parses `ZONE`, the last word.
pub(crate) fn zone_at<'a, S: Files>(
    words: &'a [u8],
    at: usize,
    files: &mut SystemFiles<'_, 'a, S>,
) -> Result<Zone<'a>, WordError>
    requires { at + 1 < 2 ^ 64 }
{
    let zone = first_zone_at(words, at, files)?;
    check_end(words, at + 1)?;
    Ok(zone)
}

/// Parses `ZONE`, after which words may follow.
fn first_zone_at<'a, S: Files>(
    words: &'a [u8],
    at: usize,
    files: &mut SystemFiles<'_, 'a, S>,
) -> Result<Zone<'a>, WordError> {
    let error = word_error_at(at, Expected::Zone);
    let name = word_at(words, at).ok_or(error)?;
    zone_of(name, error, files)
}

/// Returns the word expected for the verb. At index 0, options such as `--help` are allowed too.
fn expected_verb(at: usize) -> Expected {
    if at == 0 {
        Expected::Start
    } else {
        Expected::Verb
    }
}

/// Parses `PERIOD`, `N` or `N UNIT`. The default unit is days.
fn amount_at(words: &[u8], at: usize) -> Result<Move, WordError>
    requires { at + 2 < 2 ^ 64 }
{
    if has_period(words, at) {
        let period = only_at(words, at, iso_period_of, Expected::IsoPeriod)?;
        return Ok(Move::Period(period));
    }
    let number = word_as(words, at, parse_i64, Expected::Number)?;
    let unit = unit_at(words, at + 1)?;
    match amount_of(number, unit) {
        Some(by) => Ok(by),
        None => Err(word_error_at(at, Expected::Amount)),
    }
}

/// Returns whether the word at an index begins as a period does.
pub(crate) fn has_period(words: &[u8], at: usize) -> bool {
    match word_at(words, at) {
        Some(word) => is_period_like(word),
        None => false,
    }
}

/// Parses the last word as a unit. The default is days.
fn unit_at(words: &[u8], at: usize) -> Result<TimeUnit, WordError>
    requires { at + 1 < 2 ^ 64 }
{
    if ends_at(words, at) {
        return Ok(TimeUnit::Days);
    }
    only_at(words, at, unit_of, Expected::UnitOfTime)
}

/// Returns the move by `number` units, or `None` if a duration can't hold them.
fn amount_of(number: i64, unit: TimeUnit) -> Option<Move> {
    match unit {
        TimeUnit::Years => Some(Move::Day(DayMove::Years(number))),
        TimeUnit::Months => Some(Move::Day(DayMove::Months(number))),
        TimeUnit::Workdays => Some(Move::Day(DayMove::Workdays(number))),
        TimeUnit::Weeks => Some(Move::Days(duration_of(number, 604_800)?)),
        TimeUnit::Days => Some(Move::Days(duration_of(number, 86_400)?)),
        TimeUnit::Hours => Some(Move::Add(duration_of(number, 3_600)?)),
        TimeUnit::Minutes => Some(Move::Add(duration_of(number, 60)?)),
        TimeUnit::Seconds => Some(Move::Add(duration_of(number, 1)?)),
    }
}

/// Returns the duration of `number` units of `unit` seconds each.
fn duration_of(number: i64, unit: u32) -> Option<SignedDuration> {
    let seconds = number.checked_mul(i64::from(unit))?;
    Some(SignedDuration::seconds(seconds))
}

/// Parses `WEEKDAY` or `WEEKDAY N`.
fn occurrence_at(words: &[u8], at: usize) -> Result<(Weekday, u8), WordError>
    requires { at + 2 < 2 ^ 64 }
{
    let weekday = word_as(words, at, weekday_of, Expected::Weekday)?;
    Ok((weekday, count_at(words, at + 1)?))
}

/// Parses the last word as a count. The default is 1.
fn count_at(words: &[u8], at: usize) -> Result<u8, WordError>
    requires { at + 1 < 2 ^ 64 }
{
    if ends_at(words, at) {
        return Ok(1);
    }
    only_at(words, at, parse_u8, Expected::Count)
}
