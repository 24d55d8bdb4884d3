//! The answer to the text of a line.
ghost use Rattle.std.specs.Prelude.{◌≡◌, ◌+◌, ◌≤◌, ◌++◌, ◌∷◌, ℕ, ℤ, List, None, Some, Ok, Err, IfOk, IfErr, false, true, length, MatchOption};
ghost use Rattle.std.specs.Fmt.{signed_decimal};
ghost use Rattle.cal_datetime.specs.OffsetDateTime.{LocalAndOffset};
ghost use Rattle.cal_schedule.specs.Period.{Parts};
ghost use Rattle.cal_text.specs.declared.any.DateOrMoment.{DateOrMoment};
ghost use Rattle.caldate_lines.specs.Room.{HasRoom, longest_answer};
ghost use Rattle.caldate_lines.specs.declared.no_answer.NoAnswer.{NoAnswer};
ghost use Rattle.caldate_answers.specs.Answers.{IsAnswer, IsAnswerAfter, IsAnswerLater, IsAnswerNearest, IsAnswerTo, IsAt, IsBetween, IsBetweenBy, IsBetweenOn, IsMeasured, IsMeasuredOn, IsPrintedAt, form_iso, IsDayLater, IsLater, IsMomentLater, IsMoved, IsMovedAt, IsMovedBy, IsInLanguageAt, IsNotRead, IsOnMovedDay, IsReadAs, compares, floored, form_read, is_date, keeps, moment_of, offset_in, on_day, own_clock, until_text};
ghost use Rattle.caldate_answers.specs.Bounds.{lies_in};
ghost use Rattle.caldate_answers.specs.ClockCounts.{IsCountOn};
ghost use Rattle.caldate_answers.specs.Forms.{IsInForm, IsInLanguage, format_text};
ghost use Rattle.caldate_answers.specs.Periods.{IsPeriodBetween, IsPeriodOn, IsPeriodText};
ghost use Rattle.caldate_answers.specs.Readers.{IsUnreadIn};
ghost use Rattle.caldate_answers.specs.Readings.{IsTextIn};
ghost use Rattle.caldate_answers.specs.Appends.{AppendsSome, AppendsAnswer};
ghost use Rattle.caldate_answers.specs.Scans.{IsReadWith};
ghost use Rattle.caldate_answers.specs.declared.reading.Reading.TheVariants.{Any};
ghost use Rattle.caldate_answers.specs.declared.reading.reader.Reader.{Reader};
ghost use Rattle.caldate_answers.specs.declared.reading.reader.Reader.TheVariants.{Named};

pub(crate) mod bounds;
pub(crate) mod clock;
pub(crate) mod clock_counts;
pub mod clock_moves;
pub(crate) mod counts;
pub(crate) mod durations;
pub(crate) mod forms;
pub mod moves;
pub(crate) mod periods;
pub(crate) mod reasons;
pub(crate) mod signed;
pub(crate) mod texts;

use crate::answer::bounds::{is_comparable, lies_in};
use crate::answer::clock::placed;
use crate::answer::clock_counts::count_on;
use crate::answer::clock_moves::moved_on;
use crate::answer::counts::count_between;
use crate::answer::durations::{push_duration, push_hours, push_period};
use crate::answer::moves::moved_day;
use crate::answer::periods::{after, nearest, period_between, period_on};
use crate::answer::reasons::why_unanswered;
use crate::answer::texts::{
    push_basic, push_date, push_month, push_quarter, push_rfc3339, push_signed, push_unix,
    push_whole_unix,
};
use crate::reading::reader::Reader;
use crate::reading::{Reading, first_reason, read, read_in, reason_of};
use crate::request::{
    Bounds, Clock, DayMove, Filter, Form, Measure, Move, Place, Request, Target, TimeUnit,
};
use cal_datetime::OffsetDateTime;
use cal_format::{Format, Moment};
use cal_named_format::print;
use cal_names::Names;
use cal_rounding::RoundingUnit;
use cal_schedule::{Period, Workdays};
use cal_text::{DateForm, DateOrMoment, MomentForm};
use cal_time::{Date, ShortText, SignedDuration, Time, UtcOffset};
use cal_zone::Zone;
use cal_zone::laws::one_local;
use caldate_lines::no_answer::NoAnswer;
use caldate_lines::output::buffer::Buffer;

/// The maximum length of a string that a format prints with English names: 15 bytes for each of 64
/// items.
const LONGEST_PRINTED: usize = 960;

/// The maximum length of an answer.
const LONGEST_ANSWER: usize = 1000;

/// Appends the answer to `text`, and returns whether its line goes out.
// The results of rare calls are matched, so that no line waits for one in memory.
#[inline(always)]
pub fn push_answer(buffer: &mut Buffer, filter: &Filter<'_>, text: &[u8]) -> Result<bool, NoAnswer>
    requires { HasRoom (length text.now + longest_answer) buffer.old }
    ensures answered { AppendsAnswer (IsAnswer filter.now text.now) result buffer.old buffer.new }
    ensures short { length buffer.new ≤ length buffer.old + length text.now + longest_answer }
    ensures few { keeps filter.now.request ≡ false
        → length buffer.new ≤ length buffer.old + longest_answer }
{
    if reads_six_forms(filter) {
        return match read_in(Reading::Any, text) {
            Ok(found) => push_found(buffer, &None, filter, text, &found),
            Err(error) => match push_by_others(buffer, filter, text, reason_of(error)) {
                Ok(goes_out) => Ok(goes_out),
                Err(why) => Err(why),
            },
        };
    }
    match push_by_forms(buffer, filter, text) {
        Ok(goes_out) => Ok(goes_out),
        Err(why) => Err(why),
    }
}

/// Returns whether a string is first read in the six forms, and its moment is on no clock.
fn reads_six_forms(filter: &Filter<'_>) -> bool
    ensures forms { result ≡ true
        → (others : List Reader) × (filter.now.readers ≡ Named Any ∷ others) }
    ensures clock { result ≡ true → filter.now.clock ≡ None }
{
    match filter.readers.as_slice() {
        [Reader::Named(Reading::Any), ..] => filter.clock.is_none(),
        _ => false,
    }
}

/// Appends the answer to `text`, whatever its forms are, and returns whether its line goes out.
#[inline(never)]
pub fn push_by_forms(
    buffer: &mut Buffer,
    filter: &Filter<'_>,
    text: &[u8],
) -> Result<bool, NoAnswer>
    requires { HasRoom (length text.now + longest_answer) buffer.old }
    ensures answered { AppendsAnswer (IsAnswer filter.now text.now) result buffer.old buffer.new }
    ensures short { length buffer.new ≤ length buffer.old + length text.now + longest_answer }
    ensures few { keeps filter.now.request ≡ false
        → length buffer.new ≤ length buffer.old + longest_answer }
{
    push_read(buffer, filter, text, read_with(filter, text))
}

/// Appends the answer to `text`, which isn't in the six forms for this reason, by the other forms.
/// Returns whether its line goes out.
#[inline(never)]
fn push_by_others(
    buffer: &mut Buffer,
    filter: &Filter<'_>,
    text: &[u8],
    why: NoAnswer,
) -> Result<bool, NoAnswer>
    requires room { HasRoom (length text.now + longest_answer) buffer.old }
    requires forms { (others : List Reader) × (filter.now.readers ≡ Named Any ∷ others) }
    requires clock { filter.now.clock ≡ None }
    requires unread { (found : DateOrMoment) → ¬ IsTextIn Any text.now found }
    requires why { IsUnreadIn Any text.now why }
    ensures answered { AppendsAnswer (IsAnswer filter.now text.now) result buffer.old buffer.new }
    ensures short { length buffer.new ≤ length buffer.old + length text.now + longest_answer }
    ensures few { keeps filter.now.request ≡ false
        → length buffer.new ≤ length buffer.old + longest_answer }
{
    let others = &filter.readers.as_slice()[1..];
    match read(others, &filter.assumptions, text) {
        Ok(found) => push_found(buffer, &None, filter, text, &found),
        Err(later) => Err(first_reason(why, later)),
    }
}

/// Appends the answer to `text`, which is read so, and returns whether its line goes out.
#[inline(always)]
pub fn push_read(
    buffer: &mut Buffer,
    filter: &Filter<'_>,
    text: &[u8],
    read: Result<DateOrMoment, NoAnswer>,
) -> Result<bool, NoAnswer>
    requires room { HasRoom (length text.now + longest_answer) buffer.old }
    requires read { IsReadWith filter.now text.now read }
    ensures answered { AppendsAnswer (IsAnswer filter.now text.now) result buffer.old buffer.new }
    ensures short { length buffer.new ≤ length buffer.old + length text.now + longest_answer }
    ensures few { keeps filter.now.request ≡ false
        → length buffer.new ≤ length buffer.old + longest_answer }
{
    match read {
        Ok(found) => push_found(buffer, &filter.clock, filter, text, &found),
        Err(why) => Err(why),
    }
}

/// Appends the answer to `text`, which is read as this date or moment, and returns whether its line
/// goes out. The clock is that of the filter, passed again so that most lines know if it is absent.
#[inline(always)]
fn push_found(
    buffer: &mut Buffer,
    clock: &Option<Clock<'_>>,
    filter: &Filter<'_>,
    text: &[u8],
    found: &DateOrMoment,
) -> Result<bool, NoAnswer>
    requires room { HasRoom (length text.now + longest_answer) buffer.old }
    requires clock { filter.now.clock ≡ clock.now }
    requires read { IsReadAs filter.now text.now found.now }
    ensures answered { AppendsAnswer (IsAnswer filter.now text.now) result buffer.old buffer.new }
    ensures short { length buffer.new ≤ length buffer.old + length text.now + longest_answer }
    ensures few { keeps filter.now.request ≡ false
        → length buffer.new ≤ length buffer.old + longest_answer }
{
    if push_answer_to(
        buffer,
        clock,
        &filter.workdays,
        &filter.request,
        text,
        found,
    ) {
        Ok(true)
    } else if compares(&filter.request, found) {
        Ok(false)
    } else {
        Err(why_unanswered(clock, &filter.workdays, &filter.request, found))
    }
}

/// Parses the string in the first form that it has, and a local time by the clocks of the zone.
#[inline(always)]
pub fn read_with(filter: &Filter<'_>, text: &[u8]) -> Result<DateOrMoment, NoAnswer>
    ensures every { (found : DateOrMoment) → IsReadAs filter.now text.now found
        → result ≡ Ok found }
    ensures has { IfOk result (IsReadAs filter.now text.now) }
    ensures every_error { (why : NoAnswer) → IsNotRead filter.now text.now why
        → result ≡ Err why }
    ensures error { IfErr result (IsNotRead filter.now text.now) }
{
    match read(filter.readers.as_slice(), &filter.assumptions, text) {
        Ok(found) => placed(&filter.clock, found),
        Err(why) => Err(why),
    }
}

/// Appends the answer for the date or moment of `text`, or nothing. Returns whether it did.
#[inline(always)]
fn push_answer_to(
    buffer: &mut Buffer,
    clock: &Option<Clock<'_>>,
    workdays: &Workdays<'_>,
    request: &Request<'_>,
    text: &[u8],
    found: &DateOrMoment,
) -> bool
    requires { HasRoom (length text.now + longest_answer) buffer.old }
    ensures has { result ≡ true → AppendsSome
        (IsAnswerTo clock.now workdays.now request.now text.now found.now) buffer.old buffer.new }
    ensures none { result ≡ false → (buffer.new ≡ buffer.old)
        × ((words : List ℕ) → ¬ IsAnswerTo clock.now workdays.now request.now text.now found.now words) }
    ensures short { length buffer.new ≤ length buffer.old + length text.now + longest_answer }
    ensures few { keeps request.now ≡ false
        → length buffer.new ≤ length buffer.old + longest_answer }
{
    match request {
        Request::To(form) => push_in_form(buffer, *form, moment_of(found)),
        Request::ToIso => push_in_form(buffer, form_iso(found), moment_of(found)),
        Request::Print(format) => {
            push_printed(buffer, format, moment_of(found));
            true
        }
        Request::PrintInLanguage(format, names) => {
            push_named(buffer, format, names, moment_of(found))
        }
        Request::Move(by) => push_moved_by(buffer, clock, workdays, by, found),
        Request::MoveAt(clock, by) => {
            let form = Form::Moment(MomentForm::Rfc3339);
            push_moved_at(buffer, clock, workdays, *by, form, moment_of(found))
        }
        Request::Until(own, Target::Text(to), unit) => {
            push_between_at(buffer, own, clock, workdays, *unit, found, to)
        }
        Request::Since(own, Target::Text(from), unit) => {
            push_between_at(buffer, own, clock, workdays, *unit, from, found)
        }
        Request::Until(_, Target::Fields(_), _) => false,
        Request::Until(_, Target::Name(_), _) => false,
        Request::Since(_, Target::Fields(_), _) => false,
        Request::Since(_, Target::Name(_), _) => false,
        Request::At(place, form) => push_at(buffer, place, *form, moment_of(found)),
        Request::PrintAt(place, format) => {
            push_printed_at(buffer, place, format, moment_of(found))
        }
        Request::PrintInLanguageAt(place, format, names) => {
            push_named_at(buffer, place, format, names, moment_of(found))
        }
        Request::Keep(bounds) => push_kept(buffer, bounds, text, found),
    }
}

/// Appends the string if its date or moment lies within the bounds. Returns whether it does.
#[inline(always)]
fn push_kept(buffer: &mut Buffer, bounds: &Bounds, text: &[u8], found: &DateOrMoment) -> bool
    requires { HasRoom (length text.now + longest_answer) buffer.old }
    ensures has { result ≡ true → (lies_in bounds.now found.now ≡ Some true)
        × (buffer.new ≡ buffer.old ++ text.now) }
    ensures none { result ≡ false → (buffer.new ≡ buffer.old)
        × ¬ (lies_in bounds.now found.now ≡ Some true) }
    ensures short { length buffer.new ≤ length buffer.old + length text.now + longest_answer }
{
    match lies_in(bounds, found) {
        Some(true) => {
            buffer.push(text);
            true
        }
        _ => false,
    }
}

/// Returns whether a `keep` request compares the date or moment with its bounds.
fn compares(request: &Request<'_>, found: &DateOrMoment) -> bool
    ensures { result ≡ compares request.now found.now }
{
    match request {
        Request::Keep(bounds) => is_comparable(bounds, found),
        _ => false,
    }
}

/// Returns the moment. A date becomes midnight UTC.
pub fn moment_of(found: &DateOrMoment) -> OffsetDateTime
    ensures { result ≡ moment_of found.now }
{
    match found {
        DateOrMoment::Date(_, date) => OffsetDateTime::new_utc(*date, Time::MIDNIGHT),
        DateOrMoment::Moment(_, moment) => *moment,
    }
}

/// Returns the form in which a date or moment was read.
fn form_read(found: &DateOrMoment) -> Form
    ensures { result ≡ form_read found.now }
{
    match found {
        DateOrMoment::Date(form, _) => Form::Date(*form),
        DateOrMoment::Moment(form, _) => Form::Moment(*form),
    }
}

/// Returns the form of ISO 8601 for a date or a moment: a calendar date, or RFC 3339.
fn form_iso(found: &DateOrMoment) -> Form
    ensures { result ≡ form_iso found.now }
{
    match found {
        DateOrMoment::Date(_, _) => Form::Date(DateForm::Calendar),
        DateOrMoment::Moment(_, _) => Form::Moment(MomentForm::Rfc3339),
    }
}

/// Replaces the date of a moment and keeps its time of day and offset.
fn on_day(moment: OffsetDateTime, date: Date) -> OffsetDateTime
    ensures { result ≡ on_day moment date }
{
    OffsetDateTime::new_in_offset(date, moment.time(), moment.offset())
}

/// Rounds the time of day down to a multiple of `minutes` minutes, or of 1 for 0.
pub(crate) fn floored(minutes: u16, moment: OffsetDateTime) -> OffsetDateTime
    ensures { result ≡ floored minutes moment }
{
    let time = moment.time();
    let past = u16::from(time.hour()) * 60 + u16::from(time.minute());
    let floor = past - past % minutes.max(1);
    match Time::from_hms((floor / 60) as u8, (floor % 60) as u8, 0) {
        Ok(time) => OffsetDateTime::new_in_offset(moment.date(), time, moment.offset()),
        Err(_) => unreachable!(),
    }
}

/// Appends a moment in a form, or nothing if the form can't express it. Returns whether it can.
#[inline(always)]
fn push_in_form(buffer: &mut Buffer, form: Form, moment: OffsetDateTime) -> bool
    requires { HasRoom longest_answer buffer.old }
    ensures has { result ≡ true → AppendsSome (IsInForm form moment) buffer.old buffer.new }
    ensures none { result ≡ false → (buffer.new ≡ buffer.old)
        × ((words : List ℕ) → ¬ IsInForm form moment words) }
    ensures short { length buffer.new ≤ length buffer.old + longest_answer }
{
    match form {
        Form::Date(form) => push_date(buffer, form, moment.date()),
        Form::Weekday => buffer.push(moment.date().weekday().name().as_bytes()),
        Form::Moment(MomentForm::Rfc3339) => return push_rfc3339(buffer, moment),
        Form::Moment(MomentForm::Unix) => push_unix(buffer, moment),
        Form::ShortWeekday => buffer.push(&moment.date().weekday().name().as_bytes()[..3]),
        Form::Month => push_month(buffer, moment.date()),
        Form::Quarter => push_quarter(buffer, moment.date()),
        Form::Basic => return push_basic(buffer, moment),
        Form::Unix(unit) => push_whole_unix(buffer, unit, moment),
    }
    true
}

/// Appends a moment in a format with the names of a language, or nothing. Returns whether the
/// string has at most 1000 bytes.
#[inline(never)]
fn push_named(
    buffer: &mut Buffer,
    format: &Format,
    names: &Names<'_>,
    moment: OffsetDateTime,
) -> bool
    requires { HasRoom longest_answer buffer.old }
    ensures has { result ≡ true
        → AppendsSome (IsInLanguage names.now format.now moment) buffer.old buffer.new }
    ensures none { result ≡ false → (buffer.new ≡ buffer.old)
        × ((words : List ℕ) → ¬ IsInLanguage names.now format.now moment words) }
    ensures short { length buffer.new ≤ length buffer.old + longest_answer }
{
    let moment = Moment::of_offset_date_time(moment);
    let mut text = [0u8; LONGEST_ANSWER];
    match print(format.items(), names, &moment, &mut text, 0) {
        Some(end) => {
            buffer.push(&text[..end]);
            true
        }
        None => false,
    }
}

/// Appends a moment in a format.
#[inline(never)]
#[tactic(auto, using(crate::proofs::Printed::printable))]
fn push_printed(buffer: &mut Buffer, format: &Format, moment: OffsetDateTime)
    requires { HasRoom longest_answer buffer.old }
    ensures text { buffer.new ≡ buffer.old ++ format_text format.now moment }
    ensures short { length buffer.new ≤ length buffer.old + longest_answer }
{
    let _items = format.items();
    let _parts = (moment.date(), moment.time(), moment.offset());
    let mut text = [0u8; LONGEST_PRINTED];
    // The arguments have no format with `%Z`, which would print nothing here.
    match format.print_in_zone(moment, b"", &mut text) {
        Some(end) => buffer.push(&text[..end]),
        None => unreachable!(),
    }
}

/// Adds a duration, or returns `None` if the result is out of range.
fn later(found: &DateOrMoment, duration: SignedDuration) -> Option<OffsetDateTime>
    ensures { MatchOption result ((m : LocalAndOffset) → ¬ IsLater found.now duration m)
        (IsLater found.now duration) }
{
    match found {
        DateOrMoment::Date(_, date) => day_later(*date, duration),
        DateOrMoment::Moment(_, moment) => moment_later(*moment, duration),
    }
}

/// Returns midnight UTC on the day after adding the whole days of the duration.
fn day_later(date: Date, duration: SignedDuration) -> Option<OffsetDateTime>
    ensures { MatchOption result ((m : LocalAndOffset) → ¬ IsDayLater date duration m)
        (IsDayLater date duration) }
{
    match date.checked_add(duration) {
        Some(day) => Some(OffsetDateTime::new_utc(day, Time::MIDNIGHT)),
        None => None,
    }
}

fn moment_later(moment: OffsetDateTime, duration: SignedDuration) -> Option<OffsetDateTime>
    ensures { MatchOption result ((m : LocalAndOffset) → ¬ IsMomentLater moment duration m)
        (IsMomentLater moment duration) }
{
    moment.checked_add(duration)
}

/// Appends the moved date or moment, or nothing. Returns whether there is one.
#[inline(always)]
fn push_moved_by(
    buffer: &mut Buffer,
    clock: &Option<Clock<'_>>,
    workdays: &Workdays<'_>,
    by: &Move,
    found: &DateOrMoment,
) -> bool
    requires { HasRoom longest_answer buffer.old }
    ensures has { result ≡ true → AppendsSome (IsMovedBy clock.now workdays.now by.now found.now)
        buffer.old buffer.new }
    ensures none { result ≡ false → (buffer.new ≡ buffer.old)
        × ((words : List ℕ) → ¬ IsMovedBy clock.now workdays.now by.now found.now words) }
    ensures short { length buffer.new ≤ length buffer.old + longest_answer }
{
    match (clock, found) {
        (Some(clock), DateOrMoment::Moment(form, moment)) => {
            push_moved_at(buffer, clock, workdays, *by, Form::Moment(*form), *moment)
        }
        _ => push_moved(buffer, workdays, by, found),
    }
}

/// Appends a moment moved by the clocks of a zone, or nothing. Returns whether it did.
#[inline(never)]
fn push_moved_at(
    buffer: &mut Buffer,
    clock: &Clock<'_>,
    workdays: &Workdays<'_>,
    by: Move,
    form: Form,
    moment: OffsetDateTime,
) -> bool
    requires { HasRoom longest_answer buffer.old }
    ensures has { result ≡ true → AppendsSome (IsMovedAt clock.now workdays.now by form moment)
        buffer.old buffer.new }
    ensures none { result ≡ false → (buffer.new ≡ buffer.old)
        × ((words : List ℕ) → ¬ IsMovedAt clock.now workdays.now by form moment words) }
    ensures short { length buffer.new ≤ length buffer.old + longest_answer }
{
    one_local(&clock.zone);
    match moved_on(clock, workdays, by, moment) {
        Ok(moved) => push_in_form(buffer, form, moved),
        Err(_) => false,
    }
}

/// Appends the moved date or moment by no clock, or nothing. Returns whether there is one.
#[inline(always)]
fn push_moved(buffer: &mut Buffer, workdays: &Workdays<'_>, by: &Move, found: &DateOrMoment) -> bool
    requires { HasRoom longest_answer buffer.old }
    ensures has { result ≡ true → AppendsSome (IsMoved workdays.now by.now found.now)
        buffer.old buffer.new }
    ensures none { result ≡ false → (buffer.new ≡ buffer.old)
        × ((words : List ℕ) → ¬ IsMoved workdays.now by.now found.now words) }
    ensures short { length buffer.new ≤ length buffer.old + longest_answer }
{
    match by {
        Move::Day(by) => push_on_moved_day(buffer, workdays, *by, found),
        Move::Days(duration) => push_later(buffer, *duration, found),
        Move::Add(duration) => push_later(buffer, *duration, found),
        Move::Floor(minutes) => {
            let floor = floored(*minutes, moment_of(found));
            push_in_form(buffer, form_read(found), floor)
        }
        Move::Period(period) => push_after(buffer, *period, found),
        Move::Round(unit) => push_nearest(buffer, *unit, found),
    }
}

/// Appends the date or moment after adding a duration, or nothing. Returns whether there is one.
#[inline(always)]
fn push_later(buffer: &mut Buffer, duration: SignedDuration, found: &DateOrMoment) -> bool
    requires { HasRoom longest_answer buffer.old }
    ensures has { result ≡ true → AppendsSome (IsAnswerLater duration found.now)
        buffer.old buffer.new }
    ensures none { result ≡ false → (buffer.new ≡ buffer.old)
        × ((words : List ℕ) → ¬ IsAnswerLater duration found.now words) }
    ensures short { length buffer.new ≤ length buffer.old + longest_answer }
{
    match later(found, duration) {
        Some(later) => push_in_form(buffer, form_read(found), later),
        None => false,
    }
}

/// Appends the date or moment a period later, or nothing. Returns whether there is one.
#[inline(never)]
fn push_after(buffer: &mut Buffer, period: Period, found: &DateOrMoment) -> bool
    requires { HasRoom longest_answer buffer.old }
    ensures has { result ≡ true → AppendsSome (IsAnswerAfter period found.now)
        buffer.old buffer.new }
    ensures none { result ≡ false → (buffer.new ≡ buffer.old)
        × ((words : List ℕ) → ¬ IsAnswerAfter period found.now words) }
    ensures short { length buffer.new ≤ length buffer.old + longest_answer }
{
    match after(found, period) {
        Some(later) => push_in_form(buffer, form_read(found), later),
        None => false,
    }
}

/// Appends the rounded date or moment, or nothing. Returns whether there is one.
#[inline(never)]
fn push_nearest(buffer: &mut Buffer, unit: RoundingUnit, found: &DateOrMoment) -> bool
    requires { HasRoom longest_answer buffer.old }
    ensures has { result ≡ true → AppendsSome (IsAnswerNearest unit found.now)
        buffer.old buffer.new }
    ensures none { result ≡ false → (buffer.new ≡ buffer.old)
        × ((words : List ℕ) → ¬ IsAnswerNearest unit found.now words) }
    ensures short { length buffer.new ≤ length buffer.old + longest_answer }
{
    match nearest(moment_of(found), unit) {
        Some(rounded) => push_in_form(buffer, form_read(found), rounded),
        None => false,
    }
}

/// Appends the moved day at the same time of day, or nothing. Returns whether there is one.
fn push_on_moved_day(
    buffer: &mut Buffer,
    workdays: &Workdays<'_>,
    by: DayMove,
    found: &DateOrMoment,
) -> bool
    requires { HasRoom longest_answer buffer.old }
    ensures has { result ≡ true → AppendsSome (IsOnMovedDay workdays.now by found.now)
        buffer.old buffer.new }
    ensures none { result ≡ false → (buffer.new ≡ buffer.old)
        × ((words : List ℕ) → ¬ IsOnMovedDay workdays.now by found.now words) }
    ensures short { length buffer.new ≤ length buffer.old + longest_answer }
{
    let moment = moment_of(found);
    let form = form_read(found);
    match moved_day(workdays, moment.date(), by) {
        Some(day) => push_in_form(buffer, form, on_day(moment, day)),
        None => false,
    }
}

/// Appends the moment in the place in a form, or nothing. Returns whether it has a string.
fn push_at(buffer: &mut Buffer, place: &Place<'_>, form: Form, moment: OffsetDateTime) -> bool
    requires { HasRoom longest_answer buffer.old }
    ensures has { result ≡ true → AppendsSome (IsAt place.now form moment) buffer.old buffer.new }
    ensures none { result ≡ false → (buffer.new ≡ buffer.old)
        × ((words : List ℕ) → ¬ IsAt place.now form moment words) }
    ensures short { length buffer.new ≤ length buffer.old + longest_answer }
{
    match moment.checked_to_offset(offset_in(place, moment)) {
        Some(there) => push_in_form(buffer, form, there),
        None => false,
    }
}

/// Appends the moment in the place in a format, or nothing. Returns whether it is in range there.
#[inline(never)]
fn push_printed_at(
    buffer: &mut Buffer,
    place: &Place<'_>,
    format: &Format,
    moment: OffsetDateTime,
) -> bool
    requires { HasRoom longest_answer buffer.old }
    ensures has { result ≡ true
        → AppendsSome (IsPrintedAt place.now format.now moment) buffer.old buffer.new }
    ensures none { result ≡ false → (buffer.new ≡ buffer.old)
        × ((words : List ℕ) → ¬ IsPrintedAt place.now format.now moment words) }
    ensures short { length buffer.new ≤ length buffer.old + longest_answer }
{
    match moment.checked_to_offset(offset_in(place, moment)) {
        Some(there) => {
            push_printed(buffer, format, there);
            true
        }
        None => false,
    }
}

/// Appends the moment in the place in a format with the names of a language, or nothing. Returns
/// whether it is in range there and the string has at most 1000 bytes.
#[inline(never)]
fn push_named_at(
    buffer: &mut Buffer,
    place: &Place<'_>,
    format: &Format,
    names: &Names<'_>,
    moment: OffsetDateTime,
) -> bool
    requires { HasRoom longest_answer buffer.old }
    ensures has { result ≡ true
        → AppendsSome (IsInLanguageAt place.now names.now format.now moment) buffer.old buffer.new }
    ensures none { result ≡ false → (buffer.new ≡ buffer.old)
        × ((words : List ℕ) → ¬ IsInLanguageAt place.now names.now format.now moment words) }
    ensures short { length buffer.new ≤ length buffer.old + longest_answer }
{
    match moment.checked_to_offset(offset_in(place, moment)) {
        Some(there) => push_named(buffer, format, names, there),
        None => false,
    }
}

/// Returns the offset of the place at the moment.
fn offset_in(place: &Place<'_>, moment: OffsetDateTime) -> UtcOffset
    ensures { result ≡ offset_in place.now moment }
{
    match place {
        Place::Offset(offset) => *offset,
        Place::Zone(zone) => zone.utc_offset_at(moment.unix_timestamp()),
    }
}

/// Appends the measure by the clocks of the request, or by the others if it has none. Returns
/// whether there is one.
#[inline(always)]
pub fn push_between_at(
    buffer: &mut Buffer,
    own: &Option<Clock<'_>>,
    clock: &Option<Clock<'_>>,
    workdays: &Workdays<'_>,
    measure: Option<Measure>,
    from: &DateOrMoment,
    to: &DateOrMoment,
) -> bool
    requires { HasRoom longest_answer buffer.old }
    ensures has { result ≡ true → AppendsSome
        (IsBetweenBy (own_clock own.now clock.now) workdays.now measure from.now to.now) buffer.old buffer.new }
    ensures none { result ≡ false → (buffer.new ≡ buffer.old) × ((words : List ℕ)
        → ¬ IsBetweenBy (own_clock own.now clock.now) workdays.now measure from.now to.now words) }
    ensures short { length buffer.new ≤ length buffer.old + longest_answer }
{
    match own {
        Some(_) => push_between_by(buffer, own, workdays, measure, from, to),
        None => push_between_by(buffer, clock, workdays, measure, from, to),
    }
}

/// Appends the measure, or without one the days or the duration. Returns whether there is one:
/// `false` only if what a clock shows is out of range.
#[inline(always)]
fn push_between_by(
    buffer: &mut Buffer,
    clock: &Option<Clock<'_>>,
    workdays: &Workdays<'_>,
    measure: Option<Measure>,
    from: &DateOrMoment,
    to: &DateOrMoment,
) -> bool
    requires { HasRoom longest_answer buffer.old }
    ensures has { result ≡ true → AppendsSome
        (IsBetweenBy clock.now workdays.now measure from.now to.now) buffer.old buffer.new }
    ensures none { result ≡ false → (buffer.new ≡ buffer.old)
        × ((words : List ℕ) → ¬ IsBetweenBy clock.now workdays.now measure from.now to.now words) }
    ensures short { length buffer.new ≤ length buffer.old + longest_answer }
{
    match clock {
        Some(clock) => push_between_on(buffer, clock, workdays, measure, from, to),
        None => push_between(buffer, workdays, measure, from, to),
    }
}

/// Appends the measure by the clocks of a zone, or without one the days or the duration. Returns
/// whether there is one.
#[inline(never)]
fn push_between_on(
    buffer: &mut Buffer,
    clock: &Clock<'_>,
    workdays: &Workdays<'_>,
    measure: Option<Measure>,
    from: &DateOrMoment,
    to: &DateOrMoment,
) -> bool
    requires { HasRoom longest_answer buffer.old }
    ensures has { result ≡ true → AppendsSome
        (IsBetweenOn clock.now workdays.now measure from.now to.now) buffer.old buffer.new }
    ensures none { result ≡ false → (buffer.new ≡ buffer.old)
        × ((words : List ℕ) → ¬ IsBetweenOn clock.now workdays.now measure from.now to.now words) }
    ensures short { length buffer.new ≤ length buffer.old + longest_answer }
{
    match measure {
        Some(measure) => push_measured_on(buffer, clock, workdays, measure, from, to),
        None => {
            push_until(buffer, from, to);
            true
        }
    }
}

/// Appends the measure by the clocks of a zone, or nothing. Returns whether there is one.
fn push_measured_on(
    buffer: &mut Buffer,
    clock: &Clock<'_>,
    workdays: &Workdays<'_>,
    measure: Measure,
    from: &DateOrMoment,
    to: &DateOrMoment,
) -> bool
    requires { HasRoom longest_answer buffer.old }
    ensures has { result ≡ true → AppendsSome
        (IsMeasuredOn clock.now workdays.now measure from.now to.now) buffer.old buffer.new }
    ensures none { result ≡ false → (buffer.new ≡ buffer.old)
        × ((words : List ℕ) → ¬ IsMeasuredOn clock.now workdays.now measure from.now to.now words) }
    ensures short { length buffer.new ≤ length buffer.old + longest_answer }
{
    match measure {
        Measure::Units(unit) => push_count_on(buffer, &clock.zone, workdays, unit, from, to),
        Measure::Period => push_period_on(buffer, clock, from, to),
        Measure::Duration => push_measured(buffer, workdays, Measure::Duration, from, to),
        Measure::Clock => push_measured(buffer, workdays, Measure::Clock, from, to),
    }
}

/// Appends the number of units by the clocks of a zone, or nothing. Returns whether there is one.
fn push_count_on(
    buffer: &mut Buffer,
    zone: &Zone<'_>,
    workdays: &Workdays<'_>,
    unit: TimeUnit,
    from: &DateOrMoment,
    to: &DateOrMoment,
) -> bool
    requires { HasRoom longest_answer buffer.old }
    ensures has { result ≡ true → AppendsSome (λ words. (z : ℤ)
        × IsCountOn zone.now workdays.now unit from.now to.now z × (words ≡ signed_decimal z))
        buffer.old buffer.new }
    ensures none { result ≡ false → (buffer.new ≡ buffer.old)
        × ((z : ℤ) → ¬ IsCountOn zone.now workdays.now unit from.now to.now z) }
    ensures short { length buffer.new ≤ length buffer.old + longest_answer }
{
    match count_on(zone, workdays, unit, from, to) {
        Some(count) => {
            push_signed(buffer, count);
            true
        }
        None => false,
    }
}

/// Appends the period by the clocks of a zone, or nothing. Returns whether there is one.
fn push_period_on(
    buffer: &mut Buffer,
    clock: &Clock<'_>,
    from: &DateOrMoment,
    to: &DateOrMoment,
) -> bool
    requires { HasRoom longest_answer buffer.old }
    ensures has { result ≡ true → AppendsSome
        (IsPeriodText (IsPeriodOn clock.now from.now to.now)) buffer.old buffer.new }
    ensures none { result ≡ false → (buffer.new ≡ buffer.old)
        × ((p : Parts) → ¬ IsPeriodOn clock.now from.now to.now p) }
    ensures short { length buffer.new ≤ length buffer.old + longest_answer }
{
    match period_on(clock, from, to) {
        Some(period) => {
            push_period(buffer, period);
            true
        }
        None => false,
    }
}

/// Appends the measure, or without one the days or the duration, by no clock. Returns whether there
/// is one.
pub fn push_between(
    buffer: &mut Buffer,
    workdays: &Workdays<'_>,
    measure: Option<Measure>,
    from: &DateOrMoment,
    to: &DateOrMoment,
) -> bool
    requires { HasRoom longest_answer buffer.old }
    ensures has { result ≡ true → AppendsSome (IsBetween workdays.now measure from.now to.now)
        buffer.old buffer.new }
    ensures none { result ≡ false → (buffer.new ≡ buffer.old)
        × ((words : List ℕ) → ¬ IsBetween workdays.now measure from.now to.now words) }
    ensures short { length buffer.new ≤ length buffer.old + longest_answer }
{
    match measure {
        Some(measure) => push_measured(buffer, workdays, measure, from, to),
        None => {
            push_until(buffer, from, to);
            true
        }
    }
}

/// Appends the measure by no clock, or nothing. Returns whether there is one: `false` only if a
/// moment is out of range at the offset of the first.
fn push_measured(
    buffer: &mut Buffer,
    workdays: &Workdays<'_>,
    measure: Measure,
    from: &DateOrMoment,
    to: &DateOrMoment,
) -> bool
    requires { HasRoom longest_answer buffer.old }
    ensures has { result ≡ true → AppendsSome (IsMeasured workdays.now measure from.now to.now)
        buffer.old buffer.new }
    ensures none { result ≡ false → (buffer.new ≡ buffer.old)
        × ((words : List ℕ) → ¬ IsMeasured workdays.now measure from.now to.now words) }
    ensures short { length buffer.new ≤ length buffer.old + longest_answer }
{
    match measure {
        Measure::Units(unit) => {
            let count = count_between(workdays, unit, moment_of(from), moment_of(to));
            push_signed(buffer, count);
            true
        }
        Measure::Period => push_period_between(buffer, moment_of(from), moment_of(to)),
        Measure::Duration => {
            push_duration(buffer, moment_of(to) - moment_of(from));
            true
        }
        Measure::Clock => {
            push_hours(buffer, moment_of(to) - moment_of(from));
            true
        }
    }
}

/// Appends the period between two moments, or nothing. Returns whether there is one.
fn push_period_between(buffer: &mut Buffer, from: OffsetDateTime, to: OffsetDateTime) -> bool
    requires { HasRoom longest_answer buffer.old }
    ensures has { result ≡ true
        → AppendsSome (IsPeriodText (IsPeriodBetween from to)) buffer.old buffer.new }
    ensures none { result ≡ false → (buffer.new ≡ buffer.old)
        × ((p : Parts) → ¬ IsPeriodBetween from to p) }
    ensures short { length buffer.new ≤ length buffer.old + longest_answer }
{
    match period_between(from, to) {
        Some(period) => {
            push_period(buffer, period);
            true
        }
        None => false,
    }
}

/// Appends the days between two dates, or otherwise the duration between two moments.
#[tactic(auto, using(cal_time::proofs::TextLengths::text_lengths))]
fn push_until(buffer: &mut Buffer, from: &DateOrMoment, to: &DateOrMoment)
    requires { HasRoom longest_answer buffer.old }
    ensures text { buffer.new ≡ buffer.old ++ until_text from.now to.now }
    ensures short { length buffer.new ≤ length buffer.old + longest_answer }
{
    let start = moment_of(from);
    let end = moment_of(to);
    if is_date(from) && is_date(to) {
        let mut days = ShortText::new();
        days.push_i32(end.date().to_julian_day() - start.date().to_julian_day());
        buffer.push(days.as_bytes());
    } else {
        buffer.push((end - start).text().as_bytes());
    }
}

/// Returns whether `found` is a date.
pub fn is_date(found: &DateOrMoment) -> bool
    ensures { result ≡ is_date found.now }
{
    match found {
        DateOrMoment::Date(_, _) => true,
        DateOrMoment::Moment(_, _) => false,
    }
}
