//! The answers to lines.
ghost use Rattle.std.specs.Prelude.{◌≡◌, ◌+◌, ◌≤◌, ◌++◌, length};
ghost use Rattle.std.specs.Fmt.{signed_decimal};
ghost use Rattle.cal_time.specs.Weekday.{index};
ghost use Rattle.caltool.specs.Answers.{answer_of, add_answer, calendar_answer, clock_text, day_text, iso_answer, julian_answer, later_pair_text, moment_answer, later_date_text, ordinal_answer, pair_text, refusal_text, reply_to, show_answer, week_answer};
ghost use Rattle.caltool.specs.Room.{HasRoom, longest_answer, longest_reply};

use crate::buffer::Buffer;
use crate::command::{Command, parse_command};
use crate::find::{find_calendar_date, find_iso_week_date, find_julian_day, find_ordinal_date};
use cal_time::error::ComponentRange;
use cal_time::{Date, ShortText, SignedDuration, Time, Weekday, add_to_pair};

/// Appends the answer to a line and a line end.
#[tactic(auto, unfolding(crate::specs::Answers::reply_to))]
pub fn reply(buffer: &mut Buffer, line: &[u8])
    requires { HasRoom longest_reply buffer.old }
    ensures { buffer.new ≡ buffer.old ++ reply_to line.now }
{
    push_answer(buffer, parse_command(line));
    buffer.push(b"\n");
}

/// Appends the answer to a command, or to a line that is not a command.
#[tactic(auto, unfolding(crate::specs::Answers::answer_of))]
fn push_answer(buffer: &mut Buffer, command: Option<Command>)
    requires { HasRoom longest_answer buffer.old }
    ensures appended { buffer.new ≡ buffer.old ++ answer_of command }
    ensures max_length { length buffer.new ≤ length buffer.old + longest_answer }
{
    match command {
        Some(Command::Julian(julian_day)) => push_julian(buffer, julian_day),
        Some(Command::Ordinal(year, ordinal)) => push_ordinal(buffer, year, ordinal),
        Some(Command::Calendar(year, month, day)) => push_calendar(buffer, year, month, day),
        Some(Command::Iso(year, week, weekday)) => push_iso(buffer, year, week, weekday),
        Some(Command::Show(julian_day)) => push_show(buffer, julian_day),
        Some(Command::Add(julian_day, seconds)) => push_add(buffer, julian_day, seconds),
        Some(Command::Moment(julian_day, hour, minute, second, seconds)) => {
            push_moment(buffer, julian_day, hour, minute, second, seconds)
        }
        None => buffer.push(b"bad line"),
    }
}

#[tactic(auto, unfolding(crate::specs::Answers::julian_answer))]
fn push_julian(buffer: &mut Buffer, julian_day: i32)
    requires { HasRoom longest_answer buffer.old }
    ensures appended { buffer.new ≡ buffer.old ++ julian_answer julian_day }
    ensures max_length { length buffer.new ≤ length buffer.old + longest_answer }
{
    match find_julian_day(julian_day) {
        Ok(date) => push_day(buffer, date),
        Err(error) => push_refusal(buffer, error),
    }
}

#[tactic(auto, unfolding(crate::specs::Answers::ordinal_answer))]
fn push_ordinal(buffer: &mut Buffer, year: i32, ordinal: u16)
    requires { HasRoom longest_answer buffer.old }
    ensures appended { buffer.new ≡ buffer.old ++ ordinal_answer year ordinal }
    ensures max_length { length buffer.new ≤ length buffer.old + longest_answer }
{
    match find_ordinal_date(year, ordinal) {
        Ok(date) => push_day(buffer, date),
        Err(error) => push_refusal(buffer, error),
    }
}

#[tactic(auto, unfolding(crate::specs::Answers::calendar_answer))]
fn push_calendar(buffer: &mut Buffer, year: i32, month: u8, day: u8)
    requires { HasRoom longest_answer buffer.old }
    ensures appended { buffer.new ≡ buffer.old ++ calendar_answer year month day }
    ensures max_length { length buffer.new ≤ length buffer.old + longest_answer }
{
    match find_calendar_date(year, month, day) {
        Ok(date) => push_day(buffer, date),
        Err(error) => push_refusal(buffer, error),
    }
}

#[tactic(auto, unfolding(crate::specs::Answers::iso_answer))]
fn push_iso(buffer: &mut Buffer, year: i32, week: u8, weekday: Weekday)
    requires { HasRoom longest_answer buffer.old }
    ensures appended { buffer.new ≡ buffer.old ++ iso_answer year week (index weekday) }
    ensures max_length { length buffer.new ≤ length buffer.old + longest_answer }
{
    match find_iso_week_date(year, week, weekday) {
        Ok(date) => push_day(buffer, date),
        Err(error) => push_refusal(buffer, error),
    }
}

#[tactic(auto, unfolding(crate::specs::Answers::show_answer))]
fn push_show(buffer: &mut Buffer, julian_day: i32)
    requires { HasRoom longest_answer buffer.old }
    ensures appended { buffer.new ≡ buffer.old ++ show_answer julian_day }
    ensures max_length { length buffer.new ≤ length buffer.old + longest_answer }
{
    match find_julian_day(julian_day) {
        Ok(date) => push_week(buffer, date),
        Err(error) => push_refusal(buffer, error),
    }
}

#[tactic(auto, unfolding(crate::specs::Answers::add_answer))]
fn push_add(buffer: &mut Buffer, julian_day: i32, seconds: i64)
    requires { HasRoom longest_answer buffer.old }
    ensures appended { buffer.new ≡ buffer.old ++ add_answer julian_day seconds }
    ensures max_length { length buffer.new ≤ length buffer.old + longest_answer }
{
    match find_julian_day(julian_day) {
        Ok(date) => push_later_date(buffer, date, seconds),
        Err(error) => push_refusal(buffer, error),
    }
}

#[tactic(auto, unfolding(crate::specs::Answers::moment_answer))]
fn push_moment(buffer: &mut Buffer, julian_day: i32, hour: u8, minute: u8, second: u8, seconds: i64)
    requires { HasRoom longest_answer buffer.old }
    ensures appended { buffer.new ≡ buffer.old ++ moment_answer julian_day hour minute second seconds }
    ensures max_length { length buffer.new ≤ length buffer.old + longest_answer }
{
    match find_julian_day(julian_day) {
        Ok(date) => push_clock(buffer, date, hour, minute, second, seconds),
        Err(error) => push_refusal(buffer, error),
    }
}

#[tactic(auto, unfolding(crate::specs::Answers::clock_text))]
fn push_clock(buffer: &mut Buffer, date: Date, hour: u8, minute: u8, second: u8, seconds: i64)
    requires { HasRoom longest_answer buffer.old }
    ensures appended { buffer.new ≡ buffer.old ++ clock_text hour minute second seconds date }
    ensures max_length { length buffer.new ≤ length buffer.old + longest_answer }
{
    match Time::from_hms(hour, minute, second) {
        Ok(time) => push_later_pair(buffer, date, time, seconds),
        Err(error) => push_refusal(buffer, error),
    }
}

#[tactic(auto, unfolding(crate::specs::Answers::later_pair_text))]
fn push_later_pair(buffer: &mut Buffer, date: Date, time: Time, seconds: i64)
    requires { HasRoom longest_answer buffer.old }
    ensures appended { buffer.new ≡ buffer.old ++ later_pair_text seconds date time }
    ensures max_length { length buffer.new ≤ length buffer.old + longest_answer }
{
    match add_to_pair(date, time, SignedDuration::seconds(seconds)) {
        Some(pair) => push_pair(buffer, pair.0, pair.1),
        None => buffer.push(b"none"),
    }
}

#[tactic(auto, unfolding(crate::specs::Answers::later_date_text))]
fn push_later_date(buffer: &mut Buffer, date: Date, seconds: i64)
    requires { HasRoom longest_answer buffer.old }
    ensures appended { buffer.new ≡ buffer.old ++ later_date_text seconds date }
    ensures max_length { length buffer.new ≤ length buffer.old + longest_answer }
{
    match date.checked_add(SignedDuration::seconds(seconds)) {
        Some(moved) => buffer.push(moved.text().as_bytes()),
        None => buffer.push(b"none"),
    }
}

#[tactic(auto, unfolding(crate::specs::Answers::pair_text))]
fn push_pair(buffer: &mut Buffer, date: Date, time: Time)
    requires { HasRoom longest_answer buffer.old }
    ensures appended { buffer.new ≡ buffer.old ++ pair_text date time }
    ensures max_length { length buffer.new ≤ length buffer.old + longest_answer }
{
    buffer.push(date.text().as_bytes());
    buffer.push(b" ");
    buffer.push(time.text().as_bytes());
}

fn push_day(buffer: &mut Buffer, date: Date)
    requires { HasRoom longest_answer buffer.old }
    ensures appended { buffer.new ≡ buffer.old ++ day_text date }
    ensures max_length { length buffer.new ≤ length buffer.old + longest_answer }
{
    push_number(buffer, date.year());
    buffer.push(b" ordinal ");
    push_number(buffer, i32::from(date.ordinal()));
    buffer.push(b" julian ");
    push_number(buffer, date.to_julian_day());
}

fn push_week(buffer: &mut Buffer, date: Date)
    requires { HasRoom longest_answer buffer.old }
    ensures appended { buffer.new ≡ buffer.old ++ week_answer date }
    ensures max_length { length buffer.new ≤ length buffer.old + longest_answer }
{
    let (year, week, weekday) = date.to_iso_week_date();
    buffer.push(date.text().as_bytes());
    buffer.push(b" iso ");
    push_number(buffer, year);
    buffer.push(b" ");
    push_number(buffer, i32::from(week));
    buffer.push(b" ");
    push_number(buffer, i32::from(weekday.number_from_monday()));
    buffer.push(b" ");
    buffer.push(weekday.name().as_bytes());
}

#[tactic(auto, using(cal_time::proofs::TextLengths::text_lengths))]
fn push_number(buffer: &mut Buffer, number: i32)
    requires { HasRoom 11 buffer.old }
    ensures appended { buffer.new ≡ buffer.old ++ signed_decimal number }
    ensures max_length { length buffer.new ≤ length buffer.old + 11 }
{
    let mut text = ShortText::new();
    text.push_i32(number);
    buffer.push(text.as_bytes());
}

#[tactic(auto, unfolding(crate::specs::Answers::refusal_text))]
fn push_refusal(buffer: &mut Buffer, error: ComponentRange)
    requires { HasRoom longest_answer buffer.old }
    ensures appended { buffer.new ≡ buffer.old ++ refusal_text error }
    ensures max_length { length buffer.new ≤ length buffer.old + longest_answer }
{
    buffer.push(b"refused ");
    buffer.push(error.name().as_bytes());
    if error.is_conditional() {
        buffer.push(b" conditional");
    }
}
