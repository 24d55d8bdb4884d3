//! Parsing commands.
ghost use Rattle.std.specs.Prelude.{◌≡◌, ℕ, List, [], ◌∷◌, MatchOption};
ghost use Rattle.caltool.specs.Commands.{command_of, julian_command, ordinal_command, calendar_command, iso_command, show_command, add_command, moment_command, further_command, weekday_from_number};
ghost use Rattle.caltool.specs.Lines.{words_of};

use crate::lines::index_of;
use crate::number::{parse_i32, parse_i64, parse_u8, parse_u16};
use cal_time::Weekday;

/// Unwraps an option, or returns `None`. The proof is shorter than with `?`.
macro_rules! or_none {
    ($option:expr) => {
        match $option {
            Some(value) => value,
            None => return None,
        }
    };
}

/// A command, which a line spells.
#[derive(Clone, Copy)]
pub enum Command {
    /// `julian N`: the day with this Julian day.
    Julian(i32),
    /// `ordinal Y N`: the day with this year and ordinal.
    Ordinal(i32, u16),
    /// `calendar Y M D`: the day with this year, month and day of the month.
    Calendar(i32, u8, u8),
    /// `iso Y W D`: the day with this ISO year, week and weekday.
    Iso(i32, u8, Weekday),
    /// `show N`: the date and the ISO week date of this Julian day.
    Show(i32),
    /// `add N S`: this Julian day, plus a number of seconds.
    Add(i32, i64),
    /// `moment N H M S D`: this day at this time of day, plus a number of seconds.
    Moment(i32, u8, u8, u8, i64),
}

/// Parses a line as a command. All words are parsed before any is used.
#[tactic(auto, using(crate::proofs::Commands::one_word), unfolding(crate::specs::Commands::command_of))]
pub fn parse_command(line: &[u8]) -> Option<Command>
    ensures { result ≡ command_of (words_of line.now) }
{
    let (name, words) = or_none!(first_word(line));
    if name == b"julian".as_slice() {
        parse_julian(words)
    } else if name == b"ordinal".as_slice() {
        parse_ordinal(words)
    } else if name == b"calendar".as_slice() {
        parse_calendar(words)
    } else if name == b"iso".as_slice() {
        parse_iso(words)
    } else {
        parse_further_command(name, words)
    }
}

/// Parses a command whose name is `show`, `add` or `moment`.
#[tactic(auto, unfolding(crate::specs::Commands::further_command))]
fn parse_further_command(name: &[u8], words: &[u8]) -> Option<Command>
    ensures { result ≡ further_command name.now (words_of words.now) }
{
    if name == b"show".as_slice() {
        parse_show(words)
    } else if name == b"add".as_slice() {
        parse_add(words)
    } else if name == b"moment".as_slice() {
        parse_moment(words)
    } else {
        None
    }
}

#[tactic(auto, unfolding(crate::specs::Commands::julian_command))]
fn parse_julian(words: &[u8]) -> Option<Command>
    ensures { result ≡ julian_command (words_of words.now) }
{
    let julian_day = or_none!(only_word(words));
    Some(Command::Julian(or_none!(parse_i32(julian_day))))
}

#[tactic(auto, unfolding(crate::specs::Commands::ordinal_command))]
fn parse_ordinal(words: &[u8]) -> Option<Command>
    ensures { result ≡ ordinal_command (words_of words.now) }
{
    let (year, words) = or_none!(first_word(words));
    let ordinal = or_none!(only_word(words));
    Some(Command::Ordinal(or_none!(parse_i32(year)), or_none!(parse_u16(ordinal))))
}

#[tactic(auto, unfolding(crate::specs::Commands::calendar_command))]
fn parse_calendar(words: &[u8]) -> Option<Command>
    ensures { result ≡ calendar_command (words_of words.now) }
{
    let (year, words) = or_none!(first_word(words));
    let (month, words) = or_none!(first_word(words));
    let day = or_none!(only_word(words));
    Some(Command::Calendar(
        or_none!(parse_i32(year)),
        or_none!(parse_u8(month)),
        or_none!(parse_u8(day)),
    ))
}

#[tactic(auto, unfolding(crate::specs::Commands::iso_command))]
fn parse_iso(words: &[u8]) -> Option<Command>
    ensures { result ≡ iso_command (words_of words.now) }
{
    let (year, words) = or_none!(first_word(words));
    let (week, words) = or_none!(first_word(words));
    let number = or_none!(only_word(words));
    parse_iso_numbers(year, week, number)
}

/// Parses the numbers of `iso`.
#[tactic(auto, unfolding(crate::specs::Commands::iso_command))]
fn parse_iso_numbers(year: &[u8], week: &[u8], number: &[u8]) -> Option<Command>
    ensures { result ≡ iso_command (year.now ∷ week.now ∷ number.now ∷ []) }
{
    let number = or_none!(parse_u8(number));
    Some(Command::Iso(
        or_none!(parse_i32(year)),
        or_none!(parse_u8(week)),
        or_none!(weekday_from_number(number)),
    ))
}

#[tactic(auto, unfolding(crate::specs::Commands::show_command))]
fn parse_show(words: &[u8]) -> Option<Command>
    ensures { result ≡ show_command (words_of words.now) }
{
    let julian_day = or_none!(only_word(words));
    Some(Command::Show(or_none!(parse_i32(julian_day))))
}

#[tactic(auto, unfolding(crate::specs::Commands::add_command))]
fn parse_add(words: &[u8]) -> Option<Command>
    ensures { result ≡ add_command (words_of words.now) }
{
    let (julian_day, words) = or_none!(first_word(words));
    let seconds = or_none!(only_word(words));
    Some(Command::Add(
        or_none!(parse_i32(julian_day)),
        or_none!(parse_i64(seconds)),
    ))
}

#[tactic(auto, unfolding(crate::specs::Commands::moment_command))]
fn parse_moment(words: &[u8]) -> Option<Command>
    ensures { result ≡ moment_command (words_of words.now) }
{
    let (julian_day, words) = or_none!(first_word(words));
    let (hour, words) = or_none!(first_word(words));
    let (minute, words) = or_none!(first_word(words));
    let (second, words) = or_none!(first_word(words));
    let seconds = or_none!(only_word(words));
    parse_moment_numbers(julian_day, hour, minute, second, seconds)
}

/// Parses the numbers of `moment`.
#[tactic(auto, unfolding(crate::specs::Commands::moment_command))]
fn parse_moment_numbers(
    julian_day: &[u8],
    hour: &[u8],
    minute: &[u8],
    second: &[u8],
    seconds: &[u8],
) -> Option<Command>
    ensures { result ≡ moment_command
        (julian_day.now ∷ hour.now ∷ minute.now ∷ second.now ∷ seconds.now ∷ []) }
{
    Some(Command::Moment(
        or_none!(parse_i32(julian_day)),
        or_none!(parse_u8(hour)),
        or_none!(parse_u8(minute)),
        or_none!(parse_u8(second)),
        or_none!(parse_i64(seconds)),
    ))
}

/// Returns the weekday with a number, from 1, Monday, to 7, Sunday.
fn weekday_from_number(number: u8) -> Option<Weekday>
    ensures { result ≡ weekday_from_number number }
{
    if number == 0 || number > 7 {
        return None;
    }
    Some(Weekday::Monday.nth_next(number - 1))
}

/// Returns the first word and the bytes after its space, or `None` without a space.
#[tactic(auto, using(crate::proofs::Parts::words_of_some, crate::proofs::Parts::words_of_none, std::proofs::lemmas::List::take_rest))]
fn first_word(bytes: &[u8]) -> Option<(&[u8], &[u8])>
    ensures { MatchOption result (words_of bytes.now ≡ bytes.now ∷ [])
        (λ parts. words_of bytes.now ≡ parts.0.now ∷ words_of parts.1.now) }
{
    let at = or_none!(index_of(b' ', bytes));
    Some((&bytes[..at], &bytes[at + 1..]))
}

/// Returns the bytes if they are one word.
#[tactic(auto, using(crate::proofs::Parts::two_words, crate::proofs::Parts::words_of_none))]
fn only_word(bytes: &[u8]) -> Option<&[u8]>
    ensures { MatchOption result
        ((first second : List ℕ) × (more : List (List ℕ))
        × (words_of bytes.now ≡ first ∷ second ∷ more))
        (λ word. words_of bytes.now ≡ word.now ∷ []) }
{
    match index_of(b' ', bytes) {
        Some(_) => None,
        None => Some(bytes),
    }
}
