//! The words of a rule.
ghost use Rattle.std.specs.Prelude.{◌≡◌};
ghost use Rattle.cal_holiday_text.specs.Rules.{after_word, first_word_of, has_all_years, long_year_of, move_of, rule_after, rule_within, with_move, with_word, with_years, year_or, yearly_rule_of, years_around, years_of};

use crate::days::{day_of, days_of};
use cal_holidays::{HolidayDay, HolidayRule};
use cal_recurrence::{count_of, cut, split, weekday_of};
use cal_time::limits::{MAX_YEAR, MIN_YEAR};
use cal_time::{Cycle, Weekday};

/// Returns the rule of a day in the years from one through another, with no moves.
fn rule_within(first_year: i32, last_year: i32, day: HolidayDay) -> HolidayRule
    ensures { result ≡ rule_within first_year last_year day }
{
    HolidayRule {
        day,
        first_year,
        last_year,
        moves: [0; 7],
    }
}

/// Parses a year of more than two digits.
fn long_year_of(word: &[u8]) -> Option<i32>
    ensures { result ≡ long_year_of word.now }
{
    if word.len() <= 2 {
        return None;
    }
    Some(count_of(word, 999_999)? as i32)
}

/// Parses a day in each year.
#[tactic(auto, unfolding(crate::specs::Rules::yearly_rule_of))]
fn yearly_rule_of(word: &[u8]) -> Option<HolidayRule>
    ensures { result ≡ yearly_rule_of word.now }
{
    Some(rule_within(MIN_YEAR, MAX_YEAR, day_of(2000, word)?))
}

/// Parses the first word of a rule: a day in each year such as `12-25`, or in one year such as
/// `2024-12-27`.
#[tactic(auto, unfolding(crate::specs::Rules::first_word_of))]
fn first_word_of(word: &[u8]) -> Option<HolidayRule>
    ensures { result ≡ first_word_of word.now }
{
    let (front, rest) = cut(word, b'-');
    match long_year_of(front) {
        Some(year) => {
            let day = day_of(year, rest.unwrap_or(b"".as_slice()))?;
            Some(rule_within(year, year, day))
        }
        None => yearly_rule_of(word),
    }
}

/// Parses a year, or returns a default for no bytes.
fn year_or(default: i32, word: &[u8]) -> Option<i32>
    ensures { result ≡ year_or default word.now }
{
    if word.is_empty() {
        return Some(default);
    }
    Some(count_of(word, 999_999)? as i32)
}

/// Parses years, by the bytes before and after the first point.
#[tactic(auto, unfolding(crate::specs::Rules::years_around))]
fn years_around(first: &[u8], rest: &[u8]) -> Option<(i32, i32)>
    ensures { result ≡ years_around first.now rest.now }
{
    match rest {
        [b'.', last @ ..] => {
            let first = year_or(MIN_YEAR, first)?;
            let last = year_or(MAX_YEAR, last)?;
            Some((first, last))
        }
        _ => None,
    }
}

/// Parses years, such as `1999..2009`, `1999..` or `..2009`.
fn years_of(word: &[u8]) -> Option<(i32, i32)>
    ensures { result ≡ years_of word.now }
{
    let (first, rest) = cut(word, b'.');
    years_around(first, rest.unwrap_or(b"".as_slice()))
}

/// Returns `true` if the rule is in force in all years.
fn has_all_years(rule: HolidayRule) -> bool
    ensures { result ≡ has_all_years rule }
{
    rule.first_year == MIN_YEAR && rule.last_year == MAX_YEAR
}

/// Returns the rule in these years, or `None` if it has years, or the first one is after the last
/// one.
fn with_years(rule: HolidayRule, years: (i32, i32)) -> Option<HolidayRule>
    ensures { result ≡ with_years rule years }
{
    let (first_year, last_year) = years;
    if !has_all_years(rule) || first_year > last_year {
        return None;
    }
    let mut changed = rule;
    changed.first_year = first_year;
    changed.last_year = last_year;
    Some(changed)
}

/// Parses a move, such as `SU+1`.
fn move_of(word: &[u8]) -> Option<(Weekday, i8)>
    ensures { result ≡ move_of word.now }
{
    if word.len() < 2 {
        return None;
    }
    let (weekday, days) = split(word, 2);
    let weekday = weekday_of(weekday)?;
    Some((weekday, days_of(days)?))
}

/// Returns the rule with one more move, or `None` if it has one of the weekday.
fn with_move(rule: HolidayRule, days_moved: (Weekday, i8)) -> Option<HolidayRule>
    ensures { result ≡ with_move rule days_moved }
{
    let (weekday, days) = days_moved;
    let place = usize::from(weekday.place());
    let mut moves = rule.moves;
    if moves[place] != 0 {
        return None;
    }
    moves[place] = days;
    Some(HolidayRule {
        day: rule.day,
        first_year: rule.first_year,
        last_year: rule.last_year,
        moves,
    })
}

/// Returns the rule with one more word, or `None` if it is invalid.
#[tactic(auto, unfolding(crate::specs::Rules::with_word))]
fn with_word(rule: HolidayRule, word: &[u8]) -> Option<HolidayRule>
    ensures { result ≡ with_word rule word.now }
{
    match years_of(word) {
        Some(years) => with_years(rule, years),
        None => with_move(rule, move_of(word)?),
    }
}

/// Returns the rule of a line after one more word, or `None` if it is invalid.
fn after_word(rule: Option<HolidayRule>, word: &[u8]) -> Option<HolidayRule>
    ensures { result ≡ after_word rule word.now }
{
    match rule {
        Some(rule) => with_word(rule, word),
        None => first_word_of(word),
    }
}

/// Returns the rule of a line, if it has any words, after what stands between two spaces. Returns
/// `None` for an invalid word.
pub(crate) fn rule_after(rule: Option<HolidayRule>, word: &[u8]) -> Option<Option<HolidayRule>>
    ensures { result ≡ rule_after rule word.now }
{
    if word.is_empty() {
        return Some(rule);
    }
    Some(Some(after_word(rule, word)?))
}
