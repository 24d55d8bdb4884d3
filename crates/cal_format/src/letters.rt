//! Parsing names in any case.
ghost use Rattle.std.specs.Prelude.{◌≡◌, ℕ, ◌-◌, ◌≤◌, ◌++◌, List, Some, length, IsTrue, IfSome};
ghost use Rattle.cal_text.specs.Shape.{GoesPast};
ghost use Rattle.cal_time.specs.Month.{month_of_index};
ghost use Rattle.cal_time.specs.Weekday.{weekday_of_index};
ghost use Rattle.cal_format.specs.Form.{numbered_name, IsNameNumber};
ghost use Rattle.cal_format.specs.Lenient.{IsOut};
ghost use Rattle.cal_format.specs.Variants.{lower, is_letter, same_letters, is_name, letters, least_name, most_name};

use crate::item::Name;
use cal_text::Scanner;
use cal_time::{Month, Weekday};

/// Parses a name in any case, or its first three letters, and returns its number.
pub(crate) fn scan_any_name(scanner: &mut Scanner, name: Name) -> Option<u64>
    ensures value { IfSome result (λ n. IsNameNumber name n
        × GoesPast (λ front. IsTrue (is_name (numbered_name name n) front))
        scanner.old.rest.now scanner.new.rest.now) }
    ensures every { (n : ℕ) (front rest : List ℕ) → IsNameNumber name n
        → IsTrue (is_name (numbered_name name n) front) → IsOut 26 65 rest → IsOut 26 97 rest
        → scanner.old.rest.now ≡ front ++ rest
        → (result ≡ Some n) × (scanner.new.rest.now ≡ rest) }
    ensures shorter { length scanner.new.rest.now ≤ length scanner.old.rest.now }
{
    let count = letters(scanner.rest);
    let number = find_name(&scanner.rest[..count], name, name.most())?;
    scanner.rest = &scanner.rest[count..];
    Some(number)
}

/// Returns the number of a name, up to this number, that is the word in any case, or whose first
/// three letters are.
fn find_name(word: &[u8], name: Name, number: u64) -> Option<u64>
    requires { number ≤ most_name name }
    ensures value { IfSome result (λ n. IsNameNumber name n
        × IsTrue (is_name (numbered_name name n) word.now)) }
    ensures every { (n : ℕ) → n ≤ number → IsNameNumber name n
        → IsTrue (is_name (numbered_name name n) word.now) → result ≡ Some n }
{
    if number < name.least() {
        return None;
    }
    if is_name(name.text(number), word) {
        return Some(number);
    }
    if number == 0 {
        return None;
    }
    find_name(word, name, number - 1)
}

impl Name {
    /// Returns the minimum number of a name of this kind.
    fn least(self) -> u64
        ensures { result ≡ least_name self }
    {
        match self {
            Name::Period | Name::LowerPeriod => 0,
            _ => 1,
        }
    }

    /// Returns the maximum number of a name of this kind.
    fn most(self) -> u64
        ensures { result ≡ most_name self }
    {
        match self {
            Name::Month | Name::MonthAlone | Name::ShortMonth => 12,
            Name::Weekday | Name::ShortWeekday => 7,
            Name::Period | Name::LowerPeriod => 1,
        }
    }

    /// Returns the name with this number.
    #[tactic(auto, using(crate::proofs::EnglishNames::long_names))]
    fn text(self, number: u64) -> &'static [u8]
        requires least { least_name self ≤ number }
        requires most { number ≤ most_name self }
        ensures { result.now ≡ numbered_name self number }
    {
        match self {
            Name::Month | Name::MonthAlone => month(number).name().as_bytes(),
            Name::ShortMonth => &month(number).name().as_bytes()[..3],
            Name::Weekday => weekday(number).name().as_bytes(),
            Name::ShortWeekday => &weekday(number).name().as_bytes()[..3],
            Name::Period => if number == 0 { b"AM" } else { b"PM" },
            Name::LowerPeriod => if number == 0 { b"am" } else { b"pm" },
        }
    }
}

/// Returns the month with this number.
fn month(number: u64) -> Month
    requires { (1 ≤ number) × (number ≤ 12) }
    ensures { result ≡ month_of_index (number - 1) }
{
    Month::January.nth_next((number - 1) as u8)
}

/// Returns the weekday with this number.
fn weekday(number: u64) -> Weekday
    requires { (1 ≤ number) × (number ≤ 7) }
    ensures { result ≡ weekday_of_index (number - 1) }
{
    Weekday::Monday.nth_next((number - 1) as u8)
}

/// Returns `true` if the text is the name in any case, or its first three letters.
fn is_name(name: &[u8], text: &[u8]) -> bool
    ensures { result ≡ is_name name.now text.now }
{
    if same_letters(text, name) {
        return true;
    }
    let count = if name.len() < 3 { name.len() } else { 3 };
    same_letters(text, &name[..count])
}

/// Returns `true` if the texts have the same letters, in any case.
#[tactic(auto, unfolding(crate::specs::Variants::same_letters))]
fn same_letters(text: &[u8], other: &[u8]) -> bool
    ensures { result ≡ same_letters text.now other.now }
{
    match text {
        [] => other.is_empty(),
        [first, rest @ ..] => match other {
            [] => false,
            [byte, others @ ..] => lower(*first) == lower(*byte) && same_letters(rest, others),
        },
    }
}

/// Returns the number of letters at the front of a text.
#[tactic(auto, unfolding(crate::specs::Variants::letters))]
fn letters(text: &[u8]) -> usize
    ensures value { result ≡ letters text.now }
    ensures range { result ≤ length text.now }
{
    match text {
        [] => 0,
        [first, others @ ..] => {
            if is_letter(*first) {
                letters(others) + 1
            } else {
                0
            }
        }
    }
}

pub(crate) fn is_letter(byte: u8) -> bool
    ensures { result ≡ is_letter byte }
{
    let letter = lower(byte);
    97 <= letter && letter <= 122
}

/// Returns a letter in lower case, and another byte as it is.
fn lower(byte: u8) -> u8
    ensures { result ≡ lower byte }
{
    if 65 <= byte && byte <= 90 {
        byte + 32
    } else {
        byte
    }
}
