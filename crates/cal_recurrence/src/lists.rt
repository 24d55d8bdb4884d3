//! Lists of values.
ghost use Rattle.std.specs.Prelude.{◌≡◌, ◌≤◌, ◌==◌, count_by, length};
ghost use Rattle.cal_schedule.specs.Values.{most_values};
ghost use Rattle.cal_recurrence.specs.SetText.{has_room};
ghost use Rattle.cal_recurrence.specs.Text.{has_few_words, list_of};
ghost use Rattle.cal_recurrence.specs.Words.{parts_at};

use crate::words::cut;
use crate::writing::Word;
use cal_schedule::Values;

/// Counts the commas.
fn commas(value: &[u8]) -> usize
    ensures { result ≡ count_by (λ b. b == 44) value.now }
{
    let mut commas = 0;
    for byte in value {
        if *byte == b',' {
            commas += 1;
        }
    }
    commas
}

/// Returns `true` if the value has at most 62 words with commas between them.
pub fn has_few_words(value: &[u8]) -> bool
    ensures { result ≡ has_few_words value.now }
{
    commas(value) < 62
}

/// Returns `true` if a list of `filled` values has room for the words with commas between them.
pub fn has_room(filled: usize, value: &[u8]) -> bool
    requires { filled ≤ most_values }
    ensures { result ≡ has_room filled value.now }
{
    commas(value) < 62 - filled
}

/// Parses values up to `most` with commas between them, or returns `None` if one is invalid. There
/// must be at most 62 of them. `filler` fills the unused places of the list.
pub fn values_of<T: Word>(value: &[u8], filler: T, most: u16) -> Option<Values<T>>
    requires { length (parts_at 44 value.now) ≤ most_values }
    ensures { result ≡ list_of (T.meaning_of most) value.now }
{
    let mut values = Values::none(filler);
    let mut words = Some(value);
    while let Some(left) = words {
        let (word, rest) = cut(left, b',');
        values.push(T::read(word, most)?);
        words = rest;
    }
    Some(values)
}
