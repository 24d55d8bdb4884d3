//! Parsing numbers.
ghost use Rattle.std.specs.Prelude.{◌≡◌, ◌==◌, slice_index};
ghost use Rattle.caltool.specs.Numbers.{i64_of, i32_of, u8_of, u16_of};

use std::str;

/// Parses a number from -2147483648 to 2147483647.
#[tactic(auto, unfolding(crate::specs::Numbers::i32_of, crate::specs::Numbers::i64_of))]
pub fn parse_i32(word: &[u8]) -> Option<i32>
    ensures { result ≡ i32_of word.now }
{
    i32::try_from(parse_i64(word)?).ok()
}

/// Parses a number from 0 to 255.
#[tactic(auto, unfolding(crate::specs::Numbers::u8_of, crate::specs::Numbers::i64_of))]
pub fn parse_u8(word: &[u8]) -> Option<u8>
    ensures { result ≡ u8_of word.now }
{
    u8::try_from(parse_i64(word)?).ok()
}

/// Parses a number from 0 to 65535.
#[tactic(auto, unfolding(crate::specs::Numbers::u16_of, crate::specs::Numbers::i64_of))]
pub fn parse_u16(word: &[u8]) -> Option<u16>
    ensures { result ≡ u16_of word.now }
{
    u16::try_from(parse_i64(word)?).ok()
}

/// Parses an `i64`. The smaller types use it too, because std's unsigned `parse` rejects `-0`.
#[tactic(auto, unfolding(crate::specs::Numbers::i64_of))]
pub fn parse_i64(word: &[u8]) -> Option<i64>
    ensures { result ≡ i64_of word.now }
{
    if begins_with_plus(word) {
        return None;
    }
    let Ok(text) = str::from_utf8(word) else {
        return None;
    };
    text.parse().ok()
}

/// Returns `true` if the word begins with a plus sign, which std's `parse` accepts.
fn begins_with_plus(word: &[u8]) -> bool
    ensures { result ≡ (slice_index word.now 0 == 43) }
{
    match word {
        [first, ..] => *first == b'+',
        [] => false,
    }
}
