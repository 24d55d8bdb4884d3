//! The lines of the input.
ghost use Rattle.std.specs.Prelude.{◌≡◌, ◌∷◌, ◌+◌, ◌++◌, ◌<◌, ◌≤◌, ◌==◌, [], ℕ, List, None, drop, false, length, position, take, MatchOption, if◌then◌else◌};
ghost use Rattle.caldate_lines.specs.Lines.{has_return, quotes_in, separator_of, text_of};
ghost use Rattle.caldate_lines.specs.Fields.{is_quote, quoting_past, split_outside_quotes};
ghost use Rattle.caldate_lines.specs.RunStates.{FirstEnds, HasNoFeed, NoEnd, quoting_in};

use crate::field::Field;
use crate::quoting::Quoting;

/// The maximum length of the text of a line, in bytes.
pub const LONGEST_TEXT: usize = 4096;

/// Returns the first complete line, without its line feed, and the bytes after it.
#[tactic(auto, using(crate::proofs::Parts::first_ends, crate::proofs::Parts::none_ends, std::proofs::lemmas::List::take_rest))]
pub fn first_line(bytes: &[u8]) -> Option<(&[u8], &[u8])>
    ensures parts { MatchOption result (HasNoFeed bytes.now)
        (λ parts. HasNoFeed parts.0.now × (bytes.now ≡ parts.0.now ++ 10 ∷ parts.1.now)) }
    ensures shorter { MatchOption result (length bytes.now ≡ length bytes.now)
        (λ parts. length parts.1.now < length bytes.now) }
{
    let at = index_of(b'\n', bytes)?;
    Some((&bytes[..at], &bytes[at + 1..]))
}

/// Returns the first complete line from a state of the quotes on, without its line feed, and the
/// bytes after it. A line feed in the quotes of a CSV record doesn't end it.
#[inline(always)]
pub fn next_line(field: Option<Field>, quoting: Quoting, bytes: &[u8]) -> Option<(&[u8], &[u8])>
    ensures parts { MatchOption result (NoEnd field quoting bytes.now)
        (λ parts. FirstEnds field quoting bytes.now parts.0.now parts.1.now) }
    ensures whole { MatchOption result (length bytes.now ≡ length bytes.now)
        (λ parts. bytes.now ≡ parts.0.now ++ 10 ∷ parts.1.now) }
    ensures shorter { MatchOption result (length bytes.now ≡ length bytes.now)
        (λ parts. length parts.1.now < length bytes.now) }
{
    let start = quotes_in(field, Quoting::Ready);
    let quoting = quotes_in(field, quoting);
    let at = part_end(b'\n', separator_of(field), start, quoting, bytes)?;
    Some((&bytes[..at], &bytes[at + 1..]))
}

/// Returns the index of the first byte `end` outside of quotes, from a state of the quotes on.
// Most parts have no quotes, and a search for one byte is faster.
#[inline(always)]
pub fn part_end(
    end: u8,
    separator: u8,
    start: Quoting,
    quoting: Quoting,
    bytes: &[u8],
) -> Option<usize>
    ensures { MatchOption result
        (split_outside_quotes end separator start quoting bytes.now ≡ bytes.now ∷ [])
        (λ at. (at < length bytes.now) × ((more : List ℕ)
        → split_outside_quotes end separator start quoting (bytes.now ++ more)
        ≡ take at bytes.now ∷ split_outside_quotes end separator start start (drop (at + 1) bytes.now ++ more))
        × (bytes.now ≡ take at bytes.now ++ end ∷ drop (at + 1) bytes.now)) }
{
    let Some(at) = index_of(end, bytes) else {
        return None;
    };
    if let Quoting::Off = quoting {
        return Some(at);
    }
    if !quoting.is_open() && !has_quote(&bytes[..at]) {
        return Some(at);
    }
    index_outside_quotes(end, separator, start, quoting, bytes)
}

/// Returns the same index by the state at each byte.
#[inline(never)]
fn index_outside_quotes(
    end: u8,
    separator: u8,
    start: Quoting,
    quoting: Quoting,
    bytes: &[u8],
) -> Option<usize>
    ensures { MatchOption result
        (split_outside_quotes end separator start quoting bytes.now ≡ bytes.now ∷ [])
        (λ at. (at < length bytes.now) × ((more : List ℕ)
        → split_outside_quotes end separator start quoting (bytes.now ++ more)
        ≡ take at bytes.now ∷ split_outside_quotes end separator start start (drop (at + 1) bytes.now ++ more))
        × (bytes.now ≡ take at bytes.now ++ end ∷ drop (at + 1) bytes.now)) }
{
    let mut state = quoting;
    for (i, byte) in bytes.iter().enumerate() {
        if *byte == end && !state.is_open() {
            return Some(i);
        }
        state = state.after(separator, *byte);
    }
    None
}

/// Returns the state of the quotes of a line, which has none if it isn't a record.
#[inline(always)]
fn quotes_in(field: Option<Field>, quoting: Quoting) -> Quoting
    ensures { result ≡ quotes_in field quoting }
{
    match field {
        Some(field) if field.csv => quoting,
        _ => Quoting::Off,
    }
}

/// Returns the byte between two fields, or a line feed if the line has none.
#[inline(always)]
fn separator_of(field: Option<Field>) -> u8
    ensures { result ≡ separator_of field }
{
    match field {
        Some(field) => field.separator,
        None => b'\n',
    }
}

/// Returns whether a quote is among the bytes.
pub fn has_quote(bytes: &[u8]) -> bool
    ensures { result ≡ false → position is_quote bytes.now ≡ None }
{
    index_of(b'"', bytes).is_some()
}

/// Returns the state of the quotes after bytes of a line, from another state on.
pub fn quoting_in(field: Option<Field>, quoting: Quoting, bytes: &[u8]) -> Quoting
    ensures { result ≡ quoting_in field quoting bytes.now }
{
    quoting_past(separator_of(field), quoting, bytes)
}

/// Returns the state of the quotes after bytes of a record.
fn quoting_past(separator: u8, quoting: Quoting, bytes: &[u8]) -> Quoting
    ensures { result ≡ quoting_past separator quoting bytes.now }
{
    let mut state = quoting;
    let mut rest = bytes;
    while let [first, others @ ..] = rest {
        state = state.after(separator, *first);
        rest = others;
    }
    state
}

/// Removes the carriage return at the end of a line, and returns whether there was one.
pub fn cut_return(line: &[u8]) -> (&[u8], bool)
    ensures text { result.0.now ≡ text_of line.now }
    ensures cut { result.1 ≡ has_return line.now }
    ensures length { length line.now ≡ length result.0.now + (if result.1 then 1 else 0) }
{
    match line {
        [text @ .., b'\r'] => (text, true),
        _ => (line, false),
    }
}

/// Returns the index of the first such byte.
// Two bytes a pass take fewer instructions than two passes.
pub fn index_of(byte: u8, bytes: &[u8]) -> Option<usize>
    ensures { result ≡ position (λ b. b == byte) bytes.now }
{
    let mut i = 0;
    while i + 1 < bytes.len() {
        if bytes[i] == byte {
            return Some(i);
        }
        if bytes[i + 1] == byte {
            return Some(i + 1);
        }
        i += 2;
    }
    if i < bytes.len() && bytes[i] == byte {
        return Some(i);
    }
    None
}
