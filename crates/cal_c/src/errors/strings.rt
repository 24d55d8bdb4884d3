//! The sentences of strings that don't parse.
ghost use Rattle.std.specs.Prelude.{◌≡◌, ℕ, List, Option, IfSome, Some, drop, pos};
ghost use Rattle.cal_errors.specs.Sentences.{contradiction, unexpected, unknown_item};
ghost use Rattle.cal_errors.specs.Statuses.{sentence, with_position};
ghost use Rattle.cal_time.specs.declared.error.Component.{Component};
ghost use Rattle.cal_string_errors.specs.Shown.{IsStringSentence};
ghost use Rattle.cal_c.specs.Errors.{IsByteOf, NamesComponent, error_text, text_or_sentence};
ghost use Rattle.cal_c.specs.Statuses.{component_status};

use super::ErrorText;
use super::components::component_with;
use crate::status::{CONTRADICTION, UNEXPECTED_BYTE, UNKNOWN_ITEM};
use cal_errors::{Sentence, contradiction, sentence_at, unexpected, unknown_item};
use cal_string_errors::string_sentence;
use cal_time::error::Component;

/// Returns the sentence of a status and a position that a call returned for a string, such as
/// `unexpected "x" at position 9`, `unexpected end at position 9`, `unknown item "%Q" at position 3` or
/// `weekday contradicts the other components`. A component that is out of range has its value and its
/// range, if the string has a form of ISO 8601 or RFC 3339: `day 29 is out of range 1 to 28 (February
/// 2023)` for `2023-02-29`.
#[unsafe(no_mangle)]
pub extern "C" fn fots_parse_error_text(status: i32, position: usize, text: &[u8]) -> ErrorText
    ensures byte { (b : ℕ) → IsByteOf status position text.now b
        → result ≡ error_text (unexpected b position) }
    ensures contradiction { (c : Component) → NamesComponent status position c
        → result ≡ error_text (contradiction c) }
    ensures component { (c : Component) → status ≡ component_status c
        → (r : Option (List ℕ)) × IsStringSentence c text.now r
        × (result ≡ error_text (text_or_sentence status position r)) }
    ensures item { status ≡ UNKNOWN_ITEM
        → result ≡ error_text (unknown_item (drop position text.now) position) }
    ensures other { ((b : ℕ) → ¬ IsByteOf status position text.now b)
        → ((c : Component) → ¬ NamesComponent status position c)
        → ((c : Component) → ¬ (status ≡ component_status c))
        → ¬ (status ≡ UNKNOWN_ITEM)
        → result ≡ error_text (with_position position (sentence status)) }
{
    if let Some(component) = component_with(status) {
        return text_or_sentence(string_sentence(component, text), status, position);
    }
    if status == UNKNOWN_ITEM {
        return ErrorText::new(unknown_item(from(position, text), position).as_bytes());
    }
    string_error_text(status, position, text)
}

/// Returns the bytes from a position on.
fn from(position: usize, text: &[u8]) -> &[u8]
    ensures { result.now ≡ drop position text.now }
{
    if position < text.len() {
        &text[position..]
    } else {
        &[]
    }
}

/// Returns this sentence, or the sentence of a status and a position.
pub(super) fn text_or_sentence(text: Option<Sentence>, status: i32, position: usize) -> ErrorText
    ensures { result ≡ error_text (text_or_sentence status position text) }
{
    match text {
        Some(text) => ErrorText::new(text.as_bytes()),
        None => ErrorText::new(sentence_at(status, position).as_bytes()),
    }
}

/// Returns the sentence of a status that isn't the status of a component.
pub(super) fn string_error_text(status: i32, position: usize, text: &[u8]) -> ErrorText
    ensures byte { (b : ℕ) → IsByteOf status position text.now b
        → result ≡ error_text (unexpected b position) }
    ensures contradiction { (c : Component) → NamesComponent status position c
        → result ≡ error_text (contradiction c) }
    ensures other { ((b : ℕ) → ¬ IsByteOf status position text.now b)
        → ((c : Component) → ¬ NamesComponent status position c)
        → result ≡ error_text (with_position position (sentence status)) }
{
    if status == UNEXPECTED_BYTE && position < text.len() {
        return ErrorText::new(unexpected(text[position], position).as_bytes());
    }
    if status == CONTRADICTION {
        if let Some(component) = component_at(position) {
            return ErrorText::new(contradiction(component).as_bytes());
        }
    }
    ErrorText::new(sentence_at(status, position).as_bytes())
}

/// Returns the component whose status the position is, or `None`.
fn component_at(position: usize) -> Option<Component>
    ensures every { (c : Component) → pos position ≡ component_status c → result ≡ Some c }
    ensures value { IfSome result (λ c. pos position ≡ component_status c) }
{
    match i32::try_from(position) {
        Ok(status) => component_with(status),
        Err(_) => None,
    }
}
