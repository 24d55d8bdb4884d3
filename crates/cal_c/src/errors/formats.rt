//! Strings that don't parse by a format, and formats that don't determine a value.
ghost use Rattle.std.specs.Prelude.{◌≡◌, ℕ, List, Option, Some};
ghost use Rattle.cal_errors.specs.Sentences.{contradiction, unexpected};
ghost use Rattle.cal_errors.specs.Statuses.{sentence, with_position};
ghost use Rattle.cal_format.specs.declared.item.Item.{Item};
ghost use Rattle.cal_time.specs.declared.error.Component.{Component};
ghost use Rattle.cal_c.specs.Errors.{IsByteOf, IsReadSentence, NamesComponent, error_text, lacks_period, remedy, text_or_sentence};
ghost use Rattle.cal_c.specs.Formats.{HasItems, IsFormat};
ghost use Rattle.cal_c.specs.Statuses.{component_status};

use super::ErrorText;
use super::components::component_with;
use super::strings::{string_error_text, text_or_sentence};
use crate::formats::format_parts::FormatParts;
use crate::formats::lenient::lenient;
use crate::status::INSUFFICIENT_FORMAT;
use cal_errors::{Sentence, sentence_of};
use cal_format::{Component as Shown, Format, any_shows};
use cal_string_errors::{format_sentence, lenient_sentence};
use cal_time::error::Component;

/// Returns `true` if items show an hour from 1 to 12, and not the half of the day.
fn lacks_period(format: &Format) -> bool
    ensures { result ≡ lacks_period format.now }
{
    any_shows(format, Shown::Hour12) && !any_shows(format, Shown::Period)
}

/// Returns the sentence of a format that doesn't determine a value, with a remedy if it lacks one item.
fn remedy(format: &Format) -> Sentence
    ensures { result ≡ remedy format.now }
{
    let mut text = Sentence::new();
    if format.lacks_century() {
        text.push(b"\"%y\" has no century: use %Y or a pivot");
    } else if lacks_period(format) {
        text.push(b"\"%I\" has no half of the day: use %H or add %p");
    } else {
        return sentence_of(INSUFFICIENT_FORMAT);
    }
    text
}

/// Returns the sentence of a component of a string that a format prints, or else that it reads leniently.
fn read_sentence(component: Component, format: Format, text: &[u8], pivot: i32) -> Option<Sentence>
    ensures { IsReadSentence component format text.now pivot result }
{
    match format_sentence(component, &format, text) {
        Some(sentence) => Some(sentence),
        None => lenient_sentence(component, &lenient(format, pivot), text),
    }
}

/// Returns the sentence of a status and a position that a call returned for a string and a format, with
/// the pivot of a lenient call, or with a negative number. As `fots_parse_error_text`, but the form is
/// the form of the format: `day 30 is out of range 1 to 29 (February 2024)` for `30/02/2024` and
/// `%d/%m/%Y`. If its strings don't determine a value, that has a remedy, such as `"%y" has no century: use
/// %Y or a pivot`.
#[unsafe(no_mangle)]
pub extern "C" fn fots_format_error_text(
    status: i32,
    position: usize,
    text: &[u8],
    format: &FormatParts,
    pivot: i32,
) -> ErrorText
    ensures remedy { status ≡ INSUFFICIENT_FORMAT → (items : List Item) → HasItems format.now items
        → result ≡ error_text (remedy items) }
    ensures component { (c : Component) → status ≡ component_status c
        → (items : List Item) → HasItems format.now items
        → (r : Option (List ℕ)) × IsReadSentence c items text.now pivot r
        × (result ≡ error_text (text_or_sentence status position r)) }
    ensures byte { (b : ℕ) → IsByteOf status position text.now b
        → result ≡ error_text (unexpected b position) }
    ensures contradiction { (c : Component) → NamesComponent status position c
        → result ≡ error_text (contradiction c) }
    ensures other { ¬ (status ≡ INSUFFICIENT_FORMAT × IsFormat format.now)
        → ((c : Component) → ¬ (status ≡ component_status c))
        → ((b : ℕ) → ¬ IsByteOf status position text.now b)
        → ((c : Component) → ¬ NamesComponent status position c)
        → result ≡ error_text (with_position position (sentence status)) }
{
    match format.to_format() {
        Some(format) => read_error_text(status, position, text, format, pivot),
        None => string_error_text(status, position, text),
    }
}

/// Returns the sentence of a status and a position for a format that is one.
fn read_error_text(
    status: i32,
    position: usize,
    text: &[u8],
    format: Format,
    pivot: i32,
) -> ErrorText
    ensures remedy { status ≡ INSUFFICIENT_FORMAT → result ≡ error_text (remedy format) }
    ensures component { (c : Component) → status ≡ component_status c
        → (r : Option (List ℕ)) × IsReadSentence c format text.now pivot r
        × (result ≡ error_text (text_or_sentence status position r)) }
    ensures byte { (b : ℕ) → IsByteOf status position text.now b
        → result ≡ error_text (unexpected b position) }
    ensures contradiction { (c : Component) → NamesComponent status position c
        → result ≡ error_text (contradiction c) }
    ensures other { ¬ (status ≡ INSUFFICIENT_FORMAT)
        → ((c : Component) → ¬ (status ≡ component_status c))
        → ((b : ℕ) → ¬ IsByteOf status position text.now b)
        → ((c : Component) → ¬ NamesComponent status position c)
        → result ≡ error_text (with_position position (sentence status)) }
{
    if status == INSUFFICIENT_FORMAT {
        return ErrorText::new(remedy(&format).as_bytes());
    }
    match component_with(status) {
        Some(component) => {
            let sentence = read_sentence(component, format, text, pivot);
            text_or_sentence(sentence, status, position)
        }
        None => string_error_text(status, position, text),
    }
}
