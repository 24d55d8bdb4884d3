//! Strings that don't parse.
ghost use Rattle.std.specs.Prelude.{◌≡◌, ◌+◌, ◌<◌, ◌≤◌, ◌++◌, ◌==◌, length, not, position};
ghost use Rattle.cal_errors.specs.Sentences.{HasRoom, byte_text, contradiction, hex_digit, is_printable, item_end, item_in, item_text, precedes_letter, unexpected, unknown_item};

use crate::sentence::Sentence;
use cal_units::error::Component;

/// Returns the sentence of the first wrong byte and its position: `unexpected "x" at position 9`, or
/// `unexpected byte 0xE2 at position 4` if the byte isn't printable ASCII.
pub fn unexpected(byte: u8, position: usize) -> Sentence
    ensures { result ≡ unexpected byte position }
{
    let mut text = Sentence::new();
    text.push(b"unexpected ");
    push_byte(&mut text, byte);
    text.push_position(position);
    text
}

/// Returns the sentence of a component that isn't the component of the value: `weekday contradicts the
/// other components`.
pub fn contradiction(component: Component) -> Sentence
    ensures { result ≡ contradiction component }
{
    let mut text = Sentence::new();
    text.push(component.name().as_bytes());
    text.push(b" contradicts the other components");
    text
}

/// Returns the sentence of an unknown item of a format and its position: `unknown item "%Q" at position
/// 3`. The string begins with the item. An item of more than 64 bytes or with other bytes than
/// printable ASCII is left out.
pub fn unknown_item(text: &[u8], position: usize) -> Sentence
    ensures { result ≡ unknown_item text.now position }
{
    let mut sentence = Sentence::new();
    sentence.push(b"unknown item");
    push_item(&mut sentence, item_in(text));
    sentence.push_position(position);
    sentence
}

/// Returns the item that a string begins with, in the syntax of `strftime` or of a description.
fn item_in(text: &[u8]) -> &[u8]
    ensures { result.now ≡ item_in text.now }
{
    if text.is_empty() {
        return text;
    }
    match item_end(text[0], &text[1..]) {
        Some(end) => &text[..end + 2],
        None => text,
    }
}

/// Returns the index at which an item ends, counted from its second byte, or `None` if it doesn't end.
fn item_end(first: u8, rest: &[u8]) -> Option<usize>
    ensures { result ≡ item_end first rest.now }
{
    if first == b'[' {
        bracket_in(rest)
    } else {
        letter_in(rest)
    }
}

/// Returns the index of the first `]`.
fn bracket_in(text: &[u8]) -> Option<usize>
    ensures { result ≡ position (λ b. b == 93) text.now }
{
    text.iter().position(|b| *b == b']')
}

/// Returns the index of the first byte that isn't a flag or a digit of a width.
fn letter_in(text: &[u8]) -> Option<usize>
    ensures { result ≡ position (λ b. not (precedes_letter b)) text.now }
{
    text.iter().position(|b| !precedes_letter(*b))
}

/// Returns the index of the first byte that isn't printable ASCII.
fn unprintable_in(text: &[u8]) -> Option<usize>
    ensures { result ≡ position (λ b. not (is_printable b)) text.now }
{
    text.iter().position(|b| !is_printable(*b))
}

/// Returns `true` for a flag or a digit of a width, which precede the letter of an item.
fn precedes_letter(byte: u8) -> bool
    ensures { result ≡ precedes_letter byte }
{
    matches!(byte, b'#' | b'-' | b'0'..=b':' | b'^' | b'_')
}

/// Returns `true` for a printable byte of ASCII.
fn is_printable(byte: u8) -> bool
    ensures { result ≡ is_printable byte }
{
    byte >= b' ' && byte <= b'~'
}

/// Appends an item in quotation marks after a space, if it is short and printable.
fn push_item(text: &mut Sentence, item: &[u8])
    requires { HasRoom 67 text.old }
    ensures appended { text.new ≡ text.old ++ item_text item.now }
    ensures max_length { length text.new ≤ length text.old + 67 }
{
    if item.is_empty() || item.len() > 64 {
        return;
    }
    match unprintable_in(item) {
        Some(_) => {}
        None => {
            text.push(b" \"");
            text.push(item);
            text.push(b"\"");
        }
    }
}

/// Appends a byte in quotation marks, or as a hexadecimal number if it isn't printable ASCII.
fn push_byte(text: &mut Sentence, byte: u8)
    requires { HasRoom 9 text.old }
    ensures appended { text.new ≡ text.old ++ byte_text byte }
    ensures max_length { length text.new ≤ length text.old + 9 }
{
    if byte < b' ' || byte > b'~' {
        text.push(b"byte 0x");
        text.push(&[hex_digit(byte / 16), hex_digit(byte % 16)]);
    } else {
        text.push(&[b'"', byte, b'"']);
    }
}

/// Returns the hexadecimal digit of a number below 16.
fn hex_digit(number: u8) -> u8
    requires { number < 16 }
    ensures { result ≡ hex_digit number }
{
    if number < 10 {
        b'0' + number
    } else {
        b'A' + (number - 10)
    }
}
