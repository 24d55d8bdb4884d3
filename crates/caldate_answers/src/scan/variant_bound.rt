//! The maximum length of a variant at the front of some bytes.
ghost use Rattle.std.specs.Prelude.{◌≡◌, ℕ, List, ◌++◌, ◌≤◌, IfSome, IsTrue, length, take};
ghost use Rattle.cal_format.specs.Description.{is_space};
ghost use Rattle.cal_format.specs.Lenient.{are_leniently_apart};
ghost use Rattle.cal_format.specs.Variants.{HasVariants, is_free, is_white, pads_with_spaces};
ghost use Rattle.caldate_answers.specs.VariantFronts.{CutsAt, begins_with, is_in, run_length, solid_bytes};

use crate::scan::{is_digit, is_letter};
use cal_format::{Component, Item, Padding};

/// The maximum number of bytes of an item that aren't white space.
const LONGEST_ITEM: usize = 15;

/// A class of bytes, all of which one item takes.
#[derive(Clone, Copy)]
pub enum ByteClass {
    Digit,
    Letter,
    Space,
}

/// Returns a length that no front of a variant of the items exceeds. The item before them is white
/// space if `after` is `true`.
pub fn variant_bound(items: &[Item], after: bool, bytes: &[u8]) -> usize
    requires few { length items.now ≤ 64 }
    requires apart { IsTrue (are_leniently_apart items.now) }
    ensures within { result ≤ length bytes.now }
    ensures front { (numbers : List ℕ) (n : ℕ) (more : List ℕ) → n ≤ length bytes.now
        → HasVariants after items.now numbers (take n bytes.now ++ more) → n ≤ result }
{
    match items {
        [] => 0,
        [item, others @ ..] => match item_length(*item, after, bytes) {
            Some(0) => 0,
            Some(count) => count + variant_bound(others, is_white(*item), &bytes[count..]),
            None => front_with(bytes, items.len() * LONGEST_ITEM),
        },
    }
}

/// Returns the number of bytes at the front that are a variant of an item, if the bytes after them
/// can't continue it: digits, letters, white space or a literal. Returns `None` for other items.
fn item_length(item: Item, after: bool, bytes: &[u8]) -> Option<usize>
    ensures within { IfSome result (λ count. count ≤ length bytes.now) }
    ensures cuts { IfSome result (CutsAt after item bytes.now) }
{
    match item {
        Item::Literal(byte) => literal_length(byte, after, bytes),
        Item::Number(component, padding) => {
            if is_free(component) && (after || !pads_with_spaces(padding)) {
                Some(run_length(ByteClass::Digit, bytes))
            } else {
                None
            }
        }
        Item::Name(_) => Some(run_length(ByteClass::Letter, bytes)),
        _ => None,
    }
}

/// Does this for a literal. White space after white space has no bytes of its own.
fn literal_length(literal: u8, after: bool, bytes: &[u8]) -> Option<usize>
    ensures within { IfSome result (λ count. count ≤ length bytes.now) }
    ensures cuts { IfSome result (CutsAt after (Item.Literal literal) bytes.now) }
{
    if is_space(literal) {
        return if after {
            None
        } else {
            Some(run_length(ByteClass::Space, bytes))
        };
    }
    Some(if begins_with(bytes, literal) { 1 } else { 0 })
}

fn begins_with(bytes: &[u8], byte: u8) -> bool
    ensures { result ≡ begins_with byte bytes.now }
{
    match bytes {
        [] => false,
        [first, ..] => *first == byte,
    }
}

/// Returns the number of bytes of the class at the front.
fn run_length(class: ByteClass, bytes: &[u8]) -> usize
    ensures value { result ≡ run_length class bytes.now }
    ensures within { result ≤ length bytes.now }
{
    match bytes {
        [] => 0,
        [first, others @ ..] => {
            if is_in(class, *first) {
                run_length(class, others) + 1
            } else {
                0
            }
        }
    }
}

fn is_in(class: ByteClass, byte: u8) -> bool
    ensures { result ≡ is_in class byte }
{
    match class {
        ByteClass::Digit => is_digit(byte),
        ByteClass::Letter => is_letter(byte),
        ByteClass::Space => is_space(byte),
    }
}

/// Returns the length of the longest front with at most `most` bytes that aren't white space.
fn front_with(bytes: &[u8], most: usize) -> usize
    ensures within { result ≤ length bytes.now }
    ensures longest { (n : ℕ) → n ≤ length bytes.now → solid_bytes (take n bytes.now) ≤ most
        → n ≤ result }
{
    match bytes {
        [] => 0,
        [byte, rest @ ..] => {
            if is_space(*byte) {
                front_with(rest, most) + 1
            } else if most == 0 {
                0
            } else {
                front_with(rest, most - 1) + 1
            }
        }
    }
}

fn is_white(item: Item) -> bool
    ensures { result ≡ is_white item }
{
    match item {
        Item::Literal(byte) => is_space(byte),
        _ => false,
    }
}

fn is_space(byte: u8) -> bool
    ensures { result ≡ is_space byte }
{
    byte == b' ' || byte == b'\t' || byte == b'\n' || byte == 12 || byte == b'\r'
}

/// Returns whether a number of the component may have any padding.
fn is_free(component: Component) -> bool
    ensures { result ≡ is_free component }
{
    component.index() < 18
}

fn pads_with_spaces(padding: Padding) -> bool
    ensures { result ≡ pads_with_spaces padding }
{
    match padding {
        Padding::Space => true,
        Padding::Zero | Padding::None => false,
    }
}
