//! Tables of names.
//!
//! Names are compared byte by byte: `Mai` begins `Mai 2024`, and `mai` doesn't.
ghost use Rattle.std.specs.Prelude.{◌≡◌, IfNone, true, ◌∷◌, [], IsFalse, ◌≤◌, ◌<◌, ◌+◌, ◌++◌, ◌↔◌, IsTrue, IfSome, map, slice_get, Some, take, drop, length, MatchOption, ℕ, List};
ghost use Rattle.cal_text.specs.Shape.{Scans};
ghost use Rattle.cal_names.specs.Names.{begins_with};
ghost use Rattle.cal_names.specs.NameShape.{TableShape};
ghost use Rattle.cal_names.specs.Apart.{AreApart, AreDistinct, Ends, IsApart, IsDistinct, IsContinued, IsFound, IsReach, NoneContinued, NoneGoesOn, any_begins, texts, text_at};

use cal_text::Scanner;

/// Returns `true` if a string begins with `front`.
#[tactic(auto, unfolding(crate::specs::Names::begins_with))]
fn begins_with(text: &[u8], front: &[u8]) -> bool
    ensures { result ≡ begins_with front.now text.now }
{
    match front {
        [] => true,
        [byte, others @ ..] => match text {
            [] => false,
            [first, rest @ ..] => *first == *byte && begins_with(rest, others),
        },
    }
}

/// Returns the index, from 0, of the longest name that begins a string, or `None` if no name begins
/// it. `Pazartesi 1` begins with `Pazartesi`, and with `Pazar`, which is shorter.
///
/// A name that was printed is found again if [`are_apart`] is `true`. It is also found if
/// [`are_distinct`] is `true`, and the string ends there or goes on with a byte for which
/// [`continues`] is `false`.
pub fn find(names: &[&str], text: &[u8]) -> Option<usize>
    ensures found { IsFound (texts names.now) text.now (length names.now) result }
    ensures printed { (n : ℕ) (name rest : List ℕ) → Ends (texts names.now) n name rest
        → text.now ≡ name ++ rest → result ≡ Some n }
    ensures apart { AreApart (texts names.now) → (n : ℕ) (name rest : List ℕ)
        → slice_get (texts names.now) n ≡ Some name → text.now ≡ name ++ rest → result ≡ Some n }
{
    let mut found = None;
    for index in 0..names.len() {
        found = longer(names, text, found, index);
    }
    found
}

/// Returns the name with an index, from 0. In French, the month with the index 1 is `février`.
pub fn name_at<'n>(names: &[&'n str], index: usize) -> &'n str
    requires { index < length names.now }
    ensures { result.now ≡ text_at names.now index }
{
    names[index]
}

/// Returns the index of the longest name that begins the string, among the names up to an index.
/// `found` is the longest one before it.
fn longer(names: &[&str], text: &[u8], found: Option<usize>, index: usize) -> Option<usize>
    requires index { index < length names.now }
    requires found { IsFound (texts names.now) text.now index found }
    requires within { IfSome found (λ k. k < length names.now) }
    ensures found { IsFound (texts names.now) text.now (index + 1) result }
    ensures within { IfSome result (λ k. k < length names.now) }
{
    let name = name_at(names, index);
    if !begins_with(text, name.as_bytes()) {
        return found;
    }
    let Some(other) = found else {
        return Some(index);
    };
    if name_at(names, other).len() < name.len() {
        return Some(index);
    }
    Some(other)
}

/// Parses the longest name at the front of a string, and returns its index, from 0. Returns `None`
/// if no name begins the string, and leaves the rest at the first byte that no name has there. A
/// name goes on as far as the bytes do: of the Turkish weekdays `Pazart 1` has none, and leaves
/// ` 1`, though it begins with `Pazar`.
pub fn scan(names: &[&str], scanner: &mut Scanner) -> Option<usize>
    requires { 1 ≤ length names.now }
    ensures scans { Scans (TableShape (texts names.now)) scanner.old.rest.now scanner.new.rest.now result }
    ensures value { IfSome result (λ n.
        scanner.old.rest.now ≡ text_at names.now n ++ scanner.new.rest.now) }
    ensures range { IfSome result (λ n. n < length names.now) }
{
    let text = scanner.rest;
    let end = reach(names, text);
    scanner.rest = &text[end..];
    index_of(names, &text[..end])
}

/// Returns the number of bytes at the front of a string with which a name begins. This is the
/// position of the first byte that no name has there, or the length of the string. `Pazarlama` has
/// the first five bytes in common with `Pazar`, and `Pazartes 1` has eight with `Pazartesi`.
fn reach(names: &[&str], text: &[u8]) -> usize
    requires { 1 ≤ length names.now }
    ensures { IsReach (texts names.now) text.now result }
{
    reach_from(names, text, 0)
}

/// Returns the same for a string whose first `end` bytes begin a name.
fn reach_from(names: &[&str], text: &[u8], end: usize) -> usize
    requires within { end ≤ length text.now }
    requires begun { any_begins (take end text.now) (texts names.now) ≡ true }
    ensures { IsReach (texts names.now) text.now result }
{
    if end == text.len() {
        return end;
    }
    if !any_begins(names, &text[..end + 1]) {
        return end;
    }
    reach_from(names, text, end + 1)
}

/// Returns `true` if one of the names begins with `front`.
fn any_begins(names: &[&str], front: &[u8]) -> bool
    ensures { result ≡ any_begins front.now (texts names.now) }
{
    match names {
        [] => false,
        [name, others @ ..] => begins_with(name.as_bytes(), front) || any_begins(others, front),
    }
}

/// Returns the index, from 0, of the first name that is the same as a string, or `None` if no name
/// is. `Pazar` is the last of the Turkish weekdays.
fn index_of(names: &[&str], text: &[u8]) -> Option<usize>
    ensures none { IfNone result ((n : ℕ) → slice_get (texts names.now) n ≡ Some text.now → ⊥) }
    ensures value { IfSome result (λ n. slice_get (texts names.now) n ≡ Some text.now) }
    ensures range { IfSome result (λ n. n < length names.now) }
{
    for index in 0..names.len() {
        if is_same(name_at(names, index).as_bytes(), text) {
            return Some(index);
        }
    }
    None
}

/// Returns `true` if no name begins another one, and no two names are the same. `Pazar` begins
/// `Pazartesi`, so the Turkish weekdays return `false`.
pub fn are_apart(names: &[&str]) -> bool
    ensures { IsTrue result ↔ AreApart (texts names.now) }
{
    for i in 0..names.len() {
        if !is_apart(names, i) {
            return false;
        }
    }
    true
}

/// Returns `true` if the name with an index begins no other one.
fn is_apart(names: &[&str], index: usize) -> bool
    requires { index < length names.now }
    ensures { IsTrue result ↔ IsApart (texts names.now) index (length names.now) }
{
    for j in 0..names.len() {
        if j != index
            && begins_with(
                name_at(names, j).as_bytes(),
                name_at(names, index).as_bytes(),
            )
        {
            return false;
        }
    }
    true
}

/// Returns `true` if no two names are the same. `Pazar` and `Pazartesi` are distinct, and the two
/// empty halves of the day in French aren't.
pub fn are_distinct(names: &[&str]) -> bool
    ensures { IsTrue result ↔ AreDistinct (texts names.now) }
{
    for i in 0..names.len() {
        if !is_distinct(names, i) {
            return false;
        }
    }
    true
}

/// Returns `true` if no other name is the name with this index.
fn is_distinct(names: &[&str], index: usize) -> bool
    requires { index < length names.now }
    ensures { IsTrue result ↔ IsDistinct (texts names.now) index (length names.now) }
{
    for j in 0..names.len() {
        if j != index
            && is_same(
                name_at(names, j).as_bytes(),
                name_at(names, index).as_bytes(),
            )
        {
            return false;
        }
    }
    true
}

/// Returns `true` if two strings are the same.
fn is_same(text: &[u8], other: &[u8]) -> bool
    ensures { IsTrue result ↔ (text.now ≡ other.now) }
{
    text == other
}

/// Returns `true` if a name goes on with this byte to another name. With the byte `t`, `Pazar` goes
/// on to `Pazartesi`.
pub fn continues(names: &[&str], byte: u8) -> bool
    ensures { IsFalse result ↔ NoneContinued (texts names.now) byte }
{
    for i in 0..names.len() {
        if any_goes_on(names, i, byte) {
            return true;
        }
    }
    false
}

/// Returns `true` if the name with an index goes on with this byte to another name.
fn any_goes_on(names: &[&str], index: usize, byte: u8) -> bool
    requires { index < length names.now }
    ensures { IsFalse result ↔ NoneGoesOn (texts names.now) index (length names.now) byte }
{
    for j in 0..names.len() {
        if goes_on(
            name_at(names, index).as_bytes(),
            byte,
            name_at(names, j).as_bytes(),
        ) {
            return true;
        }
    }
    false
}

/// Returns `true` if `other` is `text`, this byte, and perhaps more.
#[tactic(auto, using(crate::proofs::Fronts::going_on))]
fn goes_on(text: &[u8], byte: u8, other: &[u8]) -> bool
    ensures { IsTrue result ↔ IsContinued text.now byte other.now }
{
    if other.len() <= text.len() {
        return false;
    }
    if !begins_with(other, text) {
        return false;
    }
    other[text.len()] == byte
}

/// States a law: if no two names are the same, each name ends at the end of a string, and before a
/// byte with which no name goes on to another one.
pub fn reads_back()
    ensures before { (names : List (List ℕ)) (n b : ℕ) (name r : List ℕ) → AreDistinct names
        → NoneContinued names b → slice_get names n ≡ Some name → Ends names n name (b ∷ r) }
    ensures last { (names : List (List ℕ)) (n : ℕ) (name : List ℕ) → AreDistinct names
        → slice_get names n ≡ Some name → Ends names n name [] }
{}
