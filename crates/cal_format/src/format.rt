//! Formats.
ghost use Rattle.std.specs.Prelude.{◌≡◌, ℕ, ◌+◌, ◌<◌, ◌≤◌, ◌^◌, ◌++◌, ◌∷◌, ◌↔◌, List, [], Ok, Some, ◌⊎◌, IsTrue, IfOk, OnOk, IfErr, length, get_or};
ghost use Rattle.cal_format.specs.declared.item.Item.{Item};
ghost use Rattle.cal_format.specs.declared.item.Syntax.TheVariants.{Percent, Brackets};
ghost use Rattle.cal_format.specs.declared.format.FormatError.TheVariants.{UnknownItem, TooLong};
ghost use Rattle.cal_format.specs.ErrorText.{format_error_text};
ghost use Rattle.cal_format.specs.Reading.{are_apart, show_within};
ghost use Rattle.cal_format.specs.Format.{Spells, IsFormatError, escape, spelled, front};

use crate::description::description_front;
use crate::determines::are_apart;
use crate::directive::{DIRECTIVES, Directive, front_in};
use crate::item::{Item, Syntax};
use crate::shown::Shown;
use std::fmt;
use std::marker::Model;

/// The maximum number of items.
const CAPACITY: usize = 64;

/// An error: a text is not a format. It prints, for example, `unknown item at 3` or
/// `too many items`.
#[derive(Clone, Copy, Debug, PartialEq, Eq)]
pub enum FormatError {
    /// The bytes from this position on, counted from 0, spell no item.
    UnknownItem(usize),
    /// The format has more than 64 items.
    TooLong,
}

impl fmt::Display for FormatError {
    ghost output = { λ e. Some (format_error_text e) };

    fn fmt<W: fmt::Write>(&self, f: &mut fmt::Formatter<W>) -> fmt::Result {
        match self {
            FormatError::UnknownItem(position) => write!(f, "unknown item at {position}"),
            FormatError::TooLong => f.write_str("too many items"),
        }
    }
}

/// A format of texts: a list of items. Contracts see this list.
#[derive(Debug, Drop)]
pub struct Format {
    items: [Item; CAPACITY],
    count: usize,
    pub(crate) shown: Shown,
}

impl Model for Format {
    ghost use Rattle.std.specs.Prelude.{◌≤◌, List, take};
    ghost use Rattle.cal_format.specs.declared.item.Item.{Item};
    ghost use Rattle.cal_format.specs.Shown.{AreShown};

    ghost Value = { List Item };

    ghost view = { λ format. take format.count format.items };

    ghost invariant = { λ format. (format.count ≤ 64)
        × AreShown (take format.count format.items) format.shown };
}

impl Format {
    /// Creates a format from a text in the syntax of `strftime`, such as `%Y-%m-%d`. Any byte
    /// outside a directive is a literal.
    ///
    /// Returns `UnknownItem` with the position of a percent sign that begins no directive, or
    /// `TooLong` for more than 64 items. `%Y-%Q` is `UnknownItem(3)`.
    pub fn new(text: &str) -> Result<Format, FormatError>
        ensures every { (items : List Item) → Spells Percent text.now items [] → length items ≤ 64
            → result ≡ Ok items }
        ensures value { IfOk result (λ items. Spells Percent text.now items [] × (length items ≤ 64)) }
        ensures error { IfErr result (IsFormatError Percent 0 0 text.now) }
    {
        Format::from_bytes(text.as_bytes(), Syntax::Percent)
    }

    /// Creates a format from a text in the syntax of the crate `time`, such as
    /// `[year]-[month]-[day]`. Any byte outside a component is a literal.
    ///
    /// Returns `UnknownItem` with the position of an opening bracket that begins no component, or
    /// `TooLong` for more than 64 items. `[year]-[mon]` is `UnknownItem(7)`.
    pub fn from_description(text: &str) -> Result<Format, FormatError>
        ensures every { (items : List Item) → Spells Brackets text.now items [] → length items ≤ 64
            → result ≡ Ok items }
        ensures value { IfOk result (λ items. Spells Brackets text.now items [] × (length items ≤ 64)) }
        ensures error { IfErr result (IsFormatError Brackets 0 0 text.now) }
    {
        Format::from_bytes(text.as_bytes(), Syntax::Brackets)
    }

    fn from_bytes(text: &[u8], syntax: Syntax) -> Result<Format, FormatError>
        ensures every { (items : List Item) → Spells syntax text.now items [] → length items ≤ 64
            → result ≡ Ok items }
        ensures value { IfOk result (λ items. Spells syntax text.now items [] × (length items ≤ 64)) }
        ensures error { IfErr result (IsFormatError syntax 0 0 text.now) }
    {
        let mut format = Format::empty();
        format.add(text, 0, syntax)?;
        Ok(format)
    }

    /// Creates a format without items, whose text is empty.
    pub fn empty() -> Format
        ensures { result ≡ [] }
    {
        Format {
            items: [Item::Literal(0); CAPACITY],
            count: 0,
            shown: Shown::new(),
        }
    }

    /// Appends an item and returns `true`. If the format has 64 items, it stays as it is, and the
    /// result is `false`.
    #[inline(always)]
    pub fn try_push(&mut self, item: Item) -> bool
        ensures room { IsTrue result ↔ (length self.old < 64) }
        ensures value { IsTrue result → self.new ≡ self.old ++ item ∷ [] }
        ensures full { ¬ IsTrue result → self.new ≡ self.old }
    {
        if self.room() == 0 {
            return false;
        }
        self.push(item);
        true
    }

    /// Returns the items, at most 64. `%F` has five.
    pub fn items(&self) -> &[Item]
        ensures items { result.now ≡ self.now }
        ensures few { length result.now ≤ 64 }
    {
        &self.items[..self.count]
    }

    /// Appends the items of a text, which begins at this position of the whole text.
    fn add(&mut self, text: &[u8], at: usize, syntax: Syntax) -> Result<(), FormatError>
        requires position { at + length text.now < 2 ^ 63 }
        requires few { length self.old ≤ 64 }
        ensures every { (items : List Item) → Spells syntax text.now items []
            → length self.old + length items ≤ 64
            → (result ≡ Ok tt) × (self.new ≡ self.old ++ items) }
        ensures value { OnOk result ((items : List Item) × Spells syntax text.now items []
            × (self.new ≡ self.old ++ items)) }
        ensures error { IfErr result (IsFormatError syntax at (length self.old) text.now) }
        ensures few { length self.new ≤ 64 }
    {
        if text.is_empty() {
            return Ok(());
        }
        match self.push_front(text, at, syntax) {
            Ok(used) => self.add(&text[used..], at + used, syntax),
            Err(error) => Err(error),
        }
    }

    /// Appends the items at the front of a text, and returns the number of bytes that spell them.
    #[tactic(auto, using(crate::proofs::Spellings::fronts))]
    fn push_front(&mut self, text: &[u8], at: usize, syntax: Syntax) -> Result<usize, FormatError>
        requires some { 1 ≤ length text.now }
        requires few { length self.old ≤ 64 }
        ensures used { IfOk result (λ used. used ≡ (front syntax text.now).used) }
        ensures fits { IfOk result (λ used. (1 ≤ used) × (used ≤ length text.now)) }
        ensures some { IfOk result (λ _. 1 ≤ length (front syntax text.now).items) }
        ensures error { IfErr result (λ e.
            ((e ≡ UnknownItem at) × (length (front syntax text.now).items ≡ 0))
            ⊎ ((e ≡ TooLong) × (64 < length self.old + length (front syntax text.now).items))) }
        ensures appended { IfOk result (λ _. self.new ≡ self.old ++ (front syntax text.now).items) }
        ensures length { IfOk result (λ _.
            length self.new ≡ length self.old + length (front syntax text.now).items) }
        ensures few { length self.new ≤ 64 }
    {
        if text[0] != syntax.escape() {
            if self.room() == 0 {
                return Err(FormatError::TooLong);
            }
            self.push(Item::Literal(text[0]));
            return Ok(1);
        }
        let directive = front_directive(text, syntax);
        if directive.items.len() == 0 {
            return Err(FormatError::UnknownItem(at));
        }
        if self.room() < directive.items.len() {
            return Err(FormatError::TooLong);
        }
        self.extend(directive.items);
        Ok(directive.used)
    }

    pub(crate) fn extend(&mut self, items: &[Item])
        requires { length self.old + length items.now ≤ 64 }
        ensures appended { self.new ≡ self.old ++ items.now }
        ensures length { length self.new ≡ length self.old + length items.now }
    {
        if let [item, others @ ..] = items {
            self.push(*item);
            self.extend(others);
        }
    }

    #[inline(always)]
    pub(crate) fn push(&mut self, item: Item)
        requires { length self.old < 64 }
        ensures appended { self.new ≡ self.old ++ item ∷ [] }
        ensures length { length self.new ≡ length self.old + 1 }
    {
        self.items[self.count] = item;
        self.count += 1;
        self.shown.add(item, item.component());
    }

    /// Returns `true` if the items show only components with an index from `low` to below `high`.
    #[inline(always)]
    pub(crate) fn is_within(&self, low: usize, high: usize) -> bool
        requires { (low ≤ 34) × (high ≤ 34) }
        ensures { result ≡ show_within low high self.now }
    {
        self.shown.is_within(low, high)
    }

    /// Returns `true` if each item of a width that varies comes before an item that can't continue
    /// it.
    #[inline(always)]
    pub(crate) fn is_apart(&self) -> bool
        ensures { result ≡ are_apart self.now }
    {
        self.shown.is_fixed() || are_apart(self.items())
    }

    fn room(&self) -> usize
        ensures { result + length self.now ≡ 64 }
    {
        CAPACITY - self.items().len()
    }
}

/// Returns the items at the front of a text that begins with the escape byte.
fn front_directive(text: &[u8], syntax: Syntax) -> Directive
    requires some { 1 ≤ length text.now }
    requires escape { get_or text.now 0 0 ≡ escape syntax }
    ensures items { result.items.now ≡ (front syntax text.now).items }
    ensures used { result.used ≡ (front syntax text.now).used }
    ensures fits { result.used ≤ length text.now }
    ensures min { 1 ≤ result.used }
{
    let directive = spelled_directive(&text[1..], syntax);
    if directive.used > text.len() {
        return Directive {
            items: &[],
            used: 1,
        };
    }
    directive
}

/// Returns the items that the bytes after the escape byte spell, with the number of all bytes.
fn spelled_directive(text: &[u8], syntax: Syntax) -> Directive
    ensures items { result.items.now ≡ (spelled syntax text.now).items }
    ensures used { result.used ≡ (spelled syntax text.now).used }
    ensures min { 1 ≤ result.used }
{
    match syntax {
        Syntax::Percent => front_in(&DIRECTIVES, text),
        Syntax::Brackets => description_front(text),
    }
}
