//! The numbers of a text that has the form of a format, in range or not.
ghost use Rattle.std.specs.Prelude.{ℕ, ◌<◌, List, IfNone, IfSome};
ghost use Rattle.cal_format.specs.declared.item.Component.{Component};
ghost use Rattle.cal_format.specs.Lenient.{items_of};
ghost use Rattle.cal_format.specs.Form.{AreNumbers};
ghost use Rattle.cal_format.specs.Numbers.{AreFields, HasKnownNumbers, HasOwnNumbers};
ghost use Rattle.cal_format.specs.Scanning.{number_at};

use crate::fields::Fields;
use crate::form::scan_items;
use crate::format::Format;
use crate::item::Item;
use crate::lenient::LenientFormat;
use crate::lenient_parsing::scan_known;
use cal_text::Scanner;

impl Format {
    /// Returns the numbers of a text that has the form of the items, in range or not. The first item
    /// that shows a component has its number. Returns `None` for other texts, and if two lists of
    /// numbers could have the same text. For `%F`, `2023-02-29` has the day 29.
    pub fn parse_numbers(&self, text: &[u8]) -> Option<Fields>
        ensures none { IfNone result ((numbers : List ℕ)
            → ¬ HasOwnNumbers self.now numbers text.now) }
        ensures value { IfSome result (λ f. (numbers : List ℕ)
            × HasOwnNumbers self.now numbers text.now × AreFields self.now numbers f) }
        ensures digits { IfSome result (λ f. (c : Component) → number_at c f < 100_000_000_000_000) }
    {
        if !self.is_apart() {
            return None;
        }
        let mut buffer = [0u64; 64];
        let numbers = &mut buffer[..self.items().len()];
        let mut scanner = Scanner { rest: text };
        match scan_items(self.items(), &mut scanner, numbers, 0) {
            Some(()) => Some(fields_of(self.items(), numbers)),
            None => None,
        }
    }
}

impl LenientFormat {
    /// Returns the numbers of a variant of what the format prints, in range or not. With a pivot the
    /// century has a number, too. Returns `None` for other texts, and if two values could have the same
    /// text. For `%D` with the pivot 1970, `2/30/71` has the century 19 and the day 30.
    pub fn parse_numbers(&self, text: &[u8]) -> Option<Fields>
        ensures none { IfNone result ((numbers : List ℕ)
            → ¬ HasKnownNumbers self.now numbers text.now) }
        ensures value { IfSome result (λ f. (numbers : List ℕ)
            × HasKnownNumbers self.now numbers text.now × AreFields (items_of self.now) numbers f) }
        ensures digits { IfSome result (λ f. (c : Component) → number_at c f < 100_000_000_000_000) }
    {
        let known = self.known_items()?;
        let mut buffer = [0u64; 64];
        let numbers = &mut buffer[..known.items().len()];
        let mut scanner = Scanner { rest: text };
        if !scan_known(self, &mut scanner, numbers) {
            return None;
        }
        Some(fields_of(known.items(), numbers))
    }
}

/// Returns the numbers of the items by their components.
fn fields_of(items: &[Item], numbers: &[u64]) -> Fields
    requires fit { AreNumbers items.now numbers.now }
    ensures value { AreFields items.now numbers.now result }
    ensures digits { (c : Component) → number_at c result < 100_000_000_000_000 }
{
    let mut fields = Fields::new();
    fields.fill(items, numbers);
    fields
}
