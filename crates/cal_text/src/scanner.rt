//! Parsing a text byte by byte.
ghost use Rattle.std.specs.Prelude.{◌≡◌, ◌+◌, ◌<◌, ◌≤◌, ◌∷◌, ◌++◌, [], IfSome, IfNone};
ghost use Rattle.cal_time.specs.DateText.{digits_at_least};
ghost use Rattle.cal_text.specs.Rfc3339Form.{sign_byte};
ghost use Rattle.cal_text.specs.Shape.{Scans, Branches, ScansWhole, ParsesDigits, End, ByteRange, Byte, Digits, Sign, TwoNumbers};

use crate::digits::two_digit_value;

/// A text that is parsed from its front. A call that returns `None` leaves the rest at the wrong
/// byte, or at the end.
#[derive(Debug, Drop)]
pub struct Scanner<'a> {
    /// The bytes that are not parsed yet.
    pub rest: &'a [u8],
}

impl Scanner<'_> {
    /// Parses a byte from `low` to `low + above`, and returns it. Returns `None`, and parses
    /// nothing, if another byte or the end comes next. `byte_from(b'1', 6)` parses `1` to `7`.
    #[inline(always)]
    pub fn byte_from(&mut self, low: u8, above: u8) -> Option<u8>
        requires { low + above < 256 }
        ensures scans { Scans (ByteRange low above) self.old.rest.now self.new.rest.now result }
        ensures branches { Branches low above self.old.rest.now self.new.rest.now result }
        ensures value { IfSome result (λ b.
            (low ≤ b) × (b ≤ low + above) × (self.old.rest.now ≡ b ∷ self.new.rest.now)) }
        ensures unchanged { IfNone result (self.new.rest.now ≡ self.old.rest.now) }
    {
        let (first, others) = self.rest.split_first()?;
        if *first < low || *first > low + above {
            return None;
        }
        self.rest = others;
        Some(*first)
    }

    /// Parses this byte. Returns `None`, and parses nothing, if another byte or the end comes next.
    #[inline(always)]
    pub fn byte(&mut self, byte: u8) -> Option<()>
        ensures scans { Scans (Byte byte) self.old.rest.now self.new.rest.now result }
        ensures branches { Branches byte 0 self.old.rest.now self.new.rest.now result }
        ensures value { IfSome result (λ _. self.old.rest.now ≡ byte ∷ self.new.rest.now) }
        ensures unchanged { IfNone result (self.new.rest.now ≡ self.old.rest.now) }
    {
        self.byte_from(byte, 0)?;
        Some(())
    }

    /// Parses a digit from `1` to `9`, and returns its value. Returns `None`, and parses nothing,
    /// if another byte or the end comes next.
    #[inline(always)]
    pub fn digit_from_1(&mut self) -> Option<u32>
        ensures scans { Scans (ByteRange 49 8) self.old.rest.now self.new.rest.now result }
        ensures branches { Branches 49 8 self.old.rest.now self.new.rest.now result }
        ensures value { IfSome result (λ d.
            (1 ≤ d) × (d < 10) × (self.old.rest.now ≡ (48 + d) ∷ self.new.rest.now)) }
        ensures unchanged { IfNone result (self.new.rest.now ≡ self.old.rest.now) }
    {
        let byte = self.byte_from(b'1', 8)?;
        Some(u32::from(byte - b'0'))
    }

    /// Parses a digit, and returns its value, from 0 to 9. Returns `None`, and parses nothing, if
    /// another byte or the end comes next.
    #[inline(always)]
    pub fn digit(&mut self) -> Option<u32>
        ensures scans { Scans (Digits 1) self.old.rest.now self.new.rest.now result }
        ensures branches { Branches 48 9 self.old.rest.now self.new.rest.now result }
        ensures value { IfSome result (λ d.
            (d < 10) × (self.old.rest.now ≡ (48 + d) ∷ self.new.rest.now)) }
        ensures unchanged { IfNone result (self.new.rest.now ≡ self.old.rest.now) }
    {
        let byte = self.byte_from(b'0', 9)?;
        Some(u32::from(byte - b'0'))
    }

    /// Parses `+` or `-`, and returns `true` for `-`. Returns `None` if another byte or the end
    /// comes next. The choice between the signs needs no branch.
    #[inline(always)]
    pub fn sign(&mut self) -> Option<bool>
        ensures scans { Scans Sign self.old.rest.now self.new.rest.now result }
        ensures value { IfSome result (λ is_minus.
            self.old.rest.now ≡ sign_byte is_minus ∷ self.new.rest.now) }
    {
        let (first, others) = self.rest.split_first()?;
        if *first < b'+' || *first > b'-' || *first == b',' {
            return None;
        }
        self.rest = others;
        Some(*first == b'-')
    }

    /// Parses two digits at once, or one after the other if that fails, which finds the wrong byte.
    #[inline(always)]
    pub fn two_digits(&mut self) -> Option<u32>
        ensures scans { Scans (Digits 2) self.old.rest.now self.new.rest.now result }
        ensures value { IfSome result (λ n. ParsesDigits self.old.rest.now self.new.rest.now 2 n) }
        ensures range { IfSome result (λ n. n < 100) }
    {
        if let [tens, ones, others @ ..] = self.rest {
            if let Some(number) = two_digit_value(*tens, *ones) {
                self.rest = others;
                return Some(number);
            }
        }
        let tens = self.digit()?;
        let ones = self.digit()?;
        Some(tens * 10 + ones)
    }

    /// Parses three digits, and returns their number.
    #[inline(always)]
    pub fn three_digits(&mut self) -> Option<u32>
        ensures scans { Scans (Digits 3) self.old.rest.now self.new.rest.now result }
        ensures value { IfSome result (λ n. ParsesDigits self.old.rest.now self.new.rest.now 3 n) }
        ensures range { IfSome result (λ n. n < 1000) }
    {
        let tens = self.two_digits()?;
        let ones = self.digit()?;
        Some(tens * 10 + ones)
    }

    /// Parses four digits, and returns their number.
    #[inline(always)]
    pub fn four_digits(&mut self) -> Option<u32>
        ensures scans { Scans (Digits 4) self.old.rest.now self.new.rest.now result }
        ensures value { IfSome result (λ n. ParsesDigits self.old.rest.now self.new.rest.now 4 n) }
        ensures range { IfSome result (λ n. n < 10000) }
    {
        let front = self.two_digits()?;
        let back = self.two_digits()?;
        Some(front * 100 + back)
    }

    /// Parses two numbers of two digits, each after `byte`.
    #[inline(always)]
    pub(crate) fn two_numbers(&mut self, byte: u8) -> Option<(u8, u8)>
        ensures scans { Scans (TwoNumbers byte) self.old.rest.now self.new.rest.now result }
        ensures value { IfSome result (λ found. (found.0 < 100) × (found.1 < 100)
            × (self.old.rest.now ≡ byte
            ∷ (digits_at_least 2 found.0 ++ byte
            ∷ (digits_at_least 2 found.1 ++ self.new.rest.now)))) }
    {
        self.byte(byte)?;
        let first = self.two_digits()?;
        self.byte(byte)?;
        let second = self.two_digits()?;
        Some((first as u8, second as u8))
    }

    /// Checks that the text is at its end. Returns `None` if a byte comes next.
    #[inline(always)]
    pub fn end(&mut self) -> Option<()>
        ensures scans { ScansWhole End self.old.rest.now self.new.rest.now result }
        ensures value { IfSome result (λ _. self.old.rest.now ≡ []) }
        ensures unchanged { self.new.rest.now ≡ self.old.rest.now }
    {
        match self.rest {
            [] => Some(()),
            [_, ..] => None,
        }
    }
}
