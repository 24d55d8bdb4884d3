//! Short texts that need no allocation, and the digits of numbers in them.
ghost use Rattle.std.specs.Prelude.{◌≡◌, ◌+◌, ◌<◌, ◌≤◌, ◌++◌, [], ◌∷◌, length, decimal, unsigned_abs};
ghost use Rattle.std.specs.Fmt.{debug_str, signed_decimal};
ghost use Rattle.std.specs.Str.{IsAscii};
ghost use Rattle.cal_units.specs.Digits.{decimals, digit, digits_at_least, two_digits};
ghost use Rattle.cal_units.specs.ShortText.{HasRoom, capacity};
ghost use Rattle.cal_units.specs.YearText.{year_text};

use std::fmt;
use std::marker::Model;
use std::str::from_utf8_unchecked;

/// The maximum length of a text in bytes. The texts of the longest durations and of the longest
/// date-times with an offset have this length.
const CAPACITY: usize = 42;

/// The two ASCII digits of each number below 100, in ascending order.
const DIGIT_PAIRS: [u8; 200] =
    *b"0001020304050607080910111213141516171819202122232425262728293031323334353637383940414243444546474849\
    5051525354555657585960616263646566676869707172737475767778798081828384858687888990919293949596979899";

/// A text of at most 42 bytes in UTF-8, which needs no allocation and no formatter.
///
/// Dates, times of day, durations, offsets and date-times return one from their method `text`. For
/// 29 February 2024 it is `2024-02-29`. Each call that appends requires room: the result must have
/// at most 42 bytes.
#[derive(Drop)]
pub struct ShortText {
    bytes: [u8; CAPACITY],
    filled: usize,
}

impl Model for ShortText {
    ghost use Rattle.std.specs.Prelude.{ℕ, ◌≤◌, List, take, IsUtf8};
    ghost use Rattle.cal_units.specs.ShortText.{capacity};

    ghost Value = { List ℕ };

    ghost view = { λ text. take text.filled text.bytes };

    ghost invariant = { λ text. (text.filled ≤ capacity) × IsUtf8 (take text.filled text.bytes) };
}

impl ShortText {
    /// Creates an empty text, with room for 42 bytes.
    pub fn new() -> Self
        ensures { result ≡ [] }
    {
        ShortText {
            bytes: [0; CAPACITY],
            filled: 0,
        }
    }

    /// Returns the text as a `str` of at most 42 bytes.
    pub fn as_str(&self) -> &str
        ensures value { result.now ≡ self.now }
        ensures max_length { length result.now ≤ capacity }
    {
        // By the invariant the bytes are UTF-8.
        unsafe { from_utf8_unchecked(&self.bytes[..self.filled]) }
    }

    /// Returns the bytes of the text in UTF-8, at most 42.
    pub fn as_bytes(&self) -> &[u8]
        ensures value { result.now ≡ self.now }
        ensures max_length { length result.now ≤ capacity }
    {
        &self.bytes[..self.filled]
    }

    /// Returns the length in bytes, at most 42.
    pub fn len(&self) -> usize
        ensures value { result ≡ length self.now }
        ensures max { result ≤ capacity }
    {
        self.filled
    }

    /// Appends `text`, which must fit. After `2024`, `push("-W09")` makes `2024-W09`.
    pub fn push(&mut self, text: &str)
        requires { HasRoom (length text.now) self.old }
        ensures appended { self.new ≡ self.old ++ text.now }
        ensures length { length self.new ≡ length self.old + length text.now }
    {
        let end = self.filled + text.len();
        self.bytes[self.filled..end].copy_from_slice(text.as_bytes());
        self.filled = end;
    }

    /// Appends ASCII bytes, which must fit.
    fn push_ascii(&mut self, bytes: &[u8])
        requires room { HasRoom (length bytes.now) self.old }
        requires ascii { IsAscii bytes.now }
        ensures appended { self.new ≡ self.old ++ bytes.now }
        ensures length { length self.new ≡ length self.old + length bytes.now }
    {
        // ASCII is valid UTF-8.
        self.push(unsafe { from_utf8_unchecked(bytes) });
    }

    /// Appends the digit of a number, which must be below 10. For 7 it is `7`.
    pub fn push_digit(&mut self, number: u32)
        requires room { HasRoom 1 self.old }
        requires range { number < 10 }
        ensures appended { self.new ≡ self.old ++ digit number ∷ [] }
        ensures length { length self.new ≡ length self.old + 1 }
    {
        self.push_ascii(&[ascii_digit(number)]);
    }

    /// Appends the two digits of a number, which must be below 100. For 7 they are `07`.
    #[tactic(auto, using(crate::proofs::Digits::pairs))]
    pub fn push_two_digits(&mut self, number: u32)
        requires room { HasRoom 2 self.old }
        requires range { number < 100 }
        ensures appended { self.new ≡ self.old ++ two_digits number }
        ensures padded { self.new ≡ self.old ++ digits_at_least 2 number }
        ensures length { length self.new ≡ length self.old + 2 }
    {
        self.push_ascii(&ascii_two_digits(number));
    }

    /// Appends the three digits of a number, which must be below 1000. For 60 they are `060`.
    #[tactic(auto, using(crate::proofs::Digits::threes))]
    pub fn push_three_digits(&mut self, number: u32)
        requires room { HasRoom 3 self.old }
        requires range { number < 1000 }
        ensures appended { self.new ≡ self.old ++ digits_at_least 3 number }
        ensures length { length self.new ≡ length self.old + 3 }
    {
        self.push_digit(number / 100);
        self.push_two_digits(number % 100);
    }

    /// Appends a number in decimal, without leading zeros: up to 20 bytes. For 0 it is `0`, and for
    /// 1440 it is `1440`.
    #[tactic(auto, using(crate::proofs::Digits::numbers))]
    pub fn push_number(&mut self, number: u64)
        requires { HasRoom (length (decimal number)) self.old }
        ensures appended { self.new ≡ self.old ++ decimal number }
        ensures length { length self.new ≡ length self.old + length (decimal number) }
    {
        if number < 10 {
            self.push_digit(number as u32);
            return;
        }
        if number >= 100 {
            self.push_number(number / 100);
        }
        self.push_two_digits((number % 100) as u32);
    }

    /// Appends a number in decimal, with a minus sign if it is negative: up to 11 bytes. For -7 it
    /// is `-7`.
    #[tactic(auto, using(crate::proofs::Digits::short_numbers))]
    pub fn push_i32(&mut self, number: i32)
        requires { HasRoom (length (signed_decimal number)) self.old }
        ensures appended { self.new ≡ self.old ++ signed_decimal number }
        ensures length { length self.new ≡ length self.old + length (signed_decimal number) }
        ensures max_length { length self.new ≤ length self.old + 11 }
    {
        if number < 0 {
            self.push("-");
        }
        self.push_number(u64::from(number.unsigned_abs()));
    }

    /// Appends a 128-bit number in decimal, with a minus sign if it is negative: up to 40 bytes.
    /// For -7 it is `-7`.
    #[tactic(auto, using(crate::proofs::Digits::wide_numbers))]
    pub fn push_i128(&mut self, number: i128)
        requires { HasRoom (length (signed_decimal number)) self.old }
        ensures appended { self.new ≡ self.old ++ signed_decimal number }
        ensures length { length self.new ≡ length self.old + length (signed_decimal number) }
        ensures max_length { length self.new ≤ length self.old + 40 }
    {
        if number < 0 {
            self.push("-");
        }
        self.push_u128(number.unsigned_abs());
    }

    /// Appends a 128-bit number in decimal, without leading zeros.
    #[tactic(auto, using(crate::proofs::Digits::last_digits))]
    fn push_u128(&mut self, number: u128)
        requires { HasRoom (length (decimal number)) self.old }
        ensures appended { self.new ≡ self.old ++ decimal number }
        ensures length { length self.new ≡ length self.old + length (decimal number) }
    {
        if number < 1_000_000_000_000_000_000 {
            self.push_number(number as u64);
            return;
        }
        self.push_u128(number / 10);
        self.push_digit((number % 10) as u32);
    }

    /// Appends a year, which must be from -999999 to 999999, with four or more digits, as in
    /// ISO 8601. A negative year has a minus sign, and a year above 9999 a plus sign: `0033`,
    /// `-0044`, `+12024`. It has at most 7 bytes.
    #[tactic(auto, using(crate::proofs::YearTexts::year_lengths))]
    pub fn push_year(&mut self, year: i32)
        requires room { HasRoom (length (year_text year)) self.old }
        requires range { unsigned_abs year < 1_000_000 }
        ensures appended { self.new ≡ self.old ++ year_text year }
        ensures length { length self.new ≡ length self.old + length (year_text year) }
        ensures max_length { length self.new ≤ length self.old + 7 }
    {
        if year < 0 {
            self.push("-");
        } else if year > 9_999 {
            self.push("+");
        }
        self.push_four_digits(year.unsigned_abs());
    }

    /// Appends a number below 1000000 with four or more digits. For 33 they are `0033`.
    #[tactic(auto, using(crate::proofs::YearTexts::years))]
    fn push_four_digits(&mut self, number: u32)
        requires room { HasRoom (length (digits_at_least 4 number)) self.old }
        requires range { number < 1_000_000 }
        ensures appended { self.new ≡ self.old ++ digits_at_least 4 number }
        ensures length { length self.new ≡ length self.old + length (digits_at_least 4 number) }
    {
        let above = number / 10_000;
        if above > 9 {
            self.push_two_digits(above);
        } else if above > 0 {
            self.push_digit(above);
        }
        self.push_two_digits(number / 100 % 100);
        self.push_two_digits(number % 100);
    }

    /// Appends the decimals of a second, without trailing zeros: from 1 to 9 digits. For 500000000
    /// nanoseconds they are `5`, and for 0 nanoseconds `0`. The nanoseconds must be below
    /// 1000000000.
    pub fn push_decimals(&mut self, nanoseconds: u32)
        requires room { HasRoom (length (decimals nanoseconds)) self.old }
        requires range { nanoseconds < 1_000_000_000 }
        ensures appended { self.new ≡ self.old ++ decimals nanoseconds }
        ensures length { length self.new ≡ length self.old + length (decimals nanoseconds) }
        ensures ascii { IsAscii (decimals nanoseconds) }
        ensures max_length { length self.new ≤ length self.old + 9 }
    {
        let mut others = nanoseconds;
        while others % 100_000_000 > 0 {
            self.push_two_digits(others / 10_000_000);
            others = others % 10_000_000 * 100;
        }
        if others > 0 || nanoseconds == 0 {
            self.push_digit(others / 100_000_000);
        }
    }
}

impl fmt::Debug for ShortText {
    ghost debug_output = { λ text. debug_str text };

    fn fmt<W: fmt::Write>(&self, f: &mut fmt::Formatter<W>) -> fmt::Result {
        fmt::Debug::fmt(self.as_str(), f)
    }
}

/// Returns the two ASCII digits of a number below 100. For 7 they are `*b"07"`.
fn ascii_two_digits(n: u32) -> [u8; 2]
    requires { n < 100 }
    ensures { result ≡ two_digits n }
{
    let index = 2 * n as usize;
    [DIGIT_PAIRS[index], DIGIT_PAIRS[index + 1]]
}

/// Returns the ASCII digit of a number below 10. For 7 it is `b'7'`.
fn ascii_digit(n: u32) -> u8
    requires { n < 10 }
    ensures { result ≡ digit n }
{
    b'0' + n as u8
}
