//! Callers that know only the condition of a call, so the check rejects a stronger one.
ghost use Rattle.std.specs.Prelude.{◌<◌, pos, neg_ℤ, ◌+ℤ◌, ◌-ℤ◌, ◌*ℤ◌, FitsSigned, length, unsigned_abs};
ghost use Rattle.std.specs.Fmt.{signed_decimal};
ghost use Rattle.std.specs.Int.{w64};
ghost use Rattle.cal_units.specs.Digits.{decimals};
ghost use Rattle.cal_units.specs.ShortText.{HasRoom};
ghost use Rattle.cal_units.specs.YearText.{year_text};
ghost use Rattle.cal_span.specs.SignedDuration.{second, minute, hour, day, week, IsDuration, HasQuotient, cut};

use cal_time::{ShortText, SignedDuration};

pub fn made(weeks: i64, days: i64, hours: i64, minutes: i64) -> [SignedDuration; 4]
    requires weeks { IsDuration (weeks *ℤ pos week) }
    requires days { IsDuration (days *ℤ pos day) }
    requires hours { IsDuration (hours *ℤ pos hour) }
    requires minutes { IsDuration (minutes *ℤ pos minute) }
{
    [
        SignedDuration::weeks(weeks),
        SignedDuration::days(days),
        SignedDuration::hours(hours),
        SignedDuration::minutes(minutes),
    ]
}

pub fn made_of_nanoseconds(seconds: i64, past: i32, all: i128) -> [SignedDuration; 2]
    requires carried { FitsSigned w64 (seconds +ℤ cut past (pos second)) }
    requires all { IsDuration all }
{
    [
        SignedDuration::new(seconds, past),
        SignedDuration::nanoseconds_i128(all),
    ]
}

pub fn sum(a: SignedDuration, b: SignedDuration) -> [SignedDuration; 2]
    requires { IsDuration (a +ℤ b) }
{
    let mut sum = a;
    sum += b;
    [a + b, sum]
}

pub fn difference(a: SignedDuration, b: SignedDuration) -> [SignedDuration; 2]
    requires { IsDuration (a -ℤ b) }
{
    let mut difference = a;
    difference -= b;
    [a - b, difference]
}

pub fn opposite(a: SignedDuration) -> SignedDuration
    requires { IsDuration (neg_ℤ a) }
{
    -a
}

macro_rules! scaled {
    ($a:expr, $b:expr, $k:expr) => {{
        let (mut product, mut quotient) = ($a, $b);
        product *= $k;
        quotient /= $k;
        [$a * $k, $b / $k, product, quotient]
    }};
}

pub fn scaled_by_i8(a: SignedDuration, b: SignedDuration, k: i8) -> [SignedDuration; 4]
    requires product { IsDuration (a *ℤ k) }
    requires quotient { HasQuotient b k }
{
    scaled!(a, b, k)
}

pub fn scaled_by_i16(a: SignedDuration, b: SignedDuration, k: i16) -> [SignedDuration; 4]
    requires product { IsDuration (a *ℤ k) }
    requires quotient { HasQuotient b k }
{
    scaled!(a, b, k)
}

pub fn scaled_by_i32(a: SignedDuration, b: SignedDuration, k: i32) -> [SignedDuration; 4]
    requires product { IsDuration (a *ℤ k) }
    requires quotient { HasQuotient b k }
{
    scaled!(a, b, k)
}

pub fn scaled_by_u8(a: SignedDuration, b: SignedDuration, k: u8) -> [SignedDuration; 4]
    requires product { IsDuration (a *ℤ pos k) }
    requires quotient { HasQuotient b (pos k) }
{
    scaled!(a, b, k)
}

pub fn scaled_by_u16(a: SignedDuration, b: SignedDuration, k: u16) -> [SignedDuration; 4]
    requires product { IsDuration (a *ℤ pos k) }
    requires quotient { HasQuotient b (pos k) }
{
    scaled!(a, b, k)
}

pub fn scaled_by_u32(a: SignedDuration, b: SignedDuration, k: u32) -> [SignedDuration; 4]
    requires product { IsDuration (a *ℤ pos k) }
    requires quotient { HasQuotient b (pos k) }
{
    scaled!(a, b, k)
}

pub fn push_i32(text: &mut ShortText, number: i32)
    requires { HasRoom (length (signed_decimal number)) text.old }
{
    text.push_i32(number);
}

pub fn push_i128(text: &mut ShortText, number: i128)
    requires { HasRoom (length (signed_decimal number)) text.old }
{
    text.push_i128(number);
}

pub fn push_year(text: &mut ShortText, year: i32)
    requires room { HasRoom (length (year_text year)) text.old }
    requires below { unsigned_abs year < 1_000_000 }
{
    text.push_year(year);
}

pub fn push_decimals(text: &mut ShortText, nanoseconds: u32)
    requires room { HasRoom (length (decimals nanoseconds)) text.old }
    requires below { nanoseconds < 1_000_000_000 }
{
    text.push_decimals(nanoseconds);
}

/// Appends to four new texts. Only the lengths of such texts show that they have room.
#[tactic(auto, using(cal_units::proofs::TextLengths::text_lengths))]
pub fn new_texts(
    number: i32,
    wide: i128,
    year: i32,
    nanoseconds: u32,
) -> (ShortText, ShortText, ShortText, ShortText)
    requires year { unsigned_abs year < 1_000_000 }
    requires nanoseconds { nanoseconds < 1_000_000_000 }
{
    let mut texts = (
        ShortText::new(),
        ShortText::new(),
        ShortText::new(),
        ShortText::new(),
    );
    push_i32(&mut texts.0, number);
    push_i128(&mut texts.1, wide);
    push_year(&mut texts.2, year);
    push_decimals(&mut texts.3, nanoseconds);
    texts
}
