//! The form of names.
ghost use Rattle.std.specs.Prelude.{◌≡◌, ◌<◌, ◌≤◌, ◌∷◌, ◌++◌, ◌==◌, IfSome, if◌then◌else◌, false, true};
ghost use Rattle.cal_text.specs.Shape.{Scans};
ghost use Rattle.cal_format.specs.Form.{Word, Letters, MonthName, WeekdayName, TwoLetters, NameShape, month_text, weekday_text, numbered_name, IsNameNumber};

use crate::item::Name;
use cal_text::Scanner;
use cal_time::Month;

/// Makes the function return this result if the byte comes next.
macro_rules! after_byte {
    ($scanner:ident, $byte:literal => $result:expr) => {
        if let Some(()) = $scanner.byte($byte) {
            return $result;
        }
    };
}

/// Parses a name. Returns the number of its month or weekday, from 1, or 0 before noon and
/// 1 from noon on.
#[tactic(auto, unfolding(crate::specs::Form::PeriodName))]
pub(crate) fn scan_name(scanner: &mut Scanner, name: Name) -> Option<u64>
    ensures scans { Scans (NameShape name) scanner.old.rest.now scanner.new.rest.now result }
    ensures value { IfSome result (λ n.
        scanner.old.rest.now ≡ numbered_name name n ++ scanner.new.rest.now) }
    ensures range { IfSome result (IsNameNumber name) }
{
    match name {
        Name::Month | Name::MonthAlone => scan_month(scanner, true),
        Name::ShortMonth => scan_short_month(scanner),
        Name::Weekday => scan_weekday(scanner, true),
        Name::ShortWeekday => scan_weekday(scanner, false),
        Name::Period => scan_period(scanner, b'A', b'P', b'M'),
        Name::LowerPeriod => scan_period(scanner, b'a', b'p', b'm'),
    }
}

/// The number of a month by the sum of the second and the third letter of its name, modulo 32. No
/// two months have the same sum, and other sums have any month.
const MONTHS: [u8; 32] = [
    1, 7, 4, 6, 1, 11, 1, 2, 12, 1, 1, 1, 1, 1, 1, 1, 1, 1, 1, 3, 1, 9, 1, 10, 1, 1, 5, 1, 8, 1, 1,
    1,
];

/// Parses the first three letters of the name of a month, without a branch for each letter. The
/// other way finds the wrong byte.
#[inline(always)]
fn scan_short_month(scanner: &mut Scanner) -> Option<u64>
    ensures scans { Scans (MonthName false) scanner.old.rest.now scanner.new.rest.now result }
    ensures value { IfSome result (λ n. scanner.old.rest.now ≡ month_text false n ++ scanner.new.rest.now) }
    ensures range { IfSome result (λ n. (1 ≤ n) × (n ≤ 12)) }
{
    if let [_, b, c, others @ ..] = scanner.rest {
        if let Ok(month) = Month::try_from(MONTHS[usize::from(b.wrapping_add(*c) % 32)]) {
            if month.name().as_bytes()[..3] == scanner.rest[..3] {
                scanner.rest = others;
                return Some(u64::from(u8::from(month)));
            }
        }
    }
    scan_month(scanner, false)
}

#[tactic(auto, unfolding(crate::specs::Form::MonthName))]
fn scan_month(scanner: &mut Scanner, is_long: bool) -> Option<u64>
    ensures scans { Scans (MonthName is_long) scanner.old.rest.now scanner.new.rest.now result }
    ensures value { IfSome result (λ n. scanner.old.rest.now ≡ month_text is_long n ++ scanner.new.rest.now) }
    ensures range { IfSome result (λ n. (1 ≤ n) × (n ≤ 12)) }
{
    if let Some(()) = scanner.byte(b'J') {
        after_byte!(scanner, b'a' => scan_letters(scanner, b"n", b"uary", is_long, 1));
        scanner.byte(b'u')?;
        after_byte!(scanner, b'n' => scan_letters(scanner, b"", b"e", is_long, 6));
        scanner.byte(b'l')?;
        return scan_letters(scanner, b"", b"y", is_long, 7);
    }
    if let Some(()) = scanner.byte(b'M') {
        scanner.byte(b'a')?;
        after_byte!(scanner, b'r' => scan_letters(scanner, b"", b"ch", is_long, 3));
        return scan_letters(scanner, b"y", b"", is_long, 5);
    }
    if let Some(()) = scanner.byte(b'A') {
        after_byte!(scanner, b'p' => scan_letters(scanner, b"r", b"il", is_long, 4));
        return scan_letters(scanner, b"ug", b"ust", is_long, 8);
    }
    after_byte!(scanner, b'F' => scan_letters(scanner, b"eb", b"ruary", is_long, 2));
    after_byte!(scanner, b'S' => scan_letters(scanner, b"ep", b"tember", is_long, 9));
    after_byte!(scanner, b'O' => scan_letters(scanner, b"ct", b"ober", is_long, 10));
    after_byte!(scanner, b'N' => scan_letters(scanner, b"ov", b"ember", is_long, 11));
    scanner.byte(b'D')?;
    scan_letters(scanner, b"ec", b"ember", is_long, 12)
}

#[tactic(auto, unfolding(crate::specs::Form::WeekdayName))]
fn scan_weekday(scanner: &mut Scanner, is_long: bool) -> Option<u64>
    ensures scans { Scans (WeekdayName is_long) scanner.old.rest.now scanner.new.rest.now result }
    ensures value { IfSome result (λ n. scanner.old.rest.now ≡ weekday_text is_long n ++ scanner.new.rest.now) }
    ensures range { IfSome result (λ n. (1 ≤ n) × (n ≤ 7)) }
{
    after_byte!(scanner, b'M' => scan_letters(scanner, b"on", b"day", is_long, 1));
    if let Some(()) = scanner.byte(b'T') {
        after_byte!(scanner, b'u' => scan_letters(scanner, b"e", b"sday", is_long, 2));
        return scan_letters(scanner, b"hu", b"rsday", is_long, 4);
    }
    after_byte!(scanner, b'W' => scan_letters(scanner, b"ed", b"nesday", is_long, 3));
    after_byte!(scanner, b'F' => scan_letters(scanner, b"ri", b"day", is_long, 5));
    scanner.byte(b'S')?;
    after_byte!(scanner, b'a' => scan_letters(scanner, b"t", b"urday", is_long, 6));
    scan_letters(scanner, b"un", b"day", is_long, 7)
}

/// Parses the two letters of a half of the day without a branch on the first one, and returns 0 for
/// `am` and 1 for `pm`. The other way finds the wrong byte.
fn scan_period(scanner: &mut Scanner, am: u8, pm: u8, last: u8) -> Option<u64>
    ensures scans { Scans (TwoLetters am pm last) scanner.old.rest.now scanner.new.rest.now result }
    ensures value { IfSome result (λ n.
        scanner.old.rest.now ≡ (if n == 0 then am else pm) ∷ last ∷ scanner.new.rest.now) }
    ensures range { IfSome result (λ n. n < 2) }
{
    if let [first, second, others @ ..] = scanner.rest {
        let is_pm = *first == pm;
        if (is_pm | (*first == am)) & (*second == last) {
            scanner.rest = others;
            return Some(u64::from(is_pm));
        }
    }
    if let Some(()) = scanner.byte(am) {
        scanner.byte(last)?;
        return Some(0);
    }
    scanner.byte(pm)?;
    scanner.byte(last)?;
    Some(1)
}

/// Parses letters, and the other letters of a name if it is long. Returns the number of the name.
fn scan_letters(
    scanner: &mut Scanner,
    letters: &[u8],
    others: &[u8],
    is_long: bool,
    number: u64,
) -> Option<u64>
    ensures scans { Scans (Letters letters.now others.now is_long) scanner.old.rest.now
        scanner.new.rest.now result }
    ensures value { IfSome result (λ _. scanner.old.rest.now ≡ letters.now
        ++ (if is_long then others.now ++ scanner.new.rest.now else scanner.new.rest.now)) }
    ensures number { IfSome result (λ n. n ≡ number) }
{
    scan_word(scanner, letters)?;
    if !is_long {
        return Some(number);
    }
    scan_word(scanner, others)?;
    Some(number)
}

fn scan_word(scanner: &mut Scanner, word: &[u8]) -> Option<()>
    ensures scans { Scans (Word word.now) scanner.old.rest.now scanner.new.rest.now result }
    ensures value { IfSome result (λ _.
        scanner.old.rest.now ≡ word.now ++ scanner.new.rest.now) }
{
    match word {
        [] => Some(()),
        [byte, others @ ..] => {
            scanner.byte(*byte)?;
            scan_word(scanner, others)
        }
    }
}
