//! The directives of `strftime`.
ghost use Rattle.std.specs.Prelude.{◌≡◌, ◌≤◌, map};
ghost use Rattle.cal_format.specs.Directive.{begins_with, front_in};

use crate::item::Component::{
    Century, Day, DaysFromSunday, Hour, Hour12, IsoWeek, IsoYear, Microsecond, Millisecond, Minute,
    MondayWeek, Month, Nanosecond, OffsetHour, OffsetMinute, OffsetSecond, Ordinal, Second,
    SundayWeek, Timestamp, Weekday, Year, YearOfCentury,
};
use crate::item::Item::{
    self, Abbreviation, Fraction, Literal, Number, OffsetSign, TimestampMinus,
};
use crate::item::Name::{self, ShortMonth, ShortWeekday};
use crate::item::Padding::{self, Space, Zero};

/// Items, and the number of bytes that spell them. Without items nothing is spelled.
#[derive(Drop)]
pub(crate) struct Directive {
    pub(crate) items: &'static [Item],
    pub(crate) used: usize,
}

/// Writes rows of a spelling and the items that it spells.
macro_rules! spellings {
    ($($text:literal => $($item:expr),+;)+) => { [$(($text, &[$($item),+])),+] };
}

/// The directives of `strftime`, after the percent sign.
pub(crate) const DIRECTIVES: [(&str, &[Item]); 46] = spellings! {
    "-m" => Number(Month, Padding::None);
    "-d" => Number(Day, Padding::None);
    "-H" => Number(Hour, Padding::None);
    "-I" => Number(Hour12, Padding::None);
    ".f" => Fraction;
    "3N" => Number(Millisecond, Zero);
    "6N" => Number(Microsecond, Zero);
    "9N" => Number(Nanosecond, Zero);
    "Y" => Number(Year, Zero);
    "m" => Number(Month, Zero);
    "d" => Number(Day, Zero);
    "j" => Number(Ordinal, Zero);
    "e" => Number(Day, Space);
    "y" => Number(YearOfCentury, Zero);
    "C" => Number(Century, Zero);
    "H" => Number(Hour, Zero);
    "M" => Number(Minute, Zero);
    "S" => Number(Second, Zero);
    "I" => Number(Hour12, Zero);
    "f" => Number(Microsecond, Zero);
    "N" => Number(Nanosecond, Zero);
    "B" => Item::Name(Name::Month);
    "OB" => Item::Name(Name::MonthAlone);
    "b" => Item::Name(ShortMonth);
    "h" => Item::Name(ShortMonth);
    "A" => Item::Name(Name::Weekday);
    "a" => Item::Name(ShortWeekday);
    "p" => Item::Name(Name::Period);
    "G" => Number(IsoYear, Zero);
    "V" => Number(IsoWeek, Zero);
    "u" => Number(Weekday, Zero);
    "w" => Number(DaysFromSunday, Zero);
    "U" => Number(SundayWeek, Zero);
    "W" => Number(MondayWeek, Zero);
    "F" => Number(Year, Zero), Literal(b'-'), Number(Month, Zero), Literal(b'-'), Number(Day, Zero);
    "T" => Number(Hour, Zero), Literal(b':'), Number(Minute, Zero), Literal(b':'),
        Number(Second, Zero);
    "R" => Number(Hour, Zero), Literal(b':'), Number(Minute, Zero);
    "D" => Number(Month, Zero), Literal(b'/'), Number(Day, Zero), Literal(b'/'),
        Number(YearOfCentury, Zero);
    "z" => OffsetSign, Number(OffsetHour, Zero), Number(OffsetMinute, Zero);
    ":z" => OffsetSign, Number(OffsetHour, Zero), Literal(b':'), Number(OffsetMinute, Zero);
    "::z" => OffsetSign, Number(OffsetHour, Zero), Literal(b':'), Number(OffsetMinute, Zero),
        Literal(b':'), Number(OffsetSecond, Zero);
    "s" => TimestampMinus, Number(Timestamp, Padding::None);
    "Z" => Abbreviation;
    "n" => Literal(b'\n');
    "t" => Literal(b'\t');
    "%" => Literal(b'%');
};

/// Returns the items of the first row whose spelling begins the text.
pub(crate) fn front_in(table: &'static [(&'static str, &'static [Item])], text: &[u8]) -> Directive
    ensures items { result.items.now
        ≡ (front_in (map (λ row. (row.0.now, row.1.now)) table.now) text.now).items }
    ensures used { result.used
        ≡ (front_in (map (λ row. (row.0.now, row.1.now)) table.now) text.now).used }
    ensures min { 1 ≤ result.used }
{
    match table {
        [] => Directive {
            items: &[],
            used: 1,
        },
        [row, others @ ..] => {
            if begins_with(text, row.0.as_bytes()) {
                Directive {
                    items: row.1,
                    used: row.0.len() + 1,
                }
            } else {
                front_in(others, text)
            }
        }
    }
}

/// Returns `true` if the text begins with this one.
#[tactic(auto, unfolding(crate::specs::Directive::begins_with))]
pub(crate) fn begins_with(text: &[u8], front: &[u8]) -> bool
    ensures { result ≡ begins_with front.now text.now }
{
    match front {
        [] => true,
        [byte, others @ ..] => match text {
            [] => false,
            [first, rest @ ..] => *first == *byte && begins_with(rest, others),
        },
    }
}
