//! The components of `time`'s format descriptions.
ghost use Rattle.std.specs.Prelude.{◌≡◌, ◌+◌, ◌≤◌, List, length, map, get_or};
ghost use Rattle.cal_format.specs.Components.{years, date_components, time_components};
ghost use Rattle.cal_format.specs.Description.{is_space, spaces, word_length, any_length, modifiers_length, component_length, component_front, other_component_front, any_component_front, description_front};

use crate::directive::{Directive, begins_with};
use crate::item::Component::{
    Century, Day, DaysFromMonday, DaysFromSunday, Hour, Hour12, IsoWeek, IsoYear, Microsecond,
    Millisecond, Minute, MondayWeek, Month, Nanosecond, OffsetHour, OffsetMinute, OffsetSecond,
    Ordinal, Second, Subsecond1, Subsecond2, Subsecond4, Subsecond5, Subsecond7, Subsecond8,
    SundayWeek, SundayWeekday, Timestamp, Weekday, Year, YearOfCentury,
};
use crate::item::Item::{
    self, Decimals, Literal, Number, OffsetMinus, OffsetSign, Signed, TimestampMinus, TimestampSign,
};
use crate::item::Name::{self, LowerPeriod, ShortMonth, ShortWeekday};
use crate::item::Padding::{self, Space, Zero};

/// A name, modifiers, and the items that they spell.
type Row = (&'static str, &'static [&'static str], &'static [Item]);

/// Writes rows of a name, its modifiers and the items that they spell.
macro_rules! components {
    ($($name:literal $($word:literal)+ => $($item:expr),+;)+) => {
        [$(($name, &[$($word),+], &[$($item),+])),+]
    };
}

/// The years. The first row that has all modifiers of a component decides.
pub(crate) const YEARS: [Row; 21] = components! {
    "year" "padding:zero" "repr:full" "base:calendar" "sign:automatic" => Number(Year, Zero);
    "year" "padding:none" "repr:full" "base:calendar" "sign:automatic"
        => Number(Year, Padding::None);
    "year" "padding:space" "repr:full" "base:calendar" "sign:automatic" => Number(Year, Space);
    "year" "padding:zero" "repr:full" "base:iso_week" "sign:automatic" => Number(IsoYear, Zero);
    "year" "padding:none" "repr:full" "base:iso_week" "sign:automatic"
        => Number(IsoYear, Padding::None);
    "year" "padding:space" "repr:full" "base:iso_week" "sign:automatic" => Number(IsoYear, Space);
    "year" "padding:zero" "repr:century" "base:calendar" "sign:automatic" => Number(Century, Zero);
    "year" "padding:none" "repr:century" "base:calendar" "sign:automatic"
        => Number(Century, Padding::None);
    "year" "padding:space" "repr:century" "base:calendar" "sign:automatic"
        => Number(Century, Space);
    "year" "padding:zero" "repr:full" "base:calendar" "sign:mandatory" => Signed(Year, Zero);
    "year" "padding:none" "repr:full" "base:calendar" "sign:mandatory"
        => Signed(Year, Padding::None);
    "year" "padding:space" "repr:full" "base:calendar" "sign:mandatory" => Signed(Year, Space);
    "year" "padding:zero" "repr:full" "base:iso_week" "sign:mandatory" => Signed(IsoYear, Zero);
    "year" "padding:none" "repr:full" "base:iso_week" "sign:mandatory"
        => Signed(IsoYear, Padding::None);
    "year" "padding:space" "repr:full" "base:iso_week" "sign:mandatory" => Signed(IsoYear, Space);
    "year" "padding:zero" "repr:century" "base:calendar" "sign:mandatory" => Signed(Century, Zero);
    "year" "padding:none" "repr:century" "base:calendar" "sign:mandatory"
        => Signed(Century, Padding::None);
    "year" "padding:space" "repr:century" "base:calendar" "sign:mandatory"
        => Signed(Century, Space);
    "year" "padding:zero" "repr:last_two" "base:calendar" "sign:automatic" "sign:mandatory"
        => Number(YearOfCentury, Zero);
    "year" "padding:none" "repr:last_two" "base:calendar" "sign:automatic" "sign:mandatory"
        => Number(YearOfCentury, Padding::None);
    "year" "padding:space" "repr:last_two" "base:calendar" "sign:automatic" "sign:mandatory"
        => Number(YearOfCentury, Space);
};

/// The other components of dates.
pub(crate) const DATE_COMPONENTS: [Row; 26] = components! {
    "month" "padding:zero" "repr:numerical" "case_sensitive:true" => Number(Month, Zero);
    "month" "padding:none" "repr:numerical" "case_sensitive:true" => Number(Month, Padding::None);
    "month" "padding:space" "repr:numerical" "case_sensitive:true" => Number(Month, Space);
    "month" "repr:long" "padding:zero" "padding:none" "padding:space" "case_sensitive:true"
        => Item::Name(Name::Month);
    "month" "repr:short" "padding:zero" "padding:none" "padding:space" "case_sensitive:true"
        => Item::Name(ShortMonth);
    "day" "padding:zero" => Number(Day, Zero);
    "day" "padding:none" => Number(Day, Padding::None);
    "day" "padding:space" => Number(Day, Space);
    "ordinal" "padding:zero" => Number(Ordinal, Zero);
    "ordinal" "padding:none" => Number(Ordinal, Padding::None);
    "ordinal" "padding:space" => Number(Ordinal, Space);
    "week_number" "padding:zero" "repr:iso" => Number(IsoWeek, Zero);
    "week_number" "padding:none" "repr:iso" => Number(IsoWeek, Padding::None);
    "week_number" "padding:space" "repr:iso" => Number(IsoWeek, Space);
    "week_number" "padding:zero" "repr:sunday" => Number(SundayWeek, Zero);
    "week_number" "padding:none" "repr:sunday" => Number(SundayWeek, Padding::None);
    "week_number" "padding:space" "repr:sunday" => Number(SundayWeek, Space);
    "week_number" "padding:zero" "repr:monday" => Number(MondayWeek, Zero);
    "week_number" "padding:none" "repr:monday" => Number(MondayWeek, Padding::None);
    "week_number" "padding:space" "repr:monday" => Number(MondayWeek, Space);
    "weekday" "repr:long" "one_indexed:true" "one_indexed:false" "case_sensitive:true"
        => Item::Name(Name::Weekday);
    "weekday" "repr:short" "one_indexed:true" "one_indexed:false" "case_sensitive:true"
        => Item::Name(ShortWeekday);
    "weekday" "repr:monday" "one_indexed:true" "case_sensitive:true" => Number(Weekday, Zero);
    "weekday" "repr:monday" "one_indexed:false" "case_sensitive:true"
        => Number(DaysFromMonday, Zero);
    "weekday" "repr:sunday" "one_indexed:true" "case_sensitive:true" => Number(SundayWeekday, Zero);
    "weekday" "repr:sunday" "one_indexed:false" "case_sensitive:true"
        => Number(DaysFromSunday, Zero);
};

/// The components of times of day, offsets and Unix times.
pub(crate) const TIME_COMPONENTS: [Row; 38] = components! {
    "hour" "padding:zero" "repr:24" => Number(Hour, Zero);
    "hour" "padding:none" "repr:24" => Number(Hour, Padding::None);
    "hour" "padding:space" "repr:24" => Number(Hour, Space);
    "hour" "padding:zero" "repr:12" => Number(Hour12, Zero);
    "hour" "padding:none" "repr:12" => Number(Hour12, Padding::None);
    "hour" "padding:space" "repr:12" => Number(Hour12, Space);
    "period" "case:upper" "case_sensitive:true" => Item::Name(Name::Period);
    "period" "case:lower" "case_sensitive:true" => Item::Name(LowerPeriod);
    "minute" "padding:zero" => Number(Minute, Zero);
    "minute" "padding:none" => Number(Minute, Padding::None);
    "minute" "padding:space" => Number(Minute, Space);
    "second" "padding:zero" => Number(Second, Zero);
    "second" "padding:none" => Number(Second, Padding::None);
    "second" "padding:space" => Number(Second, Space);
    "subsecond" "digits:1+" => Decimals;
    "subsecond" "digits:1" => Number(Subsecond1, Zero);
    "subsecond" "digits:2" => Number(Subsecond2, Zero);
    "subsecond" "digits:3" => Number(Millisecond, Zero);
    "subsecond" "digits:4" => Number(Subsecond4, Zero);
    "subsecond" "digits:5" => Number(Subsecond5, Zero);
    "subsecond" "digits:6" => Number(Microsecond, Zero);
    "subsecond" "digits:7" => Number(Subsecond7, Zero);
    "subsecond" "digits:8" => Number(Subsecond8, Zero);
    "subsecond" "digits:9" => Number(Nanosecond, Zero);
    "offset_hour" "sign:automatic" "padding:zero" => OffsetMinus, Number(OffsetHour, Zero);
    "offset_hour" "sign:automatic" "padding:none" => OffsetMinus, Number(OffsetHour, Padding::None);
    "offset_hour" "sign:automatic" "padding:space" => OffsetMinus, Number(OffsetHour, Space);
    "offset_hour" "sign:mandatory" "padding:zero" => OffsetSign, Number(OffsetHour, Zero);
    "offset_hour" "sign:mandatory" "padding:none" => OffsetSign, Number(OffsetHour, Padding::None);
    "offset_hour" "sign:mandatory" "padding:space" => OffsetSign, Number(OffsetHour, Space);
    "offset_minute" "padding:zero" => Number(OffsetMinute, Zero);
    "offset_minute" "padding:none" => Number(OffsetMinute, Padding::None);
    "offset_minute" "padding:space" => Number(OffsetMinute, Space);
    "offset_second" "padding:zero" => Number(OffsetSecond, Zero);
    "offset_second" "padding:none" => Number(OffsetSecond, Padding::None);
    "offset_second" "padding:space" => Number(OffsetSecond, Space);
    "unix_timestamp" "precision:second" "sign:automatic"
        => TimestampMinus, Number(Timestamp, Padding::None);
    "unix_timestamp" "precision:second" "sign:mandatory"
        => TimestampSign, Number(Timestamp, Padding::None);
};

/// Returns the items at the front of a text, after an opening bracket.
pub(crate) fn description_front(text: &[u8]) -> Directive
    ensures items { result.items.now ≡ (description_front text.now).items }
    ensures used { result.used ≡ (description_front text.now).used }
    ensures min { 1 ≤ result.used }
{
    match text {
        [b'[', ..] => Directive {
            items: &[Literal(b'[')],
            used: 2,
        },
        _ => any_component_front(text),
    }
}

/// Returns the items of the component at the front of a text.
fn any_component_front(text: &[u8]) -> Directive
    ensures items { result.items.now ≡ (any_component_front text.now).items }
    ensures used { result.used ≡ (any_component_front text.now).used }
    ensures min { 1 ≤ result.used }
{
    let year = year_front(text);
    if year.items.len() != 0 {
        return year;
    }
    other_component_front(text)
}

/// Returns the items of a component other than a year at the front of a text.
fn other_component_front(text: &[u8]) -> Directive
    ensures items { result.items.now ≡ (other_component_front text.now).items }
    ensures used { result.used ≡ (other_component_front text.now).used }
    ensures min { 1 ≤ result.used }
{
    let date = date_front(text);
    if date.items.len() != 0 {
        return date;
    }
    time_front(text)
}

/// Returns the items of a year at the front of a text.
fn year_front(text: &[u8]) -> Directive
    ensures items { result.items.now ≡ (component_front years text.now).items }
    ensures used { result.used ≡ (component_front years text.now).used }
    ensures min { 1 ≤ result.used }
{
    component_front(&YEARS, text)
}

/// Returns the items of another component of a date at the front of a text.
fn date_front(text: &[u8]) -> Directive
    ensures items { result.items.now ≡ (component_front date_components text.now).items }
    ensures used { result.used ≡ (component_front date_components text.now).used }
    ensures min { 1 ≤ result.used }
{
    component_front(&DATE_COMPONENTS, text)
}

/// Returns the items of a component of a time, an offset or a Unix time at the front of a text.
fn time_front(text: &[u8]) -> Directive
    ensures items { result.items.now ≡ (component_front time_components text.now).items }
    ensures used { result.used ≡ (component_front time_components text.now).used }
    ensures min { 1 ≤ result.used }
{
    component_front(&TIME_COMPONENTS, text)
}

#[tactic(auto, unfolding(crate::specs::Description::component_front))]
fn component_front(table: &'static [Row], text: &[u8]) -> Directive
    ensures items { result.items.now
        ≡ (component_front (map (λ row. (row.0.now, map (λ word. word.now) row.1.now, row.2.now)) table.now) text.now).items }
    ensures used { result.used
        ≡ (component_front (map (λ row. (row.0.now, map (λ word. word.now) row.1.now, row.2.now)) table.now) text.now).used }
    ensures min { 1 ≤ result.used }
{
    match table {
        [] => Directive {
            items: &[],
            used: 1,
        },
        [row, others @ ..] => match component_length(row.0.as_bytes(), row.1, text) {
            0 => component_front(others, text),
            length => Directive {
                items: row.2,
                used: length + 1,
            },
        },
    }
}

/// Returns the length of a component with this name and these modifiers, or 0.
fn component_length(name: &[u8], words: &[&str], text: &[u8]) -> usize
    ensures value { result
        ≡ component_length name.now (map (λ word. word.now) words.now) text.now }
    ensures max { result ≤ length text.now }
{
    let start = spaces(text);
    let length = word_length(name, &text[start..]);
    let others = modifiers_length(8, words, &text[start + length..]);
    if length == 0 || others == 0 {
        0
    } else {
        start + length + others
    }
}

/// Returns the length of at most this many modifiers and the closing bracket, or 0.
#[tactic(auto, unfolding(crate::specs::Description::modifiers_length))]
fn modifiers_length(count: usize, words: &[&str], text: &[u8]) -> usize
    ensures value { result
        ≡ modifiers_length count (map (λ word. word.now) words.now) text.now }
    ensures max { result ≤ length text.now }
{
    let start = spaces(text);
    if byte_at(text, start) == b']' {
        return start + 1;
    }
    if count == 0 {
        return 0;
    }
    let length = any_length(words, &text[start..]);
    let others = modifiers_length(count - 1, words, &text[start + length..]);
    if length == 0 || others == 0 {
        0
    } else {
        start + length + others
    }
}

/// Returns the length of the first of these words at the front of a text, or 0.
#[tactic(auto, unfolding(crate::specs::Description::any_length))]
fn any_length(words: &[&str], text: &[u8]) -> usize
    ensures value { result ≡ any_length (map (λ word. word.now) words.now) text.now }
    ensures max { result ≤ length text.now }
{
    match words {
        [] => 0,
        [word, others @ ..] => match word_length(word.as_bytes(), text) {
            0 => any_length(others, text),
            length => length,
        },
    }
}

/// Returns the length of the word if the text begins with it, and white space or a closing bracket
/// comes after it. Otherwise returns 0.
fn word_length(word: &[u8], text: &[u8]) -> usize
    ensures value { result ≡ word_length word.now text.now }
    ensures max { result ≤ length text.now }
{
    let next = byte_at(text, word.len());
    if begins_with(text, word) && (is_space(next) || next == b']') {
        word.len()
    } else {
        0
    }
}

/// Returns the number of bytes of white space at the front of a text.
#[tactic(auto, unfolding(crate::specs::Description::spaces))]
pub(crate) fn spaces(text: &[u8]) -> usize
    ensures value { result ≡ spaces text.now }
    ensures max { result ≤ length text.now }
{
    match text {
        [] => 0,
        [first, others @ ..] => {
            if is_space(*first) {
                spaces(others) + 1
            } else {
                0
            }
        }
    }
}

pub(crate) fn is_space(byte: u8) -> bool
    ensures { result ≡ is_space byte }
{
    byte == b' ' || byte == b'\t' || byte == b'\n' || byte == 12 || byte == b'\r'
}

/// Returns the byte at this index, or 0 past the end.
fn byte_at(text: &[u8], index: usize) -> u8
    ensures { result ≡ get_or text.now index 0 }
{
    if index < text.len() { text[index] } else { 0 }
}
