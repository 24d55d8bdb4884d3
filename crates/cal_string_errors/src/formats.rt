//! Strings of a format.
ghost use Rattle.std.specs.Prelude.{◌≡◌, ◌<◌, pos};
ghost use Rattle.cal_format.specs.declared.item.Component.{Component as Shown};
ghost use Rattle.cal_format.specs.Scanning.{number_at, signed_seconds};
ghost use Rattle.cal_format.specs.Values.{year_in};
ghost use Rattle.cal_string_errors.specs.Formats.{IsFormatSentence, IsLenientSentence, hour_text, item_text, numbered, part_text, sentence_of, sentence_with, week_text, weekday_text};

use cal_errors::{Components, Sentence, component_sentence, range_sentence};
use cal_format::{Component as Shown, Fields, Format, LenientFormat, any_shows};
use cal_time::error::Component;

/// Returns the sentence of a component of a string that parsing by a format rejected. Returns `None`
/// for a string without the form of the format, and if the component isn't out of range. The day of
/// `30/02/2024` by `%d/%m/%Y` is `day 30 is out of range 1 to 29 (February 2024)`.
pub fn format_sentence(component: Component, format: &Format, text: &[u8]) -> Option<Sentence>
    ensures { IsFormatSentence component format.now text.now result }
{
    match format.parse_numbers(text) {
        Some(fields) => sentence_of(component, format, &fields),
        None => None,
    }
}

/// Returns the sentence of a component of a string that lenient parsing rejected, as
/// [`format_sentence`] does. The day of `2/29/71` by `%m/%d/%y` with the pivot 1970 is `day 29 is out of
/// range 1 to 28 (February 1971)`.
pub fn lenient_sentence(
    component: Component,
    format: &LenientFormat,
    text: &[u8],
) -> Option<Sentence>
    ensures { IsLenientSentence component format.now text.now result }
{
    let known = format.known_items()?;
    match format.parse_numbers(text) {
        Some(fields) => sentence_of(component, &known, &fields),
        None => None,
    }
}

/// Returns the sentence of a component with the numbers of a string.
fn sentence_of(component: Component, items: &Format, fields: &Fields) -> Option<Sentence>
    requires { (c : Shown) → number_at c fields.now < 100_000_000_000_000 }
    ensures { result ≡ sentence_of component items.now (λ c. number_at c fields.now) }
{
    let components = numbered(year_of(items, fields), fields);
    sentence_with(component, items, fields, &components)
}

/// Returns the sentence of a component, by the item that shows it.
fn sentence_with(
    component: Component,
    items: &Format,
    fields: &Fields,
    components: &Components,
) -> Option<Sentence>
    requires { (c : Shown) → number_at c fields.now < 100_000_000_000_000 }
    ensures { result ≡ sentence_with component items.now (λ c. number_at c fields.now)
        components.now }
{
    match component {
        Component::Month => part_text(component, Shown::Month, items, components),
        Component::Day => part_text(component, Shown::Day, items, components),
        Component::Ordinal => part_text(component, Shown::Ordinal, items, components),
        Component::Week => week_text(items, fields),
        Component::Weekday => weekday_text(items, fields),
        Component::Hour => hour_text(items, fields, components),
        Component::Minute => part_text(component, Shown::Minute, items, components),
        Component::Second => part_text(component, Shown::Second, items, components),
        Component::OffsetHour => part_text(component, Shown::OffsetHour, items, components),
        Component::OffsetMinute => part_text(component, Shown::OffsetMinute, items, components),
        Component::OffsetSecond => part_text(component, Shown::OffsetSecond, items, components),
        Component::Timestamp => part_text(component, Shown::Timestamp, items, components),
        _ => None,
    }
}

/// Returns the sentence of an hour from 0 to 23, or from 1 to 12.
fn hour_text(items: &Format, fields: &Fields, components: &Components) -> Option<Sentence>
    requires { (c : Shown) → number_at c fields.now < 100_000_000_000_000 }
    ensures { result ≡ hour_text items.now (λ c. number_at c fields.now) components.now }
{
    match part_text(Component::Hour, Shown::Hour, items, components) {
        Some(text) => Some(text),
        None => item_text(Component::Hour, Shown::Hour12, 1, 12, items, fields),
    }
}

/// Returns the sentence of an ISO week, or of a week that is counted from a Sunday or a Monday.
fn week_text(items: &Format, fields: &Fields) -> Option<Sentence>
    requires { (c : Shown) → number_at c fields.now < 100_000_000_000_000 }
    ensures { result ≡ week_text items.now (λ c. number_at c fields.now) }
{
    let components = numbered(fields.get(Shown::IsoYear), fields);
    match part_text(Component::Week, Shown::IsoWeek, items, &components) {
        Some(text) => return Some(text),
        None => {}
    }
    match item_text(Component::Week, Shown::SundayWeek, 0, 53, items, fields) {
        Some(text) => Some(text),
        None => item_text(Component::Week, Shown::MondayWeek, 0, 53, items, fields),
    }
}

/// Returns the sentence of a weekday, from the first item that has one.
fn weekday_text(items: &Format, fields: &Fields) -> Option<Sentence>
    requires { (c : Shown) → number_at c fields.now < 100_000_000_000_000 }
    ensures { result ≡ weekday_text items.now (λ c. number_at c fields.now) }
{
    match item_text(Component::Weekday, Shown::Weekday, 1, 7, items, fields) {
        Some(text) => return Some(text),
        None => {}
    }
    match item_text(
        Component::Weekday,
        Shown::SundayWeekday,
        1,
        7,
        items,
        fields,
    ) {
        Some(text) => return Some(text),
        None => {}
    }
    match item_text(
        Component::Weekday,
        Shown::DaysFromMonday,
        0,
        6,
        items,
        fields,
    ) {
        Some(text) => Some(text),
        None => item_text(
            Component::Weekday,
            Shown::DaysFromSunday,
            0,
            6,
            items,
            fields,
        ),
    }
}

/// Returns the sentence of a component by its range, if the items show it.
fn part_text(
    component: Component,
    shown: Shown,
    items: &Format,
    components: &Components,
) -> Option<Sentence>
    ensures { result ≡ part_text component shown items.now components.now }
{
    if any_shows(items, shown) {
        component_sentence(component, components)
    } else {
        None
    }
}

/// Returns the sentence of a component by the range of an item, if the items show it.
fn item_text(
    component: Component,
    shown: Shown,
    low: u8,
    high: u8,
    items: &Format,
    fields: &Fields,
) -> Option<Sentence>
    requires { (c : Shown) → number_at c fields.now < 100_000_000_000_000 }
    ensures { result ≡ item_text component shown low high items.now (λ c. number_at c fields.now) }
{
    if any_shows(items, shown) {
        let value = number(fields, shown);
        range_sentence(component, value, i64::from(low), i64::from(high))
    } else {
        None
    }
}

/// Returns the year, which the items show whole or as a century and two digits.
fn year_of(items: &Format, fields: &Fields) -> u64
    requires { (c : Shown) → number_at c fields.now < 100_000_000_000_000 }
    ensures value { result ≡ year_in items.now (λ c. number_at c fields.now) }
    ensures range { result < 100_000_000_000_000_000 }
{
    if any_shows(items, Shown::Year) {
        fields.get(Shown::Year)
    } else {
        fields.get(Shown::Century) * 100 + fields.get(Shown::YearOfCentury)
    }
}

/// Returns the components of the numbers in a year.
fn numbered(year: u64, fields: &Fields) -> Components
    requires year { year < 100_000_000_000_000_000 }
    requires digits { (c : Shown) → number_at c fields.now < 100_000_000_000_000 }
    ensures { result ≡ numbered year (λ c. number_at c fields.now) }
{
    Components {
        year: year as i64,
        month: number(fields, Shown::Month),
        day: number(fields, Shown::Day),
        ordinal: number(fields, Shown::Ordinal),
        week: number(fields, Shown::IsoWeek),
        julian_day: 0,
        hour: number(fields, Shown::Hour),
        minute: number(fields, Shown::Minute),
        second: number(fields, Shown::Second),
        millisecond: 0,
        microsecond: 0,
        nanosecond: 0,
        offset_hour: signed(fields, Shown::OffsetSign, Shown::OffsetHour),
        offset_minute: signed(fields, Shown::OffsetSign, Shown::OffsetMinute),
        offset_second: signed(fields, Shown::OffsetSign, Shown::OffsetSecond),
        seconds: 0,
        timestamp: signed(fields, Shown::TimestampSign, Shown::Timestamp),
    }
}

/// Returns the number of a component.
fn number(fields: &Fields, shown: Shown) -> i64
    requires { (c : Shown) → number_at c fields.now < 100_000_000_000_000 }
    ensures value { result ≡ pos (number_at shown fields.now) }
{
    fields.get(shown) as i64
}

/// Returns the number of a component with its sign.
fn signed(fields: &Fields, sign: Shown, shown: Shown) -> i64
    requires { (c : Shown) → number_at c fields.now < 100_000_000_000_000 }
    ensures { result ≡ signed_seconds (number_at sign fields.now) (number_at shown fields.now) }
{
    let number = number(fields, shown);
    if fields.get(sign) == 1 {
        -number
    } else {
        number
    }
}
