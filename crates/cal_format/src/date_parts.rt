//! Dates from the numbers of a text.
ghost use Rattle.std.specs.Prelude.{◌≡◌, ℕ, ◌+◌, ◌*◌, ◌<◌, ◌≤◌, Some, IsTrue, IfSome, pos};
ghost use Rattle.cal_time.specs.Date.{IsDate, HasCalendarDate, HasOrdinalDate};
ghost use Rattle.cal_time.specs.IsoWeekDate.{HasIsoWeekDate};
ghost use Rattle.cal_format.specs.declared.item.Component.{Component};
ghost use Rattle.cal_format.specs.Reading.{shows_date};
ghost use Rattle.cal_format.specs.Ranges.{maximum};
ghost use Rattle.cal_format.specs.Scanning.{number_at};
ghost use Rattle.cal_format.specs.Values.{year_in, weekday_in, IsDateOf, value_error};

use crate::determines::{any_shows, shows_calendar_date, shows_ordinal_date, shows_timestamp};
use crate::fields::Fields;
use crate::format::Format;
use crate::item::Component;
use cal_time::error::{Component as Named, ComponentRange};
use cal_time::{Date, Month, Weekday};

/// Returns the date with the numbers of the fields.
pub(crate) fn date_of(items: &Format, fields: &Fields) -> Option<Date>
    requires { (c : Component) → number_at c fields.now ≤ maximum c }
    ensures every { IsTrue (shows_date items.now) → (n : ℕ) → IsDate n
        → IsDateOf items.now (λ c. number_at c fields.now) n → result ≡ Some n }
    ensures in_range { IfSome result IsDate }
    ensures value { IsTrue (shows_date items.now)
        → IfSome result (IsDateOf items.now (λ c. number_at c fields.now)) }
{
    if shows_calendar_date(items) {
        let month = fields.get(Component::Month);
        let day = fields.get(Component::Day);
        return calendar_date(year_of(items, fields), month, day);
    }
    if shows_ordinal_date(items) {
        let ordinal = fields.get(Component::Ordinal);
        return ordinal_date(year_of(items, fields), ordinal);
    }
    let iso_year = fields.get(Component::IsoYear);
    let week = fields.get(Component::IsoWeek);
    iso_week_date(iso_year, week, weekday_of(items, fields))
}

/// Returns the error of numbers that no moment has: the Unix time, the day of the month, the day of
/// the year or the ISO week.
pub(crate) fn value_error(items: &Format) -> ComponentRange
    ensures { result ≡ value_error items.now }
{
    if shows_timestamp(items) {
        return ComponentRange::unconditional(Named::Timestamp);
    }
    if shows_calendar_date(items) {
        return ComponentRange::conditional(Named::Day);
    }
    if shows_ordinal_date(items) {
        return ComponentRange::conditional(Named::Ordinal);
    }
    ComponentRange::conditional(Named::Week)
}

/// Returns the year.
fn year_of(items: &Format, fields: &Fields) -> u64
    requires { (c : Component) → number_at c fields.now ≤ maximum c }
    ensures value { result ≡ year_in items.now (λ c. number_at c fields.now) }
    ensures range { result < 10000 }
{
    if any_shows(items, Component::Year) {
        return fields.get(Component::Year);
    }
    let century = fields.get(Component::Century);
    let year = fields.get(Component::YearOfCentury);
    century * 100 + year
}

/// Returns the number of days since Monday.
fn weekday_of(items: &Format, fields: &Fields) -> u8
    requires { (c : Component) → number_at c fields.now ≤ maximum c }
    ensures value { result ≡ weekday_in items.now (λ c. number_at c fields.now) }
    ensures range { result < 7 }
{
    if any_shows(items, Component::Weekday) {
        let number = fields.get(Component::Weekday);
        return ((number % 8 + 6) % 7) as u8;
    }
    if any_shows(items, Component::DaysFromSunday) {
        let number = fields.get(Component::DaysFromSunday);
        return ((number % 7 + 6) % 7) as u8;
    }
    if any_shows(items, Component::SundayWeekday) {
        let number = fields.get(Component::SundayWeekday);
        return ((number % 8 + 5) % 7) as u8;
    }
    (fields.get(Component::DaysFromMonday) % 7) as u8
}

/// Returns the date of a year, a month and a day.
pub(crate) fn calendar_date(year: u64, month: u64, day: u64) -> Option<Date>
    requires { (year < 10000) × (month < 100) × (day < 100) }
    ensures every { (n : ℕ) → IsDate n → HasCalendarDate (pos year) month day n → result ≡ Some n }
    ensures in_range { IfSome result IsDate }
    ensures value { IfSome result (HasCalendarDate (pos year) month day) }
{
    match Month::try_from(month as u8) {
        Ok(month) => Date::from_calendar_date(year as i32, month, day as u8).ok(),
        Err(_) => None,
    }
}

pub(crate) fn ordinal_date(year: u64, ordinal: u64) -> Option<Date>
    requires { (year < 10000) × (ordinal < 1000) }
    ensures every { (n : ℕ) → IsDate n → HasOrdinalDate (pos year) ordinal n → result ≡ Some n }
    ensures in_range { IfSome result IsDate }
    ensures value { IfSome result (HasOrdinalDate (pos year) ordinal) }
{
    Date::from_ordinal_date(year as i32, ordinal as u16).ok()
}

pub(crate) fn iso_week_date(year: u64, week: u64, weekday: u8) -> Option<Date>
    requires { (year < 10000) × (week < 100) × (weekday < 7) }
    ensures every { (n : ℕ) → IsDate n → HasIsoWeekDate (pos year) week weekday n
        → result ≡ Some n }
    ensures in_range { IfSome result IsDate }
    ensures value { IfSome result (HasIsoWeekDate (pos year) week weekday) }
{
    Date::from_iso_week_date(year as i32, week as u8, Weekday::Monday.nth_next(weekday)).ok()
}
