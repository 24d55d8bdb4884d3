//! The values that a format determines.
ghost use Rattle.std.specs.Prelude.{◌≡◌};
ghost use Rattle.cal_format.specs.Reading.{any_shows, is_apart, begins_apart, begins_past_point, begins_with_number, ends_before, are_apart, shows_year, shows_calendar_date, shows_ordinal_date, shows_iso_week_date, shows_date, shows_subsecond, shows_time, shows_offset, shows_timestamp, shows_moment};

use crate::format::Format;
use crate::item::{Component, Item, Padding};

/// Returns `true` if an item shows the component. `%F` shows the month, and `%Y` doesn't.
#[inline(always)]
pub fn any_shows(items: &Format, component: Component) -> bool
    ensures { result ≡ any_shows component items.now }
{
    items.shown.shows(component)
}

/// Returns `true` if each item of a width that varies comes before an item that can't continue it.
pub(crate) fn are_apart(items: &[Item]) -> bool
    ensures { result ≡ are_apart items.now }
{
    match items {
        [] => true,
        [item, others @ ..] => item.ends_before(others) && are_apart(others),
    }
}

impl Item {
    /// Returns `true` if these items can't continue the item.
    fn ends_before(self, others: &[Item]) -> bool
        ensures { result ≡ ends_before self others.now }
    {
        match self {
            Item::Number(_, Padding::None) | Item::Signed(_, Padding::None) | Item::Decimals =>
                begins_apart(others),
            Item::Fraction => begins_apart(others) && begins_past_point(others),
            Item::OffsetMinus | Item::TimestampMinus => begins_with_number(others),
            _ => true,
        }
    }

    /// Returns `true` if the text of the item doesn't begin with a digit.
    fn is_apart(self) -> bool
        ensures { result ≡ is_apart self }
    {
        match self {
            Item::Literal(byte) => byte < 48 || byte > 57,
            Item::Name(_) | Item::Signed(_, _) => true,
            Item::OffsetSign | Item::TimestampSign => true,
            _ => false,
        }
    }
}

/// Returns `true` if no text of these items begins with a digit.
fn begins_apart(items: &[Item]) -> bool
    ensures { result ≡ begins_apart items.now }
{
    match items {
        [] => true,
        [Item::Fraction, others @ ..] => begins_apart(others),
        [item, ..] => item.is_apart(),
    }
}

/// Returns `true` if these items begin with neither a point nor a fraction.
fn begins_past_point(items: &[Item]) -> bool
    ensures { result ≡ begins_past_point items.now }
{
    !matches!(items, [Item::Literal(b'.') | Item::Fraction, ..])
}

/// Returns `true` if these items begin with a number.
fn begins_with_number(items: &[Item]) -> bool
    ensures { result ≡ begins_with_number items.now }
{
    matches!(items, [Item::Number(_, _), ..])
}

/// Returns `true` if the items determine a year.
fn shows_year(items: &Format) -> bool
    ensures { result ≡ shows_year items.now }
{
    any_shows(items, Component::Year)
        || (any_shows(items, Component::Century) && any_shows(items, Component::YearOfCentury))
}

pub(crate) fn shows_calendar_date(items: &Format) -> bool
    ensures { result ≡ shows_calendar_date items.now }
{
    shows_year(items) && any_shows(items, Component::Month) && any_shows(items, Component::Day)
}

pub(crate) fn shows_ordinal_date(items: &Format) -> bool
    ensures { result ≡ shows_ordinal_date items.now }
{
    shows_year(items) && any_shows(items, Component::Ordinal)
}

fn shows_iso_week_date(items: &Format) -> bool
    ensures { result ≡ shows_iso_week_date items.now }
{
    let weekday = any_shows(items, Component::Weekday)
        || any_shows(items, Component::DaysFromSunday)
        || any_shows(items, Component::SundayWeekday)
        || any_shows(items, Component::DaysFromMonday);
    any_shows(items, Component::IsoYear) && any_shows(items, Component::IsoWeek) && weekday
}

/// Returns `true` if the items determine a date.
pub(crate) fn shows_date(items: &Format) -> bool
    ensures { result ≡ shows_date items.now }
{
    shows_calendar_date(items) || shows_ordinal_date(items) || shows_iso_week_date(items)
}

/// Returns `true` if the items show a part of a second.
fn shows_subsecond(items: &Format) -> bool
    ensures { result ≡ shows_subsecond items.now }
{
    any_shows(items, Component::Nanosecond)
        || any_shows(items, Component::Subsecond8)
        || any_shows(items, Component::Subsecond7)
        || any_shows(items, Component::Microsecond)
        || any_shows(items, Component::Subsecond5)
        || any_shows(items, Component::Subsecond4)
        || any_shows(items, Component::Millisecond)
        || any_shows(items, Component::Subsecond2)
        || any_shows(items, Component::Subsecond1)
}

/// Returns `true` if the items determine a time of day by its coarsest parts.
pub(crate) fn shows_time(items: &Format) -> bool
    ensures { result ≡ shows_time items.now }
{
    let hour = any_shows(items, Component::Hour)
        || (any_shows(items, Component::Hour12) && any_shows(items, Component::Period));
    let minute = any_shows(items, Component::Minute);
    let second = any_shows(items, Component::Second);
    let subsecond = shows_subsecond(items);
    hour && (minute || !second) && (second || !subsecond)
}

/// Returns `true` if the items determine an offset.
pub(crate) fn shows_offset(items: &Format) -> bool
    ensures { result ≡ shows_offset items.now }
{
    let minute = any_shows(items, Component::OffsetMinute);
    any_shows(items, Component::OffsetSign)
        && any_shows(items, Component::OffsetHour)
        && (minute || !any_shows(items, Component::OffsetSecond))
}

/// Returns `true` if the items show a Unix time.
pub(crate) fn shows_timestamp(items: &Format) -> bool
    ensures { result ≡ shows_timestamp items.now }
{
    any_shows(items, Component::TimestampSign) && any_shows(items, Component::Timestamp)
}

/// Returns `true` if the items determine a date-time at an offset.
pub(crate) fn shows_moment(items: &Format) -> bool
    ensures { result ≡ shows_moment items.now }
{
    shows_timestamp(items) || (shows_date(items) && shows_time(items) && shows_offset(items))
}
