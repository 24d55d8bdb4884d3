//! Components out of range, by the values that were passed.
ghost use Rattle.std.specs.Prelude.{◌≡◌, Some};
ghost use Rattle.cal_errors.specs.Components.{always, bounds_of, day_bounds, month_of, ordinal_bounds, sentence_in, week_bounds, year_of};

use crate::bounds::{Bounds, Place};
use crate::sentence::Sentence;
use cal_units::Month;
use cal_units::error::Component;
use cal_units::util::{days_in_year, days_in_year_month, weeks_in_year};

/// The components of a value. A component that the error doesn't depend on can be any number.
#[repr(C)]
#[derive(Clone, Copy, Debug)]
pub struct Components {
    /// The calendar year, or the ISO year of a week date.
    pub year: i64,
    /// The month, from 1 for January.
    pub month: i64,
    /// The day of the month.
    pub day: i64,
    /// The day of the year.
    pub ordinal: i64,
    /// The ISO week.
    pub week: i64,
    /// The Julian day.
    pub julian_day: i64,
    /// The hour of the day.
    pub hour: i64,
    /// The minute of the hour.
    pub minute: i64,
    /// The second of the minute.
    pub second: i64,
    /// The millisecond of the second.
    pub millisecond: i64,
    /// The microsecond of the second.
    pub microsecond: i64,
    /// The nanosecond of the second.
    pub nanosecond: i64,
    /// The hours of an offset.
    pub offset_hour: i64,
    /// The minutes of an offset past its hours.
    pub offset_minute: i64,
    /// The seconds of an offset past its minutes.
    pub offset_second: i64,
    /// The total seconds of an offset.
    pub seconds: i64,
    /// The seconds of a Unix timestamp.
    pub timestamp: i64,
}

/// Returns the sentence of a component that is out of range: `day 29 is out of range 1 to 28 (February
/// 2023)` for a day 29 of the month 2 in the year 2023. Returns `None` if the value is in the range, or
/// if the components have no range for it: for a weekday, and for a day without its month and year.
pub fn component_sentence(component: Component, components: &Components) -> Option<Sentence>
    ensures { result ≡ sentence_in component (bounds_of component components.now) }
{
    sentence_in(component, bounds_of(component, components))
}

/// Returns the sentence of a component that is out of a range: `hour 13 is out of range 1 to 12` for an
/// hour 13 from 1 to 12. Returns `None` if the value is in the range.
pub fn range_sentence(component: Component, value: i64, min: i64, max: i64) -> Option<Sentence>
    ensures { result ≡ sentence_in component (Some (always value min max)) }
{
    sentence_in(component, always(value, min, max))
}

/// Returns the sentence of a component with a value and a range, if the value is out of it.
fn sentence_in(component: Component, bounds: Option<Bounds>) -> Option<Sentence>
    ensures { result ≡ sentence_in component bounds }
{
    let bounds = bounds?;
    if bounds.is_outside() {
        Some(bounds.sentence(component))
    } else {
        None
    }
}

/// Returns the value and the range of a component, or `None` if it has no range.
fn bounds_of(component: Component, components: &Components) -> Option<Bounds>
    ensures { result ≡ bounds_of component components.now }
{
    match component {
        Component::Year => always(components.year, -999_999, 999_999),
        Component::Month => always(components.month, 1, 12),
        Component::Day => day_bounds(components),
        Component::Ordinal => ordinal_bounds(components),
        Component::Week => week_bounds(components),
        Component::Weekday => None,
        Component::JulianDay => always(components.julian_day, -363_521_074, 366_963_559),
        Component::Hour => always(components.hour, 0, 23),
        Component::Minute => always(components.minute, 0, 59),
        Component::Second => always(components.second, 0, 59),
        Component::Millisecond => always(components.millisecond, 0, 999),
        Component::Microsecond => always(components.microsecond, 0, 999_999),
        Component::Nanosecond => always(components.nanosecond, 0, 999_999_999),
        Component::OffsetHour => always(components.offset_hour, -25, 25),
        Component::OffsetMinute => always(components.offset_minute, -59, 59),
        Component::OffsetSecond => always(components.offset_second, -59, 59),
        Component::Seconds => always(components.seconds, -93_599, 93_599),
        Component::Timestamp => {
            always(
                components.timestamp,
                -31_619_087_596_800,
                31_494_784_780_799,
            )
        }
    }
}

/// Returns a value with a range that is always the same.
fn always(value: i64, min: i64, max: i64) -> Option<Bounds>
    ensures { result ≡ Some (always value min max) }
{
    Some(Bounds {
        value,
        min,
        max,
        place: Place::Anywhere,
    })
}

/// Returns the day, and the days of its month.
fn day_bounds(components: &Components) -> Option<Bounds>
    ensures { result ≡ day_bounds components.now.day (year_of components.now.year)
        (month_of components.now.month) }
{
    let year = year_of(components.year)?;
    let month = month_of(components.month)?;
    Some(Bounds {
        value: components.day,
        min: 1,
        max: i64::from(days_in_year_month(year, month)),
        place: Place::Month(year, month),
    })
}

/// Returns the ordinal, and the days of its year.
fn ordinal_bounds(components: &Components) -> Option<Bounds>
    ensures { result ≡ ordinal_bounds components.now.ordinal (year_of components.now.year) }
{
    let year = year_of(components.year)?;
    Some(Bounds {
        value: components.ordinal,
        min: 1,
        max: i64::from(days_in_year(year)),
        place: Place::Year(year),
    })
}

/// Returns the week, and the weeks of its year.
fn week_bounds(components: &Components) -> Option<Bounds>
    ensures { result ≡ week_bounds components.now.week (year_of components.now.year) }
{
    let year = year_of(components.year)?;
    Some(Bounds {
        value: components.week,
        min: 1,
        max: i64::from(weeks_in_year(year)),
        place: Place::Year(year),
    })
}

/// Returns the year with a number, or `None` if it is out of range.
fn year_of(number: i64) -> Option<i32>
    ensures { result ≡ year_of number }
{
    if number < -999_999 || number > 999_999 {
        None
    } else {
        Some(number as i32)
    }
}

/// Returns the month with a number, or `None` if there is none.
fn month_of(number: i64) -> Option<Month>
    ensures { result ≡ month_of number }
{
    match number {
        1 => Some(Month::January),
        2 => Some(Month::February),
        3 => Some(Month::March),
        4 => Some(Month::April),
        5 => Some(Month::May),
        6 => Some(Month::June),
        7 => Some(Month::July),
        8 => Some(Month::August),
        9 => Some(Month::September),
        10 => Some(Month::October),
        11 => Some(Month::November),
        12 => Some(Month::December),
        _ => None,
    }
}
