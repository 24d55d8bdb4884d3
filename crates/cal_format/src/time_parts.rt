//! Times of day from the numbers of a text.
ghost use Rattle.std.specs.Prelude.{◌≡◌, ◌≤◌};
ghost use Rattle.cal_time.specs.Time.{IsTime, time_of as time_with};
ghost use Rattle.cal_format.specs.declared.item.Component.{Component};
ghost use Rattle.cal_format.specs.Ranges.{maximum};
ghost use Rattle.cal_format.specs.Scanning.{number_at};
ghost use Rattle.cal_format.specs.Values.{hour_in, nanosecond_in, time_in};

use crate::determines::any_shows;
use crate::fields::Fields;
use crate::format::Format;
use crate::item::Component;
use cal_time::Time;

/// Returns the time of day with the numbers of the fields.
pub(crate) fn time_of(items: &Format, fields: &Fields) -> Time
    requires { (c : Component) → number_at c fields.now ≤ maximum c }
    ensures in_range { IsTime result }
    ensures value { result ≡ time_in items.now (λ c. number_at c fields.now) }
{
    let minute = fields.get(Component::Minute);
    let second = fields.get(Component::Second);
    time_with(
        hour_of(items, fields),
        minute as u8,
        second as u8,
        nanosecond_of(items, fields),
    )
}

/// Returns the time of day with these parts.
pub(crate) fn time_with(hour: u8, minute: u8, second: u8, nanosecond: u32) -> Time
    requires { (hour ≤ 23) × (minute ≤ 59) × (second ≤ 59) × (nanosecond ≤ 999_999_999) }
    ensures value { result ≡ time_with hour minute second nanosecond }
    ensures in_range { IsTime result }
{
    match Time::from_hms_nano(hour, minute, second, nanosecond) {
        Ok(time) => time,
        Err(_) => Time::MIDNIGHT,
    }
}

fn hour_of(items: &Format, fields: &Fields) -> u8
    requires { (c : Component) → number_at c fields.now ≤ maximum c }
    ensures value { result ≡ hour_in items.now (λ c. number_at c fields.now) }
    ensures range { result ≤ 23 }
{
    if any_shows(items, Component::Hour) {
        return fields.get(Component::Hour) as u8;
    }
    let hour = fields.get(Component::Hour12);
    let period = fields.get(Component::Period);
    (hour % 12 + period * 12) as u8
}

/// Returns the nanoseconds of the second.
pub(crate) fn nanosecond_of(items: &Format, fields: &Fields) -> u32
    requires { (c : Component) → number_at c fields.now ≤ maximum c }
    ensures value { result ≡ nanosecond_in items.now (λ c. number_at c fields.now) }
    ensures range { result ≤ 999_999_999 }
{
    if any_shows(items, Component::Nanosecond) {
        return fields.get(Component::Nanosecond) as u32;
    }
    if any_shows(items, Component::Subsecond8) {
        return fields.get(Component::Subsecond8) as u32 * 10;
    }
    if any_shows(items, Component::Subsecond7) {
        return fields.get(Component::Subsecond7) as u32 * 100;
    }
    if any_shows(items, Component::Microsecond) {
        return fields.get(Component::Microsecond) as u32 * 1_000;
    }
    if any_shows(items, Component::Subsecond5) {
        return fields.get(Component::Subsecond5) as u32 * 10_000;
    }
    if any_shows(items, Component::Subsecond4) {
        return fields.get(Component::Subsecond4) as u32 * 100_000;
    }
    if any_shows(items, Component::Millisecond) {
        return fields.get(Component::Millisecond) as u32 * 1_000_000;
    }
    if any_shows(items, Component::Subsecond2) {
        return fields.get(Component::Subsecond2) as u32 * 10_000_000;
    }
    if any_shows(items, Component::Subsecond1) {
        return fields.get(Component::Subsecond1) as u32 * 100_000_000;
    }
    0
}
