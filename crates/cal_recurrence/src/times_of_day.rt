//! Times of day, and the search for the next one.
ghost use Rattle.std.specs.Prelude.{◌≡◌, ◌+◌, ◌*◌, ◌<◌, ◌≤◌, ◌==◌, Some};
ghost use Rattle.std.specs.List.{list_any};
ghost use Rattle.cal_time.specs.IsoWeekDate.{count_before};
ghost use Rattle.cal_time.specs.SignedDuration.{day};
ghost use Rattle.cal_recurrence.specs.ClockPeriods.{any_hour, any_minute, any_second, filled_times, limits, numbers_below};
ghost use Rattle.cal_recurrence.specs.TimesOfDay.{allows_or_start, matches_time, no_times};
ghost use Rattle.cal_recurrence.specs.TimeSearch.{IsNext, matches_minute, matches_second};

use crate::clock_unit::ClockUnit;
use cal_schedule::Values;
use cal_time::{Counted, Time};

const NANOSECONDS_PER_SECOND: u64 = 1_000_000_000;

/// The times of day of a rule, by lists of hours, minutes and seconds. A time passes if each list
/// allows it. An empty list allows the value of the rule's start.
#[derive(Clone, Debug, PartialEq, Eq, Drop)]
pub struct TimesOfDay {
    /// The hours (`BYHOUR`), from 0 to 23.
    pub hours: Values<u8>,
    /// The minutes of the hour (`BYMINUTE`), from 0 to 59.
    pub minutes: Values<u8>,
    /// The seconds of the minute (`BYSECOND`), from 0 to 59. A leap second, 60, never matches.
    pub seconds: Values<u8>,
    /// The periods of the rule within days, or `None` for periods of days or longer.
    pub clock: Option<ClockUnit>,
}

/// Returns `true` if one of the values is this one.
fn has_value(values: &[u8], value: u8) -> bool
    ensures { result ≡ list_any (λ other. other == value) values.now }
{
    values.iter().any(|other| *other == value)
}

/// Returns `true` if the values have this one, or are empty and the value of the start is this one.
fn allows_or_start(own: u8, values: &[u8], value: u8) -> bool
    ensures { result ≡ allows_or_start own values.now value }
{
    if values.is_empty() {
        value == own
    } else {
        has_value(values, value)
    }
}

/// Returns the number of values below `end` that the list allows.
fn count_allowed(own: u8, values: &[u8], end: u8) -> u8
    requires { end ≤ 60 }
    ensures value { result ≡ count_before (allows_or_start own values.now) end }
    ensures max { result ≤ end }
{
    let mut count = 0;
    for value in 0..end {
        count += u8::from(allows_or_start(own, values, value));
    }
    count
}

/// Returns the first value from `first` on and below `end` that the list allows.
fn next_allowed(own: u8, values: &[u8], first: u8, end: u8) -> Option<u8>
    ensures { IsNext (allows_or_start own values.now) first end result }
{
    for value in first..end {
        if allows_or_start(own, values, value) {
            return Some(value);
        }
    }
    None
}

/// Returns the nanoseconds since midnight of a time of day.
pub(crate) fn nanoseconds(time: Time) -> u64
    ensures value { result ≡ time }
    ensures max { result < day }
{
    time.number() as u64
}

/// Returns the time of day of a second of the day and its nanoseconds.
fn time_at(second: u32, nanosecond: u32) -> Option<Time>
    requires second { second < 86_400 }
    requires nanosecond { nanosecond < 1_000_000_000 }
    ensures { result ≡ Some (second * 1_000_000_000 + nanosecond) }
{
    let (hour, minute) = (second / 3_600, second / 60 % 60);
    match Time::from_hms_nano(hour as u8, minute as u8, (second % 60) as u8, nanosecond) {
        Ok(time) => Some(time),
        Err(_) => None,
    }
}

/// Returns the list of the numbers below `end`, in order.
fn numbers_below(end: u8) -> Values<u8>
    requires { end ≤ 60 }
    ensures { result ≡ numbers_below end }
{
    let mut values = Values::none(0);
    for value in 0..end {
        values.push(value);
    }
    values
}

/// Returns the values, or all values below `end` if the list is empty and `any` is true.
fn limits(any: bool, end: u8, values: &Values<u8>) -> Values<u8>
    requires { end ≤ 60 }
    ensures { result ≡ limits any end values.now }
{
    if any && values.is_empty() {
        numbers_below(end)
    } else {
        Values::from_slice(values.as_slice(), 0)
    }
}

/// Returns `true` if an empty list of hours allows every hour.
fn any_hour(clock: Option<ClockUnit>) -> bool
    ensures { result ≡ any_hour clock }
{
    clock.is_some()
}

/// Returns `true` if an empty list of minutes allows every minute.
fn any_minute(clock: Option<ClockUnit>) -> bool
    ensures { result ≡ any_minute clock }
{
    matches!(clock, Some(ClockUnit::Minute | ClockUnit::Second))
}

/// Returns `true` if an empty list of seconds allows every second.
fn any_second(clock: Option<ClockUnit>) -> bool
    ensures { result ≡ any_second clock }
{
    matches!(clock, Some(ClockUnit::Second))
}

impl TimesOfDay {
    /// Creates the times of day of a rule with one time a day, the time of its start. Set other
    /// times by the fields.
    pub fn new() -> Self
        ensures { result ≡ no_times }
    {
        TimesOfDay {
            hours: Values::none(0),
            minutes: Values::none(0),
            seconds: Values::none(0),
            clock: None,
        }
    }

    /// Copies the lists.
    pub(crate) fn copy(&self) -> Self
        ensures { result ≡ self.now }
    {
        TimesOfDay {
            hours: Values::from_slice(self.hours.as_slice(), 0),
            minutes: Values::from_slice(self.minutes.as_slice(), 0),
            seconds: Values::from_slice(self.seconds.as_slice(), 0),
            clock: self.clock,
        }
    }

    /// Returns the times with the empty lists filled that allow every value.
    pub(crate) fn filled(&self) -> Self
        ensures { result ≡ filled_times self.now }
    {
        TimesOfDay {
            hours: limits(any_hour(self.clock), 24, &self.hours),
            minutes: limits(any_minute(self.clock), 60, &self.minutes),
            seconds: limits(any_second(self.clock), 60, &self.seconds),
            clock: self.clock,
        }
    }

    /// Returns `true` if a time of day passes, in a rule whose start has the time `own`.
    #[tactic(auto, unfolding(crate::specs::TimesOfDay::matches_time))]
    pub(crate) fn matches(&self, own: Time, time: Time) -> bool
        ensures { result ≡ matches_time self.now own time }
    {
        allows_or_start(own.hour(), self.hours.as_slice(), time.hour())
            && allows_or_start(own.minute(), self.minutes.as_slice(), time.minute())
            && allows_or_start(own.second(), self.seconds.as_slice(), time.second())
            && time.nanosecond() == own.nanosecond()
    }

    /// Returns the first minute of the day in this hour or a later one that passes.
    fn minute_from_hour(&self, own: Time, first: u8) -> Option<u16>
        requires { first ≤ 24 }
        ensures { IsNext (matches_minute self.now own) (first * 60) 1_440 result }
    {
        let hour = next_allowed(own.hour(), self.hours.as_slice(), first, 24)?;
        let minute = next_allowed(own.minute(), self.minutes.as_slice(), 0, 60)?;
        Some(u16::from(hour) * 60 + u16::from(minute))
    }

    /// Returns the first minute of the day from this one on that passes.
    fn next_minute(&self, own: Time, first: u16) -> Option<u16>
        requires { first ≤ 1_440 }
        ensures { IsNext (matches_minute self.now own) first 1_440 result }
    {
        if first >= 1_440 {
            return None;
        }
        let (hour, minute) = ((first / 60) as u8, (first % 60) as u8);
        if allows_or_start(own.hour(), self.hours.as_slice(), hour) {
            if let Some(next) = next_allowed(own.minute(), self.minutes.as_slice(), minute, 60) {
                return Some(u16::from(hour) * 60 + u16::from(next));
            }
        }
        self.minute_from_hour(own, hour + 1)
    }

    /// Returns `true` if a minute of the day passes.
    fn matches_minute(&self, own: Time, minute: u16) -> bool
        requires { minute ≤ 1_440 }
        ensures { result ≡ matches_minute self.now own minute }
    {
        allows_or_start(own.hour(), self.hours.as_slice(), (minute / 60) as u8)
            && allows_or_start(own.minute(), self.minutes.as_slice(), (minute % 60) as u8)
    }

    /// Returns the first second of the day in this minute or a later one that passes.
    fn second_from_minute(&self, own: Time, first: u16) -> Option<u32>
        requires { first ≤ 1_440 }
        ensures { IsNext (matches_second self.now own) (first * 60) 86_400 result }
    {
        let minute = self.next_minute(own, first)?;
        let second = next_allowed(own.second(), self.seconds.as_slice(), 0, 60)?;
        Some(u32::from(minute) * 60 + u32::from(second))
    }

    /// Returns the first second of the day from this one on that passes.
    fn next_second(&self, own: Time, first: u32) -> Option<u32>
        requires { first ≤ 86_400 }
        ensures { IsNext (matches_second self.now own) first 86_400 result }
    {
        if first >= 86_400 {
            return None;
        }
        let (minute, second) = ((first / 60) as u16, (first % 60) as u8);
        if self.matches_minute(own, minute) {
            if let Some(next) = next_allowed(own.second(), self.seconds.as_slice(), second, 60) {
                return Some(u32::from(minute) * 60 + u32::from(next));
            }
        }
        self.second_from_minute(own, minute + 1)
    }

    /// Returns the first time of day from the nanosecond `first` on that passes.
    pub(crate) fn next_time(&self, own: Time, first: u64) -> Option<Time>
        requires { first ≤ day }
        ensures { IsNext (matches_time self.now own) first day result }
    {
        // The first second whose time with the nanoseconds of the start isn't before `first`.
        let nanosecond = own.nanosecond();
        let second = (first + 999_999_999 - u64::from(nanosecond)) / NANOSECONDS_PER_SECOND;
        let next = self.next_second(own, second as u32)?;
        time_at(next, nanosecond)
    }
    /// Returns the number of minutes of the day before the minute `end` that pass.
    fn count_minutes(&self, own: Time, end: u16) -> u32
        requires { end ≤ 1_440 }
        ensures value { result ≡ count_before (matches_minute self.now own) end }
        ensures max { result ≤ 1_440 }
    {
        let (hours, minutes) = (self.hours.as_slice(), self.minutes.as_slice());
        let (own_hour, own_minute) = (own.hour(), own.minute());
        let (hour, minute) = ((end / 60) as u8, (end % 60) as u8);
        let whole = u32::from(count_allowed(own_hour, hours, hour))
            * u32::from(count_allowed(own_minute, minutes, 60));
        if allows_or_start(own_hour, hours, hour) {
            whole + u32::from(count_allowed(own_minute, minutes, minute))
        } else {
            whole
        }
    }

    /// Returns the number of seconds of the day before the second `end` that pass.
    fn count_seconds(&self, own: Time, end: u32) -> u32
        requires { end ≤ 86_400 }
        ensures value { result ≡ count_before (matches_second self.now own) end }
        ensures max { result ≤ 86_400 }
    {
        let (minute, second) = ((end / 60) as u16, (end % 60) as u8);
        let (own_second, seconds) = (own.second(), self.seconds.as_slice());
        let whole = self.count_minutes(own, minute)
            * u32::from(count_allowed(own_second, seconds, 60));
        if self.matches_minute(own, minute) {
            whole + u32::from(count_allowed(own_second, seconds, second))
        } else {
            whole
        }
    }

    /// Returns the number of times of day before the nanosecond `end` that pass.
    pub(crate) fn count_before(&self, own: Time, end: u64) -> u32
        requires { end ≤ day }
        ensures value { result ≡ count_before (matches_time self.now own) end }
        ensures max { result ≤ 86_400 }
    {
        // The seconds whose time with the nanoseconds of the start is before `end`.
        let seconds = (end + 999_999_999 - u64::from(own.nanosecond())) / NANOSECONDS_PER_SECOND;
        self.count_seconds(own, seconds as u32)
    }
}
