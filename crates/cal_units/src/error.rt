//! The errors of the calendar.
ghost use Rattle.std.specs.Prelude.{◌≡◌, ◌≤◌, ◌++◌, Some, codes, length};
ghost use Rattle.cal_units.specs.ComponentError.{component_name, unconditional, conditional};

use std::fmt;

/// A component of a date, a time of day or an offset from UTC, as an error names it.
#[derive(Clone, Copy, Debug, PartialEq, Eq, Hash)]
pub enum Component {
    /// The calendar year, or the ISO year of a week date.
    Year,
    /// The number of the month.
    Month,
    /// The day of the month.
    Day,
    /// The day of the year.
    Ordinal,
    /// The ISO week of a week date.
    Week,
    /// The weekday of a week date.
    Weekday,
    /// The Julian day.
    JulianDay,
    /// The hour of the day.
    Hour,
    /// The minute of the hour.
    Minute,
    /// The second of the minute.
    Second,
    /// The millisecond of the second.
    Millisecond,
    /// The microsecond of the second.
    Microsecond,
    /// The nanosecond of the second.
    Nanosecond,
    /// The hours of an offset.
    OffsetHour,
    /// The minutes of an offset, past its hours.
    OffsetMinute,
    /// The seconds of an offset, past its minutes.
    OffsetSecond,
    /// The total seconds of an offset.
    Seconds,
    /// The seconds of a Unix timestamp.
    Timestamp,
}

impl Component {
    /// Returns the name in lower case, such as `julian_day` or `offset hour`. It has at most 13
    /// bytes.
    pub fn name(self) -> &'static str
        ensures value { result.now ≡ component_name self }
        ensures max_length { length result.now ≤ 13 }
    {
        match self {
            Component::Year => "year",
            Component::Month => "month",
            Component::Day => "day",
            Component::Ordinal => "ordinal",
            Component::Week => "week",
            Component::Weekday => "weekday",
            Component::JulianDay => "julian_day",
            Component::Hour => "hour",
            Component::Minute => "minute",
            Component::Second => "second",
            Component::Millisecond => "millisecond",
            Component::Microsecond => "microsecond",
            Component::Nanosecond => "nanosecond",
            Component::OffsetHour => "offset hour",
            Component::OffsetMinute => "offset minute",
            Component::OffsetSecond => "offset second",
            Component::Seconds => "seconds",
            Component::Timestamp => "timestamp",
        }
    }
}

/// An error: a component, such as a month or an hour, is out of range.
///
/// The error is conditional if the range depends on other components. The range of a day depends on
/// the month and the year; the range of an hour is always the same. It prints
/// `<name> was not in range`, for example `hour was not in range`.
#[derive(Clone, Copy, Debug, PartialEq, Eq, Hash)]
pub struct ComponentRange {
    component: Component,
    is_conditional: bool,
}

impl ComponentRange {
    /// Creates the error of a component whose range is always the same.
    /// `ComponentRange::unconditional(Component::Hour)` prints `hour was not in range`.
    pub fn unconditional(component: Component) -> Self
        ensures { result ≡ unconditional component }
    {
        ComponentRange {
            component,
            is_conditional: false,
        }
    }

    /// Creates the error of a component whose range depends on other components.
    /// `ComponentRange::conditional(Component::Day)` prints `day was not in range`.
    pub fn conditional(component: Component) -> Self
        ensures { result ≡ conditional component }
    {
        ComponentRange {
            component,
            is_conditional: true,
        }
    }

    /// Returns the component: `Component::Day` for `ComponentRange::conditional(Component::Day)`.
    pub fn component(self) -> Component
        ensures { result ≡ self.component }
    {
        self.component
    }

    /// Returns the name of the component: `day` for `ComponentRange::conditional(Component::Day)`.
    /// It has at most 13 bytes.
    pub fn name(self) -> &'static str
        ensures value { result.now ≡ component_name self.component }
        ensures max_length { length result.now ≤ 13 }
    {
        self.component.name()
    }

    /// Returns `true` if the range of the component depends on other components.
    ///
    /// It is `true` for `ComponentRange::conditional(Component::Day)` and `false` for
    /// `ComponentRange::unconditional(Component::Hour)`.
    pub fn is_conditional(self) -> bool
        ensures { result ≡ self.is_conditional }
    {
        self.is_conditional
    }
}

impl fmt::Display for ComponentRange {
    ghost output = { λ e. Some (component_name e.component ++ codes " was not in range") };

    fn fmt<W: fmt::Write>(&self, f: &mut fmt::Formatter<W>) -> fmt::Result {
        write!(f, "{} was not in range", self.name())
    }
}

/// An error: a value is out of range for the target type of a conversion. It prints
/// `Source value is out of range for the target type`.
///
/// It is for conversions that callers write: no call of these crates returns it.
#[derive(Clone, Copy, Debug, PartialEq, Eq)]
pub struct ConversionRange;

impl fmt::Display for ConversionRange {
    ghost output = { λ _. Some (codes "Source value is out of range for the target type") };

    fn fmt<W: fmt::Write>(&self, f: &mut fmt::Formatter<W>) -> fmt::Result {
        f.write_str("Source value is out of range for the target type")
    }
}

/// An error: a text is not the exact English name of a month or a weekday. It prints
/// `value was not a valid variant`.
#[derive(Clone, Copy, Debug, PartialEq, Eq)]
pub struct InvalidVariant;

impl fmt::Display for InvalidVariant {
    ghost output = { λ _. Some (codes "value was not a valid variant") };

    fn fmt<W: fmt::Write>(&self, f: &mut fmt::Formatter<W>) -> fmt::Result {
        f.write_str("value was not a valid variant")
    }
}
