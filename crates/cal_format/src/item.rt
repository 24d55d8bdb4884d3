//! The items of a format.
ghost use Rattle.std.specs.Prelude.{◌≡◌, ◌<◌, ◌≤◌};
ghost use Rattle.cal_format.specs.Format.{escape};
ghost use Rattle.cal_format.specs.Moment.{width, most_digits};
ghost use Rattle.cal_format.specs.Reading.{index, name_component, item_component};

/// A number that a format shows of a value. The ranges here are the ranges in a text that parses.
#[derive(Clone, Copy, Debug, PartialEq, Eq)]
pub enum Component {
    /// The year, from 0 to 9999. Other years print with a sign: `-0044` or `+12024`.
    Year,
    /// The year divided by 100, from 0 to 99: 20 for 2024.
    Century,
    /// The last two digits of the year, from 0 to 99: 24 for 2024.
    YearOfCentury,
    /// The ISO year, from 0 to 9999: 2025 for 2024-12-30.
    IsoYear,
    /// The month, from 1 to 12.
    Month,
    /// The day of the month, from 1 to 31.
    Day,
    /// The day of the year, from 1 to 366.
    Ordinal,
    /// The ISO week, from 1 to 53.
    IsoWeek,
    /// The weekday, from 1, Monday, to 7, Sunday.
    Weekday,
    /// The weekday, from 0, Monday, to 6, Sunday.
    DaysFromMonday,
    /// The weekday, from 0, Sunday, to 6, Saturday.
    DaysFromSunday,
    /// The weekday, from 1, Sunday, to 7, Saturday.
    SundayWeekday,
    /// The number of Sundays of the year so far, from 0 to 53.
    SundayWeek,
    /// The number of Mondays of the year so far, from 0 to 53.
    MondayWeek,
    /// The hour, from 0 to 23.
    Hour,
    /// The hour, from 1 to 12. Midnight and noon have 12.
    Hour12,
    /// The minute, from 0 to 59.
    Minute,
    /// The second, from 0 to 59.
    Second,
    /// The half of the day: 0 before noon, 1 from noon on. Errors name it as the hour.
    Period,
    /// The tenths of the second, from 0 to 9.
    Subsecond1,
    /// The hundredths of the second, from 0 to 99.
    Subsecond2,
    /// The milliseconds of the second, from 0 to 999.
    Millisecond,
    /// The first four digits of the second's fraction, from 0 to 9999.
    Subsecond4,
    /// The first five digits of the second's fraction, from 0 to 99999.
    Subsecond5,
    /// The microseconds of the second, from 0 to 999999.
    Microsecond,
    /// The first seven digits of the second's fraction, from 0 to 9999999.
    Subsecond7,
    /// The first eight digits of the second's fraction, from 0 to 99999999.
    Subsecond8,
    /// The nanoseconds of the second, from 0 to 999999999.
    Nanosecond,
    /// The hours of the offset without its sign, from 0 to 25.
    OffsetHour,
    /// The minutes of the offset past its hours, from 0 to 59.
    OffsetMinute,
    /// The seconds of the offset past its minutes, from 0 to 59.
    OffsetSecond,
    /// The sign of the offset: 1 for minus, else 0.
    OffsetSign,
    /// The whole seconds since 1970-01-01 0:00 UTC, rounded down, without their sign. They have at
    /// most 14 digits.
    Timestamp,
    /// The sign of these seconds: 1 for minus, else 0.
    TimestampSign,
}

/// A padding: the bytes before a number with fewer digits than its width.
#[derive(Clone, Copy, Debug, PartialEq, Eq)]
pub enum Padding {
    /// Zeros, such as `07` for the hour 7.
    Zero,
    /// Spaces, such as ` 7` for the hour 7.
    Space,
    /// No bytes, such as `7` for the hour 7.
    None,
}

/// A name that a format shows of a value, in English.
#[derive(Clone, Copy, Debug, PartialEq, Eq)]
pub enum Name {
    /// The name of the month, such as `February`. In some languages this is the form beside a day.
    Month,
    /// The name of the month without a day, such as `February`. Some languages have another form for
    /// it: Polish has `stycznia` beside a day, and `styczeń` without one.
    MonthAlone,
    /// The first three letters of the name of the month, such as `Feb`.
    ShortMonth,
    /// The name of the weekday, such as `Thursday`.
    Weekday,
    /// The first three letters of the name of the weekday, such as `Thu`.
    ShortWeekday,
    /// `AM` before noon, `PM` from noon on.
    Period,
    /// `am` before noon, `pm` from noon on.
    LowerPeriod,
}

/// An item of a format.
#[derive(Clone, Copy, Debug, PartialEq, Eq)]
pub enum Item {
    /// This byte.
    Literal(u8),
    /// The number of a component, padded to its width.
    Number(Component, Padding),
    /// The same with a plus sign, if it has no sign: `+2024` for the year 2024, and `-0044`.
    Signed(Component, Padding),
    /// A name.
    Name(Name),
    /// A point and the digits of the second's fraction without trailing zeros, such as `.25`, or
    /// nothing for 0.
    Fraction,
    /// The digits of the second's fraction without trailing zeros, at least one: `25`, or `0` for
    /// 0.
    Decimals,
    /// The sign of the offset: `-` if it is negative, else `+`.
    OffsetSign,
    /// The minus sign of a negative offset, or nothing.
    OffsetMinus,
    /// The sign of the Unix time: `-` if it is negative, else `+`.
    TimestampSign,
    /// The minus sign of a negative Unix time, or nothing.
    TimestampMinus,
    /// The abbreviation of the zone, such as `CET`.
    Abbreviation,
}

/// A syntax of formats.
#[derive(Clone, Copy, Debug)]
pub enum Syntax {
    /// Letters after percent signs, such as `%Y-%m-%d`, as in `strftime`.
    Percent,
    /// Words in brackets, such as `[year]-[month]-[day]`, as in the crate `time`.
    Brackets,
}

impl Syntax {
    /// Returns the byte before the spelling of items: `%` or `[`.
    pub(crate) fn escape(self) -> u8
        ensures { result ≡ escape self }
    {
        match self {
            Syntax::Percent => b'%',
            Syntax::Brackets => b'[',
        }
    }
}

impl Component {
    /// Returns the number of digits to which the component is padded.
    pub(crate) fn width(self) -> u8
        ensures value { result ≡ width self }
        ensures range { (1 ≤ result) × (result ≤ 9) }
    {
        match self {
            Component::Year | Component::IsoYear | Component::Subsecond4 => 4,
            Component::Ordinal | Component::Millisecond => 3,
            Component::Subsecond5 => 5,
            Component::Microsecond => 6,
            Component::Subsecond7 => 7,
            Component::Subsecond8 => 8,
            Component::Nanosecond | Component::Timestamp => 9,
            Component::Weekday
            | Component::DaysFromMonday
            | Component::DaysFromSunday
            | Component::SundayWeekday
            | Component::Period
            | Component::Subsecond1
            | Component::OffsetSign
            | Component::TimestampSign => 1,
            _ => 2,
        }
    }

    /// Returns the maximum number of digits of the component without padding.
    pub(crate) fn most_digits(self) -> u8
        ensures value { result ≡ most_digits self }
        ensures range { (1 ≤ result) × (result ≤ 14) }
    {
        match self {
            Component::Timestamp => 14,
            _ => self.width(),
        }
    }

    /// Returns the index of the component, from 0 for `Year` to 33 for `TimestampSign`.
    #[inline(always)]
    pub fn index(self) -> usize
        ensures value { result ≡ index self }
        ensures range { result < 34 }
    {
        self as usize
    }
}

impl Name {
    /// Returns the component that the name shows.
    pub(crate) fn component(self) -> Component
        ensures { result ≡ name_component self }
    {
        match self {
            Name::Month => Component::Month,
            Name::MonthAlone => Component::Month,
            Name::ShortMonth => Component::Month,
            Name::Weekday => Component::Weekday,
            Name::ShortWeekday => Component::Weekday,
            Name::Period => Component::Period,
            Name::LowerPeriod => Component::Period,
        }
    }
}

impl Item {
    /// Returns the component that the item shows. A literal and an abbreviation show none.
    #[inline(always)]
    pub fn component(self) -> Option<Component>
        ensures { result ≡ item_component self }
    {
        match self {
            Item::Literal(_) | Item::Abbreviation => None,
            Item::Number(component, _) | Item::Signed(component, _) => Some(component),
            Item::Name(name) => Some(name.component()),
            Item::Fraction | Item::Decimals => Some(Component::Nanosecond),
            Item::OffsetSign | Item::OffsetMinus => Some(Component::OffsetSign),
            Item::TimestampSign | Item::TimestampMinus => Some(Component::TimestampSign),
        }
    }
}
