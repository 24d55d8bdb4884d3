//! The ranges of components, and their errors.
ghost use Rattle.std.specs.Prelude.{◌≡◌};
ghost use Rattle.cal_format.specs.Ranges.{named, minimum, maximum, range_error, item_error, first_range_error};

use crate::item::{Component, Item};
use cal_time::error::{Component as Named, ComponentRange};

/// Returns the error of the first number out of range.
pub(crate) fn first_range_error(items: &[Item], numbers: &[u64]) -> Option<ComponentRange>
    ensures { result ≡ first_range_error items.now numbers.now }
{
    match items {
        [] => None,
        [item, others @ ..] => match numbers {
            [] => None,
            [number, rest @ ..] => match item.error(*number) {
                Some(error) => Some(error),
                None => first_range_error(others, rest),
            },
        },
    }
}

impl Item {
    /// Returns the error of the number of the item if it is out of range.
    #[inline(always)]
    pub(crate) fn error(self, number: u64) -> Option<ComponentRange>
        ensures { result ≡ item_error self number }
    {
        match self {
            Item::Number(component, _) | Item::Signed(component, _) => {
                if component.minimum() <= number && number <= component.maximum() {
                    None
                } else {
                    Some(component.range_error())
                }
            }
            _ => None,
        }
    }
}

impl Component {
    fn minimum(self) -> u64
        ensures { result ≡ minimum self }
    {
        match self {
            Component::Month
            | Component::Day
            | Component::Ordinal
            | Component::IsoWeek
            | Component::Weekday
            | Component::SundayWeekday
            | Component::Hour12 => 1,
            _ => 0,
        }
    }

    fn maximum(self) -> u64
        ensures { result ≡ maximum self }
    {
        match self {
            Component::Year | Component::IsoYear => 9_999,
            Component::Century | Component::YearOfCentury => 99,
            Component::Month | Component::Hour12 => 12,
            Component::Day => 31,
            Component::Ordinal => 366,
            Component::IsoWeek | Component::SundayWeek | Component::MondayWeek => 53,
            Component::Weekday | Component::SundayWeekday => 7,
            Component::DaysFromMonday | Component::DaysFromSunday => 6,
            Component::Hour => 23,
            Component::Minute
            | Component::Second
            | Component::OffsetMinute
            | Component::OffsetSecond => 59,
            Component::Period | Component::OffsetSign | Component::TimestampSign => 1,
            Component::Subsecond1 => 9,
            Component::Subsecond2 => 99,
            Component::Millisecond => 999,
            Component::Subsecond4 => 9_999,
            Component::Subsecond5 => 99_999,
            Component::Microsecond => 999_999,
            Component::Subsecond7 => 9_999_999,
            Component::Subsecond8 => 99_999_999,
            Component::Nanosecond => 999_999_999,
            Component::OffsetHour => 25,
            Component::Timestamp => 99_999_999_999_999,
        }
    }

    /// Returns the name of the component in an error.
    pub(crate) fn named(self) -> Named
        ensures { result ≡ named self }
    {
        match self {
            Component::Year | Component::Century | Component::YearOfCentury | Component::IsoYear =>
                Named::Year,
            Component::Month => Named::Month,
            Component::Day => Named::Day,
            Component::Ordinal => Named::Ordinal,
            Component::IsoWeek | Component::SundayWeek | Component::MondayWeek => Named::Week,
            Component::Weekday
            | Component::DaysFromMonday
            | Component::DaysFromSunday
            | Component::SundayWeekday => Named::Weekday,
            Component::Hour | Component::Hour12 | Component::Period => Named::Hour,
            Component::Minute => Named::Minute,
            Component::Second => Named::Second,
            Component::Millisecond => Named::Millisecond,
            Component::Microsecond => Named::Microsecond,
            Component::Nanosecond
            | Component::Subsecond1
            | Component::Subsecond2
            | Component::Subsecond4
            | Component::Subsecond5
            | Component::Subsecond7
            | Component::Subsecond8 => Named::Nanosecond,
            Component::OffsetHour | Component::OffsetSign => Named::OffsetHour,
            Component::OffsetMinute => Named::OffsetMinute,
            Component::OffsetSecond => Named::OffsetSecond,
            Component::Timestamp | Component::TimestampSign => Named::Timestamp,
        }
    }

    fn range_error(self) -> ComponentRange
        ensures { result ≡ range_error self }
    {
        match self {
            Component::Day
            | Component::Ordinal
            | Component::IsoWeek
            | Component::SundayWeek
            | Component::MondayWeek => ComponentRange::conditional(self.named()),
            _ => ComponentRange::unconditional(self.named()),
        }
    }
}
