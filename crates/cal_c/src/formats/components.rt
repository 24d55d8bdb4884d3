//! The numbers of components.
ghost use Rattle.std.specs.Prelude.{◌≡◌, Some, IfSome};
ghost use Rattle.cal_format.specs.declared.item.Component.{Component};
ghost use Rattle.cal_format.specs.Reading.{index};

use cal_format::Component;

/// Returns the component with a number, or `None`.
pub(super) fn component_with(number: u8) -> Option<Component>
    ensures every { (component : Component) → number ≡ index component → result ≡ Some component }
    ensures value { IfSome result (λ component. number ≡ index component) }
{
    match number {
        0 => Some(Component::Year),
        1 => Some(Component::Century),
        2 => Some(Component::YearOfCentury),
        3 => Some(Component::IsoYear),
        4 => Some(Component::Month),
        5 => Some(Component::Day),
        6 => Some(Component::Ordinal),
        7 => Some(Component::IsoWeek),
        8 => Some(Component::Weekday),
        9 => Some(Component::DaysFromMonday),
        10 => Some(Component::DaysFromSunday),
        11 => Some(Component::SundayWeekday),
        12 => Some(Component::SundayWeek),
        13 => Some(Component::MondayWeek),
        14 => Some(Component::Hour),
        15 => Some(Component::Hour12),
        16 => Some(Component::Minute),
        17 => Some(Component::Second),
        18 => Some(Component::Period),
        19 => Some(Component::Subsecond1),
        20 => Some(Component::Subsecond2),
        21 => Some(Component::Millisecond),
        22 => Some(Component::Subsecond4),
        23 => Some(Component::Subsecond5),
        24 => Some(Component::Microsecond),
        25 => Some(Component::Subsecond7),
        26 => Some(Component::Subsecond8),
        27 => Some(Component::Nanosecond),
        28 => Some(Component::OffsetHour),
        29 => Some(Component::OffsetMinute),
        30 => Some(Component::OffsetSecond),
        31 => Some(Component::OffsetSign),
        32 => Some(Component::Timestamp),
        33 => Some(Component::TimestampSign),
        _ => None,
    }
}
