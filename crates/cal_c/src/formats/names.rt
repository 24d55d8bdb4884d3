//! The numbers of names.
ghost use Rattle.std.specs.Prelude.{◌≡◌, Some, IfSome};
ghost use Rattle.cal_format.specs.declared.item.Name.{Name};
ghost use Rattle.cal_c.specs.Formats.{name_number};

use cal_format::Name;

pub(super) fn name_number(name: Name) -> u8
    ensures { result ≡ name_number name }
{
    match name {
        Name::Month => 0,
        Name::ShortMonth => 1,
        Name::Weekday => 2,
        Name::ShortWeekday => 3,
        Name::Period => 4,
        Name::LowerPeriod => 5,
        Name::MonthAlone => 6,
    }
}

/// Returns the name with a number, or `None`.
pub(super) fn name_with(number: u8) -> Option<Name>
    ensures every { (name : Name) → number ≡ name_number name → result ≡ Some name }
    ensures value { IfSome result (λ name. number ≡ name_number name) }
{
    match number {
        0 => Some(Name::Month),
        1 => Some(Name::ShortMonth),
        2 => Some(Name::Weekday),
        3 => Some(Name::ShortWeekday),
        4 => Some(Name::Period),
        5 => Some(Name::LowerPeriod),
        6 => Some(Name::MonthAlone),
        _ => None,
    }
}
