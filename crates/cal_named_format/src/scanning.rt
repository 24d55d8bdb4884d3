//! The name at the front of a text, and its first wrong byte.
ghost use Rattle.std.specs.Prelude.{◌≡◌, ◌<◌, ◌≤◌, ◌++◌, length, IfSome};
ghost use Rattle.cal_text.specs.Shape.{Scans};
ghost use Rattle.cal_format.specs.declared.item.Name.{Name as Kind};
ghost use Rattle.cal_format.specs.Form.{IsNameNumber};
ghost use Rattle.cal_names.specs.Apart.{texts, text_at};
ghost use Rattle.cal_names.specs.NameShape.{TableShape};
ghost use Rattle.cal_named_format.specs.Named.{count_of, first_number, name_in, table_of};

use cal_format::Name;
use cal_names::{Names, table};
use cal_text::Scanner;

/// Returns the table of a kind of name. The table of `Name::Weekday` in Turkish begins with `Pazartesi`.
pub fn table_of<'t, 'n>(names: &'t Names<'n>, name: Name) -> &'t [&'n str]
    ensures table { texts result.now ≡ table_of names.now name }
    ensures count { length result.now ≡ count_of name }
{
    match name {
        Name::Month => &names.months,
        Name::MonthAlone => &names.months_alone,
        Name::ShortMonth => &names.short_months,
        Name::Weekday => &names.weekdays,
        Name::ShortWeekday => &names.short_weekdays,
        Name::Period => &names.periods,
        Name::LowerPeriod => &names.lower_periods,
    }
}

/// States that each table has its number of names, such as 7 for `Name::Weekday`.
pub fn table_counts(names: &Names)
    ensures { (k : Kind) → length (table_of names.now k) ≡ count_of k }
{
    table_of(names, Name::Month);
    table_of(names, Name::MonthAlone);
    table_of(names, Name::ShortMonth);
    table_of(names, Name::Weekday);
    table_of(names, Name::ShortWeekday);
    table_of(names, Name::Period);
    table_of(names, Name::LowerPeriod);
}

/// Returns the number of the first name of a table.
pub(crate) fn first_number(name: Name) -> u8
    ensures { result ≡ first_number name }
{
    match name {
        Name::Period => 0,
        Name::LowerPeriod => 0,
        _ => 1,
    }
}

/// Parses the longest name at the front of a text, and returns its number.
pub(crate) fn scan_name(names: &Names, name: Name, scanner: &mut Scanner) -> Option<u64>
    ensures scans { Scans (TableShape (table_of names.now name)) scanner.old.rest.now scanner.new.rest.now result }
    ensures value { IfSome result (λ n.
        scanner.old.rest.now ≡ name_in names.now name n ++ scanner.new.rest.now) }
    ensures range { IfSome result (IsNameNumber name) }
{
    let index = table::scan(table_of(names, name), scanner)?;
    Some(index as u64 + u64::from(first_number(name)))
}
