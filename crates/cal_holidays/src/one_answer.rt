//! Each contract allows only one result: two calls return the same.
//!
//! A proof knows only the clauses, so a second result would leave the line of its call open.
ghost use Rattle.std.specs.Prelude.{◌≡◌, length, option_map};

use crate::{HolidayDay, HolidayRule};
use cal_schedule::Workdays;
use cal_time::Date;
use cal_time::error::ComponentRange;

/// The results of two calls.
type Twice<T> = (T, T);

fn easter(year: i32) -> Twice<Result<Date, ComponentRange>>
    ensures { result.0 ≡ result.1 }
{
    (crate::easter(year), crate::easter(year))
}

fn julian_easter(year: i32) -> Twice<Result<Date, ComponentRange>>
    ensures { result.0 ≡ result.1 }
{
    (crate::julian_easter(year), crate::julian_easter(year))
}

fn day_of(day: HolidayDay, year: i32) -> Twice<Option<Date>>
    ensures { result.0 ≡ result.1 }
{
    (day.day_of(year), day.day_of(year))
}

fn holiday_for(rule: HolidayRule, year: i32) -> Twice<Option<Date>>
    ensures { result.0 ≡ result.1 }
{
    (rule.holiday_for(year), rule.holiday_for(year))
}

/// The dates of two lists, or `None` twice.
fn holidays_between<'a>(
    rules: &[HolidayRule],
    first: Date,
    last: Date,
    days: &'a mut [Date],
    others: &'a mut [Date],
) -> Twice<Option<&'a [Date]>>
    requires { length days.old ≡ length others.old }
    ensures { option_map (λ r. r.now) result.0 ≡ option_map (λ r. r.now) result.1 }
{
    (
        crate::holidays_between(rules, first, last, days),
        crate::holidays_between(rules, first, last, others),
    )
}

fn workdays_from_rules<'a>(
    marks: [bool; 7],
    rules: &[HolidayRule],
    first: Date,
    last: Date,
    days: &'a mut [Date],
    others: &'a mut [Date],
) -> Twice<Option<Workdays<'a>>>
    requires { length days.old ≡ length others.old }
    ensures { result.0 ≡ result.1 }
{
    (
        crate::workdays_from_rules(marks, rules, first, last, days),
        crate::workdays_from_rules(marks, rules, first, last, others),
    )
}
