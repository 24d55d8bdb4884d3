//! The holidays of rules from one date through another.
ghost use Rattle.std.specs.Prelude.{◌≡◌, ◌↔◌, ◌⊎◌, ◌≤◌, ℕ, Contains, IfNone, IfSome, IsNone, IsTrue, length, take};
ghost use Rattle.cal_time.specs.Counted.{IsRising};
ghost use Rattle.cal_time.specs.Date.{julian_day_at};
ghost use Rattle.cal_holidays.specs.Holidays.{AreHolidays, AreMore, IsHoliday};
ghost use Rattle.cal_holidays.specs.HolidaySearch.{IsHolidayBy, IsHolidayIn, year_of_number};

use crate::day_list::add_date;
use crate::holiday_rule::{HolidayRule, year_of_number};
use cal_time::Date;

/// Returns `true` if a date is from one date through another.
fn is_within(date: Date, first: Date, last: Date) -> bool
    ensures { IsTrue result ↔ (first ≤ date) × (date ≤ last) }
{
    first <= date && date <= last
}

/// Adds the holiday of a rule for a year, by its number, to the dates at the front of the buffer, if
/// it is from one date through another. Returns how many dates the buffer then has, or `None` if it
/// has no room.
fn add_holiday(
    rule: HolidayRule,
    year: u32,
    first: Date,
    last: Date,
    days: &mut [Date],
    count: usize,
) -> Option<usize>
    requires year { year ≤ 2_000_200 }
    requires most { count ≤ length days.old }
    requires rising { IsRising julian_day_at (take count days.old) }
    ensures most { IfSome result (λ more. more ≤ length days.new) }
    ensures rising { IfSome result (λ more. IsRising julian_day_at (take more days.new)) }
    ensures days { IfSome result (λ more. (n : ℕ) → Contains (take more days.new) n
        ↔ IsHolidayIn rule first last (year_of_number year) n ⊎ Contains (take count days.old) n) }
    ensures full { IfNone result (AreMore
        (λ n. IsHolidayIn rule first last (year_of_number year) n
        ⊎ Contains (take count days.old) n)
        (length days.old)) }
{
    match rule.holiday_for(year_of_number(year)) {
        Some(date) if is_within(date, first, last) => add_date(days, count, date),
        _ => Some(count),
    }
}

/// Adds the holidays of a rule from one date through another to the first `count` dates of the
/// buffer, which are in ascending order. Returns how many dates the buffer then has at its front, in
/// ascending order and each once, or `None` if it has no room for them.
///
/// With 2024-12-25 at the front, the rule of 26 December and the dates of 2024, the result is 2.
pub fn add_rule(
    rule: HolidayRule,
    first: Date,
    last: Date,
    days: &mut [Date],
    count: usize,
) -> Option<usize>
    requires most { count ≤ length days.old }
    requires rising { IsRising julian_day_at (take count days.old) }
    ensures most { IfSome result (λ more. more ≤ length days.new) }
    ensures rising { IfSome result (λ more. IsRising julian_day_at (take more days.new)) }
    ensures days { IfSome result (λ more. (n : ℕ) → Contains (take more days.new) n
        ↔ IsHolidayBy rule first last n ⊎ Contains (take count days.old) n) }
    ensures full { IfNone result (AreMore
        (λ n. IsHolidayBy rule first last n ⊎ Contains (take count days.old) n)
        (length days.old)) }
{
    let (low, high) = rule.years_between(first, last);
    let mut filled = count;
    for year in low..high {
        match add_holiday(rule, year, first, last, days, filled) {
            Some(more) => filled = more,
            None => return None,
        }
    }
    Some(filled)
}

/// Adds the holidays of rules to an empty buffer. Returns how many dates the buffer then has at its
/// front, or `None` if it has no room.
fn add_rules(rules: &[HolidayRule], first: Date, last: Date, days: &mut [Date]) -> Option<usize>
    ensures most { IfSome result (λ count. count ≤ length days.new) }
    ensures value { IfSome result (λ count.
        AreHolidays rules.now first last (take count days.new)) }
    ensures full { IfNone result (AreMore (IsHoliday rules.now first last) (length days.old)) }
{
    let mut count = 0;
    for rule in rules {
        match add_rule(*rule, first, last, days, count) {
            Some(more) => count = more,
            None => return None,
        }
    }
    Some(count)
}

/// Returns the holidays of rules from one date through another, in ascending order and each once,
/// written to the front of the buffer. Returns `None` if the buffer has fewer places than there are
/// holidays.
///
/// With New Year, moved from Saturday to Friday, the holidays of 2021 are 2021-01-01 and
/// 2021-12-31.
pub fn holidays_between<'a>(
    rules: &[HolidayRule],
    first: Date,
    last: Date,
    days: &'a mut [Date],
) -> Option<&'a [Date]>
    ensures value { IfSome result (λ days. AreHolidays rules.now first last days.now) }
    ensures full { IsNone result ↔ AreMore (IsHoliday rules.now first last) (length days.old) }
{
    match add_rules(rules, first, last, days) {
        Some(count) => Some(&days[..count]),
        None => None,
    }
}
