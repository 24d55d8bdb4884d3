//! Holidays by rules.
ghost use Rattle.std.specs.Prelude.{◌≡◌, ◌↔◌, ℕ, ◌∷◌, [], true, false, Contains, IfSome, IsNone, length};
ghost use Rattle.cal_holidays.specs.Holidays.{AreMore, IsHoliday, IsHolidayFor};

use cal_holidays::{HolidayDay, HolidayRule, workdays_from_rules};
use cal_schedule::Workdays;
use cal_time::{Date, Month};
use std::io;

/// New Year, moved from Saturday to Friday and from Sunday to Monday.
const NEW_YEAR: HolidayRule = HolidayRule {
    day: HolidayDay::Fixed(Month::January, 1),
    first_year: 1971,
    last_year: 9999,
    moves: [0, 0, 0, 0, 0, -1, 1],
};

/// Returns the working days from Monday to Friday with the holidays of rules from one date through
/// another, or `None` if the buffer has no room for them.
fn office<'a>(
    rules: &[HolidayRule],
    first: Date,
    last: Date,
    days: &'a mut [Date],
) -> Option<Workdays<'a>>
    ensures marks { IfSome result (λ week.
        week.marks ≡ true ∷ true ∷ true ∷ true ∷ true ∷ false ∷ false ∷ []) }
    ensures holidays { IfSome result (λ week. (n : ℕ) → Contains week.holidays n
        ↔ IsHoliday rules.now first last n) }
    ensures none { IsNone result ↔ AreMore (IsHoliday rules.now first last) (length days.old) }
{
    let marks = [true, true, true, true, true, false, false];
    workdays_from_rules(marks, rules, first, last, days)
}

/// Returns the holidays for two years, or `None` unless both years have one.
fn both(rule: HolidayRule, year: i32, other: i32) -> Option<(Date, Date)>
    ensures first { IfSome result (λ days. IsHolidayFor rule year days.0) }
    ensures second { IfSome result (λ days. IsHolidayFor rule other days.1) }
{
    let first = rule.holiday_for(year)?;
    let second = rule.holiday_for(other)?;
    Some((first, second))
}

pub fn show(rt: &impl Print) -> io::Result<()> {
    let (Ok(first), Ok(last)) = (
        Date::from_calendar_date(2021, Month::January, 1),
        Date::from_calendar_date(2021, Month::December, 31),
    ) else {
        return Ok(());
    };
    let mut days = [Date::MIN; 2];
    if let Some(workdays) = office(&[NEW_YEAR], first, last, &mut days) {
        println!(rt;
            "{} {:?}",
            workdays.is_workday(last),
            workdays.next_workday(first)
        )?;
    }
    println!(rt; "{:?}", both(NEW_YEAR, 2021, 2022))
}
