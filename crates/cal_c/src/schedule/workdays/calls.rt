//! Calls that take checked working days, or a view of them.
ghost use Rattle.std.specs.Prelude.{◌≡◌, Bool, MatchOption, pos, if◌then◌else◌};
ghost use Rattle.cal_schedule.specs.declared.workdays.convention.Convention.{Convention};
ghost use Rattle.cal_schedule.specs.Workdays.{is_workday};
ghost use Rattle.cal_schedule.specs.WorkdaysConvention.{adjusted_date};
ghost use Rattle.cal_c.specs.CheckedWorkdays.{week_of, AreCounted, IsAdjusted, IsAnyAdjusted, IsAnyBit, IsBit, IsDateLater, IsDateLaterInView, IsDateOrInvalid, IsDateWorkdaysLater, IsForView, IsForWeek, IsNumberBetween, IsNumberBetweenInView, IsNumberOrInvalid, IsWorkdaysBetween};
ghost use Rattle.cal_c.specs.Results.{date_error, number_error};
ghost use Rattle.cal_c.specs.Weekmasks.{convention_number, IsConvention};

use crate::day_number::{date_result, day_number};
use crate::results::{DateResult, NumberResult};
use crate::schedule::workdays::checked_workdays::CheckedWorkdays;
use crate::schedule::workdays::ranks::RankedWorkdays;
use crate::schedule::workdays::workdays_view::WorkdaysView;
use crate::status::{INVALID_CONVENTION, INVALID_DATE};
use cal_schedule::Convention;

fn contains(workdays: &RankedWorkdays<'_>, date: i32) -> NumberResult
    ensures any { IsAnyBit date result }
    ensures value { AreCounted workdays.now → IsBit date result (week_of workdays.now) }
{
    let day = or_error!(NumberResult, day_number(date), INVALID_DATE);
    NumberResult::ok(i32::from(workdays.contains(day)))
}

fn add(workdays: &RankedWorkdays<'_>, date: i32, days: i32) -> DateResult
    ensures any { IsDateOrInvalid date result }
    ensures value { AreCounted workdays.now → IsDateLater date days result (week_of workdays.now) }
{
    let day = or_error!(DateResult, day_number(date), INVALID_DATE);
    date_result(workdays.add(day, days))
}

fn between(workdays: &RankedWorkdays<'_>, date: i32, other: i32) -> NumberResult
    ensures any { IsNumberOrInvalid date other result }
    ensures value { AreCounted workdays.now
        → IsNumberBetween date other result (week_of workdays.now) }
{
    let day = or_error!(NumberResult, day_number(date), INVALID_DATE);
    let other = or_error!(NumberResult, day_number(other), INVALID_DATE);
    NumberResult::ok(workdays.between(day, other))
}

/// Returns the convention with a number, from 0 for `Unadjusted`, or `None`.
fn valid_convention(number: u32) -> Option<Convention>
    ensures { MatchOption result (¬ IsConvention number)
        (λ found. IsConvention number × (convention_number found ≡ number)) }
{
    match number {
        0 => Some(Convention::Unadjusted),
        1 => Some(Convention::Following),
        2 => Some(Convention::ModifiedFollowing),
        3 => Some(Convention::Preceding),
        4 => Some(Convention::ModifiedPreceding),
        _ => None,
    }
}

fn adjust(workdays: &RankedWorkdays<'_>, date: i32, convention: u32) -> DateResult
    ensures any { IsAnyAdjusted date convention result }
    ensures value { AreCounted workdays.now
        → IsAdjusted date convention result (week_of workdays.now) }
{
    let day = or_error!(DateResult, day_number(date), INVALID_DATE);
    let convention = or_error!(DateResult, valid_convention(convention), INVALID_CONVENTION);
    date_result(workdays.adjust(day, convention))
}

/// Returns 1 if a date is a working day, else 0. For 2451604, a Tuesday, it is 1 with the marks 31
/// and without holidays.
#[unsafe(no_mangle)]
pub extern "C" fn fots_workdays_contains(workdays: &CheckedWorkdays, date: i32) -> NumberResult
    ensures { IsForWeek workdays.now (λ s. result ≡ number_error s) (IsAnyBit date result) (IsBit date result) }
{
    let workdays = or_return!(RankedWorkdays::new(workdays), status => NumberResult::error(status));
    contains(&workdays, date)
}

/// Adds working days, or subtracts them if the number is negative. 0 gives the date itself, or the
/// first working day after it. Fails if the range has no such day. Ten after 2451604 is 2451618
/// with the marks 31 and without holidays.
#[unsafe(no_mangle)]
pub extern "C" fn fots_workdays_add(workdays: &CheckedWorkdays, date: i32, days: i32) -> DateResult
    ensures { IsDateWorkdaysLater workdays.now date days result }
{
    let workdays = or_return!(RankedWorkdays::new(workdays), status => DateResult::error(status));
    add(&workdays, date, days)
}

/// Counts the working days from the earlier date on, without the later one. The number is negative
/// or 0 if `other` comes first. From 2451545, 2000-01-01, to 2451911, 2001-01-01, it is 260 with
/// the marks 31 and without holidays.
#[unsafe(no_mangle)]
pub extern "C" fn fots_workdays_between(
    workdays: &CheckedWorkdays,
    date: i32,
    other: i32,
) -> NumberResult
    ensures { IsWorkdaysBetween workdays.now date other result }
{
    let workdays = or_return!(RankedWorkdays::new(workdays), status => NumberResult::error(status));
    between(&workdays, date, other)
}

/// Moves a date by a convention: 0 is unadjusted, 1 following, 2 modified following, 3 preceding,
/// and 4 modified preceding. Fails if the range has no such day. 2451664, Saturday 2000-04-29,
/// moves to 2451666 by 1 and to 2451663 by 2, with the marks 31 and without holidays.
#[unsafe(no_mangle)]
pub extern "C" fn fots_workdays_adjust(
    workdays: &CheckedWorkdays,
    date: i32,
    convention: u32,
) -> DateResult
    ensures { IsForWeek workdays.now (λ s. result ≡ date_error s) (IsAnyAdjusted date convention result)
        (IsAdjusted date convention result) }
{
    let workdays = or_return!(RankedWorkdays::new(workdays), status => DateResult::error(status));
    adjust(&workdays, date, convention)
}

/// Returns 1 if a date is a working day of a view, else 0, like `fots_workdays_contains`.
#[unsafe(no_mangle)]
pub extern "C" fn fots_workdays_view_contains(view: &WorkdaysView<'_>, date: i32) -> NumberResult
    ensures { IsForView view.now (λ s. result ≡ number_error s) (IsAnyBit date result) (IsBit date result) }
{
    let workdays =
        or_return!(RankedWorkdays::from_view(view), status => NumberResult::error(status));
    contains(&workdays, date)
}

/// Adds working days of a view, like `fots_workdays_add`.
#[unsafe(no_mangle)]
pub extern "C" fn fots_workdays_view_add(
    view: &WorkdaysView<'_>,
    date: i32,
    days: i32,
) -> DateResult
    ensures { IsDateLaterInView view.now date days result }
{
    let workdays = or_return!(RankedWorkdays::from_view(view), status => DateResult::error(status));
    add(&workdays, date, days)
}

/// Counts the working days of a view, like `fots_workdays_between`.
#[unsafe(no_mangle)]
pub extern "C" fn fots_workdays_view_between(
    view: &WorkdaysView<'_>,
    date: i32,
    other: i32,
) -> NumberResult
    ensures { IsNumberBetweenInView view.now date other result }
{
    let workdays =
        or_return!(RankedWorkdays::from_view(view), status => NumberResult::error(status));
    between(&workdays, date, other)
}

/// Moves a date by a convention to a working day of a view, like `fots_workdays_adjust`.
#[unsafe(no_mangle)]
pub extern "C" fn fots_workdays_view_adjust(
    view: &WorkdaysView<'_>,
    date: i32,
    convention: u32,
) -> DateResult
    ensures { IsForView view.now (λ s. result ≡ date_error s) (IsAnyAdjusted date convention result)
        (IsAdjusted date convention result) }
{
    let workdays = or_return!(RankedWorkdays::from_view(view), status => DateResult::error(status));
    adjust(&workdays, date, convention)
}
