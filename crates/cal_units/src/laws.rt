//! Properties that callers need and that no clause of a call states.
//!
//! Derives and discriminants have no clauses, so functions that clone and cast state their results.
ghost use Rattle.std.specs.Prelude.{◌≡◌, ℤ, pos, ◌+ℤ◌, Ok};
ghost use Rattle.cal_units.specs.Lengths.{days_in_year};
ghost use Rattle.cal_units.specs.Month.{number};
ghost use Rattle.cal_units.specs.Weekday.{index};
ghost use Rattle.cal_units.specs.Weeks.{first_weekday, weeks_in_year};

use crate::cycle::Cycle;
use crate::error::{ComponentRange, ConversionRange, InvalidVariant};
use crate::iter::CycleIter;
use crate::month::Month;
use crate::util::DateAdjustment;
use crate::weekday::Weekday;
use std::alloc::AllocError;

/// Clones the values. Each clone equals its original.
pub(crate) fn clones_of_units(
    month: Month,
    weekday: Weekday,
    adjustment: DateAdjustment,
) -> Result<(Month, Weekday, DateAdjustment), AllocError>
    ensures { result ≡ Ok (month, weekday, adjustment) }
{
    Ok((month.clone()?, weekday.clone()?, adjustment.clone()?))
}

/// Clones the errors. Each clone equals its original.
pub(crate) fn clones_of_errors(
    component: ComponentRange,
    conversion: ConversionRange,
    variant: InvalidVariant,
) -> Result<(ComponentRange, ConversionRange, InvalidVariant), AllocError>
    ensures { result ≡ Ok (component, conversion, variant) }
{
    Ok((component.clone()?, conversion.clone()?, variant.clone()?))
}

/// States that a year and the year 400 years later begin on the same weekday, and have the same
/// numbers of days and of weeks.
#[tactic(auto, using(crate::proofs::Weeks::periods))]
pub(crate) fn years_repeat()
    ensures weekday { (y : ℤ) → first_weekday (y +ℤ pos 400) ≡ first_weekday y }
    ensures days { (y : ℤ) → days_in_year (y +ℤ pos 400) ≡ days_in_year y }
    ensures weeks { (y : ℤ) → weeks_in_year (y +ℤ pos 400) ≡ weeks_in_year y }
{}

/// Returns the number of the month, from 1 for January to 12 for December.
pub(crate) fn month_as_number(month: Month) -> u8
    ensures { result ≡ number month }
{
    month as u8
}

/// Returns the number of days since Monday, from 0 for Monday to 6 for Sunday.
pub(crate) fn weekday_as_number(weekday: Weekday) -> u8
    ensures { result ≡ index weekday }
{
    weekday as u8
}

/// Calls `all_once` and `any_once` in both directions. The caller knows only that `f` may always be
/// called, so the check rejects a stronger condition.
pub(crate) fn questions<C: Cycle, F: FnMut(C) -> bool + Copy>(start: C, f: F) -> [bool; 4]
    requires { F.IsAlwaysCallable f }
{
    let mut walk = CycleIter::new(start);
    let (all, any) = (walk.all_once(f), walk.any_once(f));
    let mut back = walk.rev();
    [all, any, back.all_once(f), back.any_once(f)]
}
