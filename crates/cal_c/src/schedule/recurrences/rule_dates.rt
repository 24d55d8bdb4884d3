//! The other dates of a rule, and its exceptions.
ghost use Rattle.std.specs.Prelude.{◌≡◌, ◌≤◌, [], All, Decides, IfErr, IfOk, length, unwrap_or};
ghost use Rattle.cal_c.specs.Recurrences.{rule_in, AreListedDates, IsSet, IsSetStatus};
ghost use Rattle.cal_c.specs.Values.{IsJulianDay, dates_in, max_dates};

use super::rule_from_parts::rule_from_parts;
use super::rule_parts::RuleParts;
use crate::schedule::date_list::{DateList, MAX_DATES};
use crate::status::{INVALID_DATE, TOO_MANY_DATES};
use crate::values::valid_date;
use cal_recurrence::RecurrenceSet;
use cal_schedule::Rule;
use cal_time::Date;

/// The lists of dates of a rule. One without dates is `None`, which fills no array.
#[derive(Drop)]
pub(super) struct RuleDates {
    dates: Option<DateList<Date>>,
    exceptions: Option<DateList<Date>>,
}

/// Returns `true` if all Julian days are valid.
fn are_dates(julian_days: &[i32]) -> bool
    ensures { Decides result (All IsJulianDay julian_days.now) }
{
    for index in 0..julian_days.len() {
        or_return!(valid_date(julian_days[index]), false);
    }
    true
}

/// Checks the parts and the lists and converts the rule, or returns the status of the first invalid
/// one.
pub(super) fn checked_rule(parts: &RuleParts<'_>) -> Result<Rule, i32>
    ensures error { IfErr result (λ status.
        (¬ IsSet parts.now) × IsSetStatus parts.now status) }
    ensures value { IfOk result (λ rule. IsSet parts.now × (rule ≡ rule_in parts.now)) }
{
    let rule = or_return!(rule_from_parts(parts), status => Err(status));
    if parts.dates.len() > MAX_DATES || parts.exceptions.len() > MAX_DATES {
        return Err(TOO_MANY_DATES);
    }
    if are_dates(parts.dates) && are_dates(parts.exceptions) {
        return Ok(rule);
    }
    Err(INVALID_DATE)
}

/// Converts valid dates, if there are any.
fn list_of(julian_days: &[i32]) -> Option<DateList<Date>>
    requires few { length julian_days.now ≤ max_dates }
    requires dates { All IsJulianDay julian_days.now }
    ensures { unwrap_or result [] ≡ dates_in julian_days.now }
{
    if julian_days.is_empty() {
        return None;
    }
    DateList::from_julian_days(julian_days)
}

/// Returns the dates of a list.
fn as_slice(list: &Option<DateList<Date>>) -> &[Date]
    ensures { result.now ≡ unwrap_or list.now [] }
{
    match list {
        Some(list) => list.as_slice(),
        None => &[],
    }
}

impl RuleDates {
    /// Converts the lists of a rule that `checked_rule` has checked.
    pub(super) fn from_parts(parts: &RuleParts<'_>) -> Self
        requires { IsSet parts.now }
        ensures dates { unwrap_or result.dates [] ≡ dates_in parts.now.dates.now }
        ensures exceptions { unwrap_or result.exceptions [] ≡ dates_in parts.now.exceptions.now }
    {
        RuleDates {
            dates: list_of(parts.dates),
            exceptions: list_of(parts.exceptions),
        }
    }

    /// Returns the set of a rule with these lists.
    pub(super) fn set(&self, rule: Rule) -> RecurrenceSet<'_>
        ensures rule { result.rule ≡ rule }
        ensures dates { result.dates.now ≡ unwrap_or self.now.dates [] }
        ensures exceptions { result.exceptions.now ≡ unwrap_or self.now.exceptions [] }
    {
        RecurrenceSet {
            rule,
            dates: as_slice(&self.dates),
            exceptions: as_slice(&self.exceptions),
        }
    }
}
