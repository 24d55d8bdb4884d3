//! Recurrence rules of RFC 5545.
//!
//! A rule is a struct of its parts, with other dates and exceptions. Each of its lists has at most
//! 62 values, or 1024 dates.
ghost use Rattle.std.specs.Prelude.{◌≡◌, pos, slice_get, if◌then◌else◌};
ghost use Rattle.cal_recurrence.specs.Sets.{is_in_set, set_days_after, set_days_before, set_days_from};
ghost use Rattle.cal_c.specs.Recurrences.{days_ok, days_error, AreDatesWritten, IsSet, IsSetStatus, set_in};
ghost use Rattle.cal_c.specs.Results.{date_or_out_of_range, date_error, number_ok, number_error};
ghost use Rattle.cal_c.specs.Values.{IsJulianDay, day_of};

mod cursor;
mod days;
mod formatting;
mod laws;
mod lists;
pub(super) mod moments;
mod months;
mod pages;
mod parsing;
pub(super) mod readings;
mod recurrence_parts;
pub(super) mod results;
mod rule_dates;
mod rule_from_parts;
mod rule_parts;
mod set_search;
mod text_set;
mod weekdays;

use crate::results::{DateResult, NumberResult};
use crate::schedule::results::DaysResult;
use crate::status::INVALID_DATE;
use crate::values::valid_date;
use cal_recurrence::{RecurrenceSet, RecurrenceSetDays};
use cal_time::Date;
use rule_dates::checked_rule;
use rule_parts::RuleParts;

/// Returns the first day of a rule. Fails if the range has none. For the last Friday of each month
/// from 2460311, 2024-01-01, it is 2460336, 2024-01-26.
#[unsafe(no_mangle)]
pub extern "C" fn fots_rule_first(rule: &RuleParts<'_>) -> DateResult
    ensures error { ¬ IsSet rule.now
        → IsSetStatus rule.now result.status × (result ≡ date_error result.status) }
    ensures value { IsSet rule.now
        → result ≡ date_or_out_of_range (slice_get (set_days_from (set_in rule.now) 0) 0) }
{
    let its = or_return!(checked_rule(rule), status => DateResult::error(status));
    DateResult::from_option(set_search::first(rule, its))
}

/// Returns the first day of a rule after a date. Fails if the range has none. For the last Friday
/// of each month after 2460336, 2024-01-26, it is 2460364, 2024-02-23.
#[unsafe(no_mangle)]
pub extern "C" fn fots_rule_next_after(rule: &RuleParts<'_>, date: i32) -> DateResult
    ensures error { ¬ IsSet rule.now
        → IsSetStatus rule.now result.status × (result ≡ date_error result.status) }
    ensures invalid_date { IsSet rule.now → ¬ IsJulianDay date → result ≡ date_error INVALID_DATE }
    ensures value { IsSet rule.now → IsJulianDay date
        → result ≡ date_or_out_of_range (slice_get (set_days_after (set_in rule.now) (day_of date)) 0) }
{
    let its = or_return!(checked_rule(rule), status => DateResult::error(status));
    let date = or_error!(DateResult, valid_date(date), INVALID_DATE);
    DateResult::from_option(set_search::next_after(rule, its, date))
}

/// Returns the last day of a rule before a date. Fails if the rule has no such day. For the last
/// Friday of each month from 2460311, 2024-01-01, on it is 2460336, 2024-01-26, before 2460364,
/// 2024-02-23.
#[unsafe(no_mangle)]
pub extern "C" fn fots_rule_previous_before(rule: &RuleParts<'_>, date: i32) -> DateResult
    ensures error { ¬ IsSet rule.now
        → IsSetStatus rule.now result.status × (result ≡ date_error result.status) }
    ensures invalid_date { IsSet rule.now → ¬ IsJulianDay date → result ≡ date_error INVALID_DATE }
    ensures value { IsSet rule.now → IsJulianDay date
        → result ≡ date_or_out_of_range (slice_get (set_days_before (set_in rule.now) (day_of date)) 0) }
{
    let its = or_return!(checked_rule(rule), status => DateResult::error(status));
    let date = or_error!(DateResult, valid_date(date), INVALID_DATE);
    DateResult::from_option(set_search::previous_before(rule, its, date))
}

/// Returns 1 if a date is a day of the rule, else 0. For the last Friday of each month and 2460336,
/// 2024-01-26, it is 1.
#[unsafe(no_mangle)]
pub extern "C" fn fots_rule_contains(rule: &RuleParts<'_>, date: i32) -> NumberResult
    ensures error { ¬ IsSet rule.now
        → IsSetStatus rule.now result.status × (result ≡ number_error result.status) }
    ensures invalid_date { IsSet rule.now → ¬ IsJulianDay date → result ≡ number_error INVALID_DATE }
    ensures value { IsSet rule.now → IsJulianDay date
        → result ≡ number_ok (if is_in_set (set_in rule.now) (day_of date) then pos 1 else pos 0) }
{
    let its = or_return!(checked_rule(rule), status => NumberResult::error(status));
    let date = or_error!(NumberResult, valid_date(date), INVALID_DATE);
    NumberResult::ok(i32::from(set_search::contains(rule, its, date)))
}

/// Writes the days of a rule after a date, in ascending order, as many as fit in the array, and
/// returns their number. The rest of the array stays as it is. For the last Friday of each month
/// after 2460336, 2024-01-26, the first two are 2460364 and 2460399.
#[unsafe(no_mangle)]
pub extern "C" fn fots_rule_days_after(
    rule: &RuleParts<'_>,
    date: i32,
    days: &mut [i32],
) -> DaysResult
    ensures error { ¬ IsSet rule.now
        → IsSetStatus rule.now result.status × (result ≡ days_error result.status)
        × (days.new ≡ days.old) }
    ensures invalid_date { IsSet rule.now → ¬ IsJulianDay date
        → (result ≡ days_error INVALID_DATE) × (days.new ≡ days.old) }
    ensures value { IsSet rule.now → IsJulianDay date
        → (result ≡ days_ok result.length)
        × AreDatesWritten (set_days_after (set_in rule.now) (day_of date)) days.old days.new result.length }
{
    let its = or_return!(checked_rule(rule), status => DaysResult::error(status));
    let date = or_error!(DaysResult, valid_date(date), INVALID_DATE);
    DaysResult::ok(set_search::write_days_after(rule, its, date, days))
}

/// Writes the days of a set after a date, as many as fit in the array, and returns their number.
fn write_days(set: &RecurrenceSet<'_>, date: Date, days: &mut [i32]) -> usize
    ensures { AreDatesWritten (set_days_after set.now date) days.old days.new result }
{
    write_walk(set.days_after(date), days)
}

/// Writes the days of an iterator, as many as fit in the array, and returns their number.
pub(super) fn write_walk(mut walk: RecurrenceSetDays<'_>, days: &mut [i32]) -> usize
    ensures { AreDatesWritten walk.entry days.old days.new result }
{
    for index in 0..days.len() {
        let Some(day) = walk.next() else {
            return index;
        };
        days[index] = day.to_julian_day();
    }
    days.len()
}
