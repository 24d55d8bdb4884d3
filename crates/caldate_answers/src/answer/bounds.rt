//! The bounds of `keep`.
ghost use Rattle.std.specs.Prelude.{◌≡◌, is_some};
ghost use Rattle.caldate_answers.specs.Bounds.{are_dates, is_after, is_before, is_within, lies_in};

use crate::answer::{is_date, moment_of};
use crate::request::Bounds;
use cal_text::DateOrMoment;

/// Returns whether a date or moment lies within the bounds, or `None` for a date if a bound is a
/// moment. For example, `2024-02-29T23:30:00-05:00` is not after 2024-02-29, although at UTC it is
/// 1 March.
#[inline(always)]
pub fn lies_in(bounds: &Bounds, found: &DateOrMoment) -> Option<bool>
    ensures { result ≡ lies_in bounds.now found.now }
{
    if is_date(found) && !are_dates(bounds) {
        return None;
    }
    Some(is_within(bounds, found))
}

/// Returns whether a date or moment can be compared with the bounds. A date can't if a bound is a
/// moment.
pub fn is_comparable(bounds: &Bounds, found: &DateOrMoment) -> bool
    ensures { result ≡ is_some (lies_in bounds.now found.now) }
{
    !is_date(found) || are_dates(bounds)
}

fn are_dates(bounds: &Bounds) -> bool
    ensures { result ≡ are_dates bounds.now }
{
    match bounds {
        Bounds::FromTo(first, last) => is_date(first) && is_date(last),
        Bounds::After(bound) => is_date(bound),
        Bounds::Before(bound) => is_date(bound),
    }
}

#[inline(always)]
fn is_within(bounds: &Bounds, found: &DateOrMoment) -> bool
    ensures { result ≡ is_within bounds.now found.now }
{
    match bounds {
        Bounds::FromTo(first, last) => !is_before(found, first) && !is_after(found, last),
        Bounds::After(bound) => is_after(found, bound),
        Bounds::Before(bound) => is_before(found, bound),
    }
}

/// Returns whether the local date of `found` is before a date bound, or its instant before a moment
/// bound.
#[inline(always)]
fn is_before(found: &DateOrMoment, bound: &DateOrMoment) -> bool
    ensures { result ≡ is_before found.now bound.now }
{
    match bound {
        DateOrMoment::Date(_, date) => moment_of(found).date() < *date,
        DateOrMoment::Moment(_, moment) => moment_of(found) < *moment,
    }
}

/// Returns whether the local date of `found` is after a date bound, or its instant after a moment
/// bound.
#[inline(always)]
fn is_after(found: &DateOrMoment, bound: &DateOrMoment) -> bool
    ensures { result ≡ is_after found.now bound.now }
{
    match bound {
        DateOrMoment::Date(_, date) => *date < moment_of(found).date(),
        DateOrMoment::Moment(_, moment) => *moment < moment_of(found),
    }
}
