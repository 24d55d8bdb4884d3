//! Positions of readings, and the positions of their days.
ghost use Rattle.std.specs.Prelude.{◌≡◌, map};
ghost use Rattle.std.specs.List.{list_any};
ghost use Rattle.cal_schedule.specs.Rule.{allows, is_nth};
ghost use Rattle.cal_recurrence.specs.TimeSearch.{day_position};

use cal_schedule::Values;

/// Returns `true` if an item with these numbers from the start and from the end, both from 1, is
/// the n-th. A negative n counts from the end.
fn is_nth(n: i16, ahead: u64, back: u64) -> bool
    ensures { result ≡ is_nth n ahead back }
{
    if n < 0 {
        back == u64::from(n.unsigned_abs())
    } else {
        ahead == u64::from(n.unsigned_abs())
    }
}

/// Returns `true` if one of the positions is the number of an item from the start, or its number
/// from the end.
fn any_position(positions: &[i16], ahead: u64, back: u64) -> bool
    ensures { result ≡ list_any (λ k. is_nth k ahead back) positions.now }
{
    positions.iter().any(|k| is_nth(*k, ahead, back))
}

/// Returns `true` if there are no positions or an item has one of them, by its numbers from the
/// start and from the end.
pub(crate) fn allows_position(positions: &Values<i16>, ahead: u64, back: u64) -> bool
    ensures { result ≡ allows (λ k. is_nth k ahead back) positions.now }
{
    positions.is_empty() || any_position(positions.as_slice(), ahead, back)
}

/// Returns the position of the day of the reading at a position, if each day has `per_day` of them.
fn day_position(per_day: u32, position: i16) -> i16
    ensures { result ≡ day_position per_day position }
{
    let size = u64::from(per_day.max(1));
    if position < 0 {
        -(((u64::from(position.unsigned_abs()) - 1) / size) as i16) - 1
    } else if position == 0 {
        0
    } else {
        ((u64::from(position.unsigned_abs()) - 1) / size) as i16 + 1
    }
}

/// Returns the positions of the days of the readings at these positions.
pub(crate) fn day_positions(per_day: u32, positions: &Values<i16>) -> Values<i16>
    ensures { result ≡ map (day_position per_day) positions.now }
{
    let mut days = Values::none(0);
    let items = positions.as_slice();
    for position in items {
        days.push(day_position(per_day, *position));
    }
    days
}
