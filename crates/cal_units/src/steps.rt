//! Steps along a cycle, and tests of all its values.
ghost use Rattle.std.specs.Prelude.{true, false};
ghost use Rattle.cal_units.specs.CycleSteps.{ShortCircuits, IsAhead, IsBehind};

use crate::cycle::Cycle;

/// Returns the value `n` places after `start` on the cycle. `nth_in(Month::November, 3)` is
/// February, and `nth_in(Weekday::Monday, 7)` is Monday.
pub fn nth_in<C: Cycle>(start: C, n: usize) -> C
    ensures { IsAhead C.Cycle n start result }
{
    let length = C::LENGTH as usize;
    let place = (start.place() as usize + n % length) % length;
    C::at(place as u8)
}

/// Returns the value `n` places before `start` on the cycle. 3 places before February is November.
pub(crate) fn nth_back_in<C: Cycle>(start: C, n: usize) -> C
    ensures { IsBehind C.Cycle n start result }
{
    let length = C::LENGTH as usize;
    let place = (start.place() as usize + (length - n % length)) % length;
    C::at(place as u8)
}

/// Returns `true` if `f` returns `true` for every value. Calls `f` for the values in the order of
/// their indexes, until it returns `false`.
pub(crate) fn all_in<C: Cycle, F: FnMut(C) -> bool>(mut f: F) -> bool
    requires { F.IsAlwaysCallable f }
    ensures { ShortCircuits C.Cycle F.step true 0 f result }
{
    for index in 0..C::LENGTH {
        if !f(C::at(index)) {
            return false;
        }
    }
    true
}

/// Returns `true` if `f` returns `true` for some value. Calls `f` for the values in the order of
/// their indexes, until it returns `true`.
pub(crate) fn any_in<C: Cycle, F: FnMut(C) -> bool>(mut f: F) -> bool
    requires { F.IsAlwaysCallable f }
    ensures { ShortCircuits C.Cycle F.step false 0 f result }
{
    for index in 0..C::LENGTH {
        if f(C::at(index)) {
            return true;
        }
    }
    false
}
