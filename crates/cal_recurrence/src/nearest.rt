//! The nearest value of a list after or before another value.
ghost use Rattle.std.specs.Prelude.{◌≡◌, ◌||◌, Bool};
ghost use Rattle.std.specs.List.{list_any};
ghost use Rattle.cal_recurrence.specs.Nearest.{is_past, IsNearest};

/// Returns `true` if a value is past another one: after it or, if not `forward`, before it.
fn is_past<T: Ord>(forward: bool, one: &T, other: &T) -> bool
    ensures { result ≡ is_past T.cmp forward one.now other.now }
{
    if forward { other < one } else { one < other }
}

/// Returns `one` if it is past a value and `found` isn't nearer, or else `found`.
fn nearer<T: Copy + Ord>(forward: bool, value: T, found: Option<T>, one: T) -> Option<T>
    ensures { (test : T → Bool) → IsNearest (is_past T.cmp forward) test value found
        → IsNearest (is_past T.cmp forward) (λ x. test x || T.PartialEq.eq one x) value result }
{
    if !is_past(forward, &one, &value) {
        return found;
    }
    match found {
        Some(other) if !is_past(forward, &other, &one) => found,
        _ => Some(one),
    }
}

/// Returns the nearest of `found` and the listed values past a value: the first one after it or, if
/// not `forward`, the last one before it. If there is a `found`, it is past the value.
pub(crate) fn nearest<T: Copy + Ord>(
    forward: bool,
    value: T,
    found: Option<T>,
    listed: &[T],
) -> Option<T>
    ensures { (test : T → Bool) → IsNearest (is_past T.cmp forward) test value found
        → IsNearest (is_past T.cmp forward)
        (λ x. test x || list_any (λ y. T.PartialEq.eq y x) listed.now) value result }
{
    let mut nearest = found;
    for one in listed {
        nearest = nearer(forward, value, nearest, *one);
    }
    nearest
}
