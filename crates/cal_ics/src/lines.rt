//! The lines of a calendar.
ghost use Rattle.std.specs.Prelude.{◌≡◌, ◌^◌, ◌<◌, ◌≤◌, ◌+◌};
ghost use Rattle.cal_ics.specs.Events.{begins, begins_event, depth_after, ends, ends_event, is_last};

use cal_recurrence::{cut, is_alike};

/// Returns `true` if the line begins a component.
fn begins(line: &[u8]) -> bool
    ensures { result ≡ begins line.now }
{
    is_alike(cut(line, b':').0, b"BEGIN")
}

/// Returns `true` if the line ends a component.
fn ends(line: &[u8]) -> bool
    ensures { result ≡ ends line.now }
{
    is_alike(cut(line, b':').0, b"END")
}

/// Returns `true` if the line begins an event.
pub(crate) fn begins_event(line: &[u8]) -> bool
    ensures { result ≡ begins_event line.now }
{
    is_alike(line, b"BEGIN:VEVENT")
}

/// Returns `true` if the line ends an event.
pub(crate) fn ends_event(line: &[u8]) -> bool
    ensures { result ≡ ends_event line.now }
{
    is_alike(line, b"END:VEVENT")
}

/// Returns `true` if the line ends the last of the open components.
pub(crate) fn is_last(depth: usize, line: &[u8]) -> bool
    ensures { result ≡ is_last depth line.now }
{
    depth == 1 && ends(line)
}

/// Returns the number of open components after a line.
pub(crate) fn depth_after(depth: usize, line: &[u8]) -> usize
    requires { depth < 2 ^ 63 + 2 }
    ensures value { result ≡ depth_after depth line.now }
    ensures max { result ≤ depth + 1 }
{
    if begins(line) {
        depth + 1
    } else if ends(line) {
        depth.saturating_sub(1)
    } else {
        depth
    }
}
