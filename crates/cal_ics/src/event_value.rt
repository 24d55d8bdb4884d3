//! Values of the lines of an event.
ghost use Rattle.std.specs.Prelude.{◌≡◌, ◌&&◌, ◌==◌, option_map, slice_get};
ghost use Rattle.cal_ics.specs.EventSet.{has_name, values_named};
ghost use Rattle.cal_recurrence.specs.Words.{rest_outside};

use crate::lines::depth_after;
use cal_recurrence::{cut, cut_outside, is_alike, without_return};

/// Returns `true` if a line of the event itself has this name. `depth` components are open before
/// the line.
fn has_name(depth: usize, name: &[u8], line: &[u8]) -> bool
    ensures { result ≡ has_name depth name.now line.now }
{
    depth == 1 && is_alike(cut_outside(cut_outside(line, b':').0, b';').0, name)
}

/// Returns the value of a line.
fn value_on(line: &[u8]) -> &[u8]
    ensures { result.now ≡ rest_outside 58 line.now }
{
    cut_outside(line, b':').1.unwrap_or(b"".as_slice())
}

/// Returns the value of the first line of an event with this name, or `None` without such a line.
/// Lines of components in the event don't count. For `SUMMARY;LANGUAGE=en:Meeting`, the value of
/// `summary` is `Meeting`.
pub fn first_value<'a>(lines: &'a [u8], name: &[u8]) -> Option<&'a [u8]>
    ensures { option_map (λ value. value.now) result
        ≡ slice_get (values_named name.now lines.now) 0 }
{
    let (mut position, mut depth) = (0, 1);
    let mut rest = Some(lines);
    while let Some(left) = rest {
        let (line, more) = cut(left, b'\n');
        let text = without_return(line);
        if has_name(depth, name, text) {
            return Some(value_on(text));
        }
        depth = depth_after(depth, text);
        position += line.len() + 1;
        rest = more;
    }
    None
}
