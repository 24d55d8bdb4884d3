//! The texts that a format prints with the names of a table.
ghost use Rattle.std.specs.Prelude.{◌≡◌, ◌+◌, ◌≤◌, length};
ghost use Rattle.cal_format.specs.Printing.{Writes};
ghost use Rattle.cal_named_format.specs.Named.{item_text_in, text_in};

use crate::scanning::{first_number, table_of};
use cal_format::{Item, Moment, print_items};
use cal_names::Names;

/// Writes what the items print of a value to the buffer, from this position on, with these names in
/// place of the English names. Returns the end. Returns `None` if the buffer is too short, and then
/// leaves only the bytes before the position as they are.
///
/// The items of `%-d %B` write `29 février` for 2024-02-29 with the names of French.
pub fn print(
    items: &[Item],
    names: &Names,
    moment: &Moment,
    buffer: &mut [u8],
    at: usize,
) -> Option<usize>
    requires { at ≤ length buffer.old }
    ensures { Writes (text_in names.now items.now moment.now) at buffer.old buffer.new result }
{
    match items {
        [] => Some(at),
        [item, others @ ..] => {
            let next = print_item(*item, names, moment, buffer, at)?;
            print(others, names, moment, buffer, next)
        }
    }
}

fn print_item(
    item: Item,
    names: &Names,
    moment: &Moment,
    buffer: &mut [u8],
    at: usize,
) -> Option<usize>
    requires { at ≤ length buffer.old }
    ensures { Writes (item_text_in names.now moment.now item) at buffer.old buffer.new result }
{
    match item {
        Item::Name(name) => {
            let index = name.number(moment) - first_number(name);
            let text = table_of(names, name)[usize::from(index)];
            put(buffer, at, text.as_bytes())
        }
        _ => print_items(&[item], moment, b"", buffer, at),
    }
}

/// Writes bytes to the buffer, from this position on.
fn put(buffer: &mut [u8], at: usize, bytes: &[u8]) -> Option<usize>
    requires { at ≤ length buffer.old }
    ensures { Writes bytes.now at buffer.old buffer.new result }
{
    if bytes.len() > buffer.len() - at {
        return None;
    }
    let end = at + bytes.len();
    buffer[at..end].copy_from_slice(bytes);
    Some(end)
}
