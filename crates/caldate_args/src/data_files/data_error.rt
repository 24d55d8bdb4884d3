//! Why a word names no zone, no holidays and no events, or is an ambiguous format.
ghost use Rattle.std.specs.Prelude.{◌+◌, ◌≤◌, length};

use crate::events::read_events_error::{ReadEventsError, push_events_error};
use crate::files::named_files::push_file_name;
use crate::holidays::read_holidays_error::{ReadHolidaysError, push_holidays_error};
use crate::zones::read_zone_error::{ReadZoneError, push_zone_error};
use caldate_lines::output::buffer::Buffer;

/// The maximum length of the folder and of the name to show. An argument isn't longer.
const MAX_SHOWN: usize = 4096;

/// A reason why a word names no zone, no holidays or no events, or is a format with an ambiguous
/// string.
#[derive(Clone, Copy)]
pub enum DataError<'a> {
    /// The word isn't the name of a zone.
    Name,
    /// The variable `TZDIR`, which names the folder of the zones, has more than 1024 bytes.
    Variable,
    /// The file with this name in this folder is not a zone.
    Zone(&'a [u8], &'a [u8], ReadZoneError),
    /// The file has no holidays.
    Holidays(ReadHolidaysError),
    /// The file has no list of events.
    Events(ReadEventsError),
    /// The first name can go on to the other one, or is the same.
    Names(&'a str, &'a str),
    /// A number can go on with this byte.
    Number(u8),
}

/// Appends the reason to a message: `; expected one such as Europe/Berlin`, or
/// `: /usr/share/zoneinfo/Europe/Berln: not found`.
pub fn push_data_error(line: &mut Buffer, error: DataError<'_>)
    requires { length line.old ≤ 600 }
    ensures short { length line.new ≤ 9_000 }
{
    match error {
        DataError::Name => line.push(b"; expected one such as Europe/Berlin"),
        DataError::Variable => line.push(b": TZDIR: too long"),
        DataError::Zone(folder, name, error) => {
            line.push(b": ");
            push_shown(line, folder);
            line.push(b"/");
            push_shown(line, name);
            line.push(b": ");
            push_zone_error(line, error);
        }
        DataError::Holidays(error) => {
            line.push(b": ");
            push_holidays_error(line, error);
        }
        DataError::Events(error) => {
            line.push(b": ");
            push_events_error(line, error);
        }
        DataError::Names(name, other) => push_names(line, name.as_bytes(), other.as_bytes()),
        DataError::Number(byte) => {
            line.push(b": a number can go on with '");
            line.push(&[byte]);
            line.push(b"'");
        }
    }
}

/// Appends two names of which one can go on to the other: `: 'Pazar' can go on to 'Pazartesi'`.
fn push_names(line: &mut Buffer, name: &[u8], other: &[u8])
    requires { length line.old ≤ 600 }
    ensures short { length line.new ≤ 9_000 }
{
    if name == other {
        line.push(b": two names are '");
        push_shown(line, name);
    } else {
        line.push(b": '");
        push_shown(line, name);
        line.push(b"' can go on to '");
        push_shown(line, other);
    }
    line.push(b"'");
}

/// Appends the folder or the name.
fn push_shown(line: &mut Buffer, text: &[u8])
    requires { length line.old ≤ 5_000 }
    ensures short { length line.new ≤ length line.old + 4_096 }
{
    push_file_name(line, &text[..text.len().min(MAX_SHOWN)]);
}
