//! Answers to the strings in a line.
ghost use Rattle.std.specs.Prelude.{◌≡◌, ◌+◌, ◌≤◌, [], OnErr, false, length, true};
ghost use Rattle.caldate_lines.specs.Room.{HasRoom, longest_reply, longest_text};
ghost use Rattle.caldate_answers.specs.Answers.{keeps};
ghost use Rattle.caldate_answers.specs.Appends.{AppendsAnswer};
ghost use Rattle.caldate_answers.specs.Scans.{HasNoText, IsReplaced, IsScanned, IsSelected};

use crate::answer::push_read;
use crate::request::Filter;
use crate::scan::{first_text, part_at};
use caldate_lines::lines::LONGEST_TEXT;
use caldate_lines::no_answer::NoAnswer;
use caldate_lines::on_invalid::OnInvalid;
use caldate_lines::output::buffer::Buffer;

/// Appends the line with the answers to its strings in their place, and returns whether it goes
/// out.
///
/// For `to week`, `due 2024-02-29.` becomes `due 2024-W09-4.`, and a line without a string stays.
/// For `keep`, the line itself is appended if its first string lies within the bounds. If a string
/// has no answer, this appends nothing and returns the reason, such as `Rejected` for `2023-02-29`.
/// Returns `TooLong` if the line becomes longer than 4096 bytes, and with `--invalid stop` `NoForm`
/// if it has no string.
#[inline(never)]
pub fn push_scanned(buffer: &mut Buffer, filter: &Filter<'_>, line: &[u8]) -> Result<bool, NoAnswer>
    requires room { HasRoom longest_reply buffer.old }
    requires fits { length line.now ≤ longest_text }
    ensures answered { AppendsAnswer (IsScanned filter.now line.now) result buffer.old buffer.new }
    ensures same { OnErr result (buffer.new ≡ buffer.old) }
    ensures short { length buffer.new ≤ length buffer.old + longest_text }
{
    if ends_at(filter, line) {
        return Err(NoAnswer::NoForm);
    }
    if filter.request.keeps() {
        push_selected(buffer, filter, line)
    } else {
        push_replaced(buffer, filter, line)
    }
}

/// Returns whether the run ends at the line because it has no string.
fn ends_at(filter: &Filter<'_>, line: &[u8]) -> bool
    ensures ends { result ≡ true
        → (filter.now.on_invalid ≡ OnInvalid.Stop) × HasNoText filter.now line.now 0 }
    ensures goes_on { result ≡ false → filter.now.on_invalid ≡ OnInvalid.Stop
        → ¬ HasNoText filter.now line.now 0 }
{
    match filter.on_invalid {
        OnInvalid::Stop => match first_text(filter, line, 0) {
            Some(_text) => false,
            None => true,
        },
        OnInvalid::Keep | OnInvalid::Answer | OnInvalid::Drop => false,
    }
}

/// Appends the line if its first string lies within the bounds of `keep`, and returns whether it
/// does.
fn push_selected(buffer: &mut Buffer, filter: &Filter<'_>, line: &[u8]) -> Result<bool, NoAnswer>
    requires room { HasRoom longest_reply buffer.old }
    requires fits { length line.now ≤ longest_text }
    ensures answered { AppendsAnswer (IsSelected filter.now line.now) result buffer.old buffer.new }
    ensures same { OnErr result (buffer.new ≡ buffer.old) }
    ensures short { length buffer.new ≤ length buffer.old + longest_text }
{
    let Some(text) = first_text(filter, line, 0) else {
        return Ok(false);
    };
    let start = buffer.len();
    let bytes = part_at(line, text.place, text.count);
    match push_read(buffer, filter, bytes, text.read) {
        Ok(true) => {
            buffer.truncate(start);
            buffer.push(line);
            Ok(true)
        }
        Ok(false) => Ok(false),
        Err(why) => Err(why),
    }
}

/// Appends the line with the answers to its strings in their place. Appends nothing if a string has
/// no answer, or if the line becomes too long.
fn push_replaced(buffer: &mut Buffer, filter: &Filter<'_>, line: &[u8]) -> Result<bool, NoAnswer>
    requires room { HasRoom longest_reply buffer.old }
    requires fits { length line.now ≤ longest_text }
    requires replaces { keeps filter.now.request ≡ false }
    ensures answered { AppendsAnswer (λ answer. IsReplaced filter.now line.now answer [] 0) result
        buffer.old buffer.new }
    ensures same { OnErr result (buffer.new ≡ buffer.old) }
    ensures short { length buffer.new ≤ length buffer.old + longest_text }
{
    let start = buffer.len();
    let mut from = 0;
    while let Some(text) = first_text(filter, line, from) {
        buffer.push(&line[from..text.place]);
        let bytes = part_at(line, text.place, text.count);
        match push_read(buffer, filter, bytes, text.read) {
            Ok(true) => {}
            Ok(false) => {
                buffer.truncate(start);
                return Ok(false);
            }
            Err(why) => {
                buffer.truncate(start);
                return Err(why);
            }
        }
        if buffer.len() - start > LONGEST_TEXT {
            buffer.truncate(start);
            return Err(NoAnswer::TooLong);
        }
        from = text.place + text.count;
    }
    buffer.push(&line[from..]);
    if buffer.len() - start > LONGEST_TEXT {
        buffer.truncate(start);
        return Err(NoAnswer::TooLong);
    }
    Ok(true)
}
