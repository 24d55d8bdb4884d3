//! The reasons why a line has no answer.
ghost use Rattle.std.specs.Prelude.{◌≡◌, ◌+◌, ◌≤◌, ◌==◌, ◌++◌, codes, length, if◌then◌else◌};
ghost use Rattle.caldate_lines.specs.Reasons.{missing_text, reason, refusal_words, refused_text};
ghost use Rattle.caldate_lines.specs.Room.{HasRoom};

use crate::missing_field::MissingField;
use crate::output::buffer::Buffer;
use cal_time::error::ComponentRange;

/// A reason why a line has no answer.
#[derive(Clone, Copy, Debug, PartialEq, Eq)]
pub enum NoAnswer {
    /// The text of the line has more than 4096 bytes.
    TooLong,
    /// The line lacks the field, or the other field, which has TEXT of `until` or `since`.
    NoField(MissingField),
    /// The other field is not read as a date or moment.
    UnreadOtherField,
    /// The text was read, and the request has no answer for it.
    None,
    /// The text has a form, and this component is out of its range.
    Rejected(ComponentRange),
    /// The text is in none of the forms of `--read`.
    NoForm,
    /// The clocks of the zone skip the text's time.
    Skipped,
    /// The clocks of the zone show the text's time twice.
    Repeated,
    /// The text has no form, and this byte is the first that none has there, counted from 0.
    Unreadable(usize),
}

/// Appends a reason, such as `unreadable at 4`.
pub fn push_reason(buffer: &mut Buffer, why: NoAnswer)
    requires { HasRoom 80 buffer.old }
    ensures text { buffer.new ≡ buffer.old ++ reason why }
    ensures short { length buffer.new ≤ length buffer.old + 80 }
{
    match why {
        NoAnswer::TooLong => buffer.push(b"line too long"),
        NoAnswer::NoField(missing) => push_missing(buffer, missing),
        NoAnswer::UnreadOtherField => buffer.push(b"other field unreadable"),
        NoAnswer::NoForm => buffer.push(b"in no form of --read"),
        NoAnswer::None => buffer.push(b"none"),
        NoAnswer::Skipped => buffer.push(b"skipped time"),
        NoAnswer::Repeated => buffer.push(b"repeated time"),
        NoAnswer::Rejected(component) => push_refusal(buffer, component),
        NoAnswer::Unreadable(position) => {
            buffer.push(b"unreadable at ");
            buffer.push_number(position as u64);
        }
    }
}

/// Appends the number of the field and how many fields the line has.
fn push_missing(buffer: &mut Buffer, missing: MissingField)
    requires { HasRoom 80 buffer.old }
    ensures text { buffer.new ≡ buffer.old ++ missing_text missing }
    ensures short { length buffer.new ≤ length buffer.old + 80 }
{
    buffer.push(b"no field ");
    buffer.push_number(u64::from(missing.number));
    buffer.push(b": the line has ");
    buffer.push_number(u64::from(missing.count));
    buffer.push(field_word(missing.count));
}

/// Returns the word after a number of fields.
fn field_word(count: u32) -> &'static [u8]
    ensures value { result.now ≡ (if count == 1 then codes " field" else codes " fields") }
    ensures short { length result.now ≤ 7 }
{
    if count == 1 { b" field" } else { b" fields" }
}

/// Appends `refused month` or `no such day`, with the name of the component.
fn push_refusal(buffer: &mut Buffer, error: ComponentRange)
    requires { HasRoom 64 buffer.old }
    ensures text { buffer.new ≡ buffer.old ++ refused_text error }
    ensures short { length buffer.new ≤ length buffer.old + 64 }
{
    buffer.push(refusal_words(error));
    buffer.push(error.name().as_bytes());
}

/// Returns the words before the name of the component.
fn refusal_words(error: ComponentRange) -> &'static [u8]
    ensures value { result.now ≡ refusal_words error }
    ensures short { length result.now ≤ 8 }
{
    if error.is_conditional() {
        b"no such "
    } else {
        b"refused "
    }
}
