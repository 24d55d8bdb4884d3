//! The string of a recurrence, in one order.
ghost use Rattle.std.specs.Prelude.{◌≡◌, ◌≤◌, length};
ghost use Rattle.cal_recurrence.specs.RecurrenceText.{capacity};
ghost use Rattle.cal_recurrence.specs.Text.{recurrence_of};
ghost use Rattle.cal_c.specs.RecurrenceTexts.{recurrence_text_error, recurrence_text_result, recurrence_text_ok};

use super::results::{error_part, reason_status};
use crate::status::OK;
use cal_recurrence::{ParseRuleError, parse};

/// The bytes of a string: enough for the longest recurrence, and zero bytes.
const CAPACITY: usize = 4064;

/// A string in ASCII, followed by zero bytes, or the first wrong part of the string that was
/// passed.
#[repr(C)]
#[derive(Clone, Copy, Debug)]
pub struct RecurrenceTextResult {
    pub status: i32,
    /// The number of the wrong part, from 1 for `FREQ`, or 0.
    pub part: u32,
    /// The position of the wrong part.
    pub position: usize,
    pub length: u32,
    pub bytes: [u8; CAPACITY],
    /// 0, in place of padding.
    pub unused: u32,
}

impl RecurrenceTextResult {
    fn ok(text: &[u8]) -> Self
        requires { length text.now ≤ capacity }
        ensures { result ≡ recurrence_text_ok text.now }
    {
        let mut bytes = [0; CAPACITY];
        bytes[..text.len()].copy_from_slice(text);
        RecurrenceTextResult {
            status: OK,
            part: 0,
            position: usize::MAX,
            length: text.len() as u32,
            bytes,
            unused: 0,
        }
    }

    fn parse_error(fault: ParseRuleError) -> Self
        ensures { result ≡ recurrence_text_error fault }
    {
        RecurrenceTextResult {
            status: reason_status(fault.reason),
            part: error_part(fault.reason),
            position: fault.position,
            length: 0,
            bytes: [0; CAPACITY],
            unused: 0,
        }
    }
}

/// Parses a recurrence and writes it with its parts in one order.
/// `byday=-01fr;count=3;freq=monthly` becomes `FREQ=MONTHLY;COUNT=3;BYDAY=-1FR`.
#[unsafe(no_mangle)]
pub extern "C" fn fots_recurrence_text(text: &[u8]) -> RecurrenceTextResult
    ensures { result ≡ recurrence_text_result (recurrence_of text.now) }
{
    match parse(text) {
        Ok(recurrence) => RecurrenceTextResult::ok(recurrence.text().as_bytes()),
        Err(fault) => RecurrenceTextResult::parse_error(fault),
    }
}
