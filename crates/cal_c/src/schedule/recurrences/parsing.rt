//! Parsing a recurrence to its parts.
ghost use Rattle.std.specs.Prelude.{◌≡◌};
ghost use Rattle.cal_recurrence.specs.Text.{recurrence_of};
ghost use Rattle.cal_c.specs.RecurrenceParts.{parse_recurrence_result};

use super::recurrence_parts::RecurrenceParts;
use super::results::{error_part, reason_status};
use crate::status::OK;
use cal_recurrence::parse;

/// A parsed recurrence, or the first wrong part of the string.
#[repr(C)]
#[derive(Clone, Copy, Debug)]
pub struct ParseRecurrenceResult {
    pub status: i32,
    /// The number of the wrong part, from 1 for `FREQ`, or 0.
    pub part: u32,
    /// The position of the wrong part.
    pub position: usize,
    pub recurrence: RecurrenceParts,
    /// 0, in place of padding.
    pub unused: u32,
}

/// Parses a recurrence. `FREQ=MONTHLY;BYDAY=-1FR;COUNT=3` gives the frequency 3, the interval 1,
/// weeks from 1, no last day, the count 3, and one weekday, -1 and 5.
#[unsafe(no_mangle)]
pub extern "C" fn fots_recurrence_parse(text: &[u8]) -> ParseRecurrenceResult
    ensures { result ≡ parse_recurrence_result (recurrence_of text.now) }
{
    match parse(text) {
        Ok(recurrence) => ParseRecurrenceResult {
            status: OK,
            part: 0,
            position: usize::MAX,
            recurrence: RecurrenceParts::from_recurrence(&recurrence),
            unused: 0,
        },
        Err(fault) => ParseRecurrenceResult {
            status: reason_status(fault.reason),
            part: error_part(fault.reason),
            position: fault.position,
            recurrence: RecurrenceParts::empty(),
            unused: 0,
        },
    }
}
