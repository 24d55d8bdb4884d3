//! The ways to read the text of a line.
ghost use Rattle.std.specs.Prelude.{◌≡◌, ◌↔◌, IfOk, IfErr, Ok};
ghost use Rattle.cal_time.specs.declared.error.ComponentRange.{ComponentRange};
ghost use Rattle.cal_text.specs.Position.{IsErrorAtStop};
ghost use Rattle.cal_text.specs.Parsing.{FailsWithComponent, FailsWithSyntax};
ghost use Rattle.cal_text.specs.declared.any.DateOrMoment.{DateOrMoment};
ghost use Rattle.caldate_answers.specs.Readings.{HasFormIn, IsErrorIn, IsTextIn};

mod date;
mod digits;
pub(crate) mod full_text;
pub mod in_language;
mod iso;
pub mod lenient;
mod local;
mod number;
pub mod reader;
mod readers;
pub mod spelling;
pub mod value_format;
pub mod yearless;

use crate::reading::date::read_date;
use crate::reading::iso::{read_iso_date, read_iso_local, read_iso_moment};
use crate::reading::local::read_local;
use crate::reading::number::read_number;
pub use crate::reading::reader::reason_of;
pub use crate::reading::readers::{Readers, first_reason, has_form, read};
use crate::request::UnixUnit;
use cal_text::{DateOrMoment, ParseError, parse_any};
use cal_time::UtcOffset;

/// A way to read the text of a line.
#[derive(Clone, Copy)]
pub enum Reading {
    /// Any of the six forms.
    Any,
    /// A date with its parts in this order.
    Date(DateOrder),
    /// A moment at UTC such as `1709164800500`, in whole units since 1970.
    Unix(UnixUnit),
    /// A moment at this offset, such as `2024-02-29T10:00:00`.
    Local(UtcOffset),
    /// A date of ISO 8601, such as `20240229` or `2024-W09-4`.
    IsoDate,
    /// A moment of ISO 8601, such as `20240229T1000Z`.
    IsoMoment,
    /// A local date-time of ISO 8601 at this offset, such as `20240229T1000`. A date is midnight.
    IsoLocal(UtcOffset),
}

/// The order of the parts of a date.
#[derive(Clone, Copy)]
pub enum DateOrder {
    /// A date such as `20240229`.
    Basic,
    /// A date such as `29.02.2024`, `29/02/2024` or `29-02-2024`.
    DayFirst,
    /// A date such as `02.29.2024`, `02/29/2024` or `02-29-2024`.
    MonthFirst,
}

/// Parses a string, and returns the date or the moment and the form of its answers.
///
/// `29.02.2024` is 2024-02-29 if the day comes first. A string in another form gives the position
/// of its first wrong byte. `31.04.2024` has the form, and gives `OutOfRange` for `day`.
// Inlined, so that a line in one of the six forms takes no extra call.
#[inline(always)]
pub fn read_in(reading: Reading, text: &[u8]) -> Result<DateOrMoment, ParseError>
    ensures every { (found : DateOrMoment) → IsTextIn reading text.now found → result ≡ Ok found }
    ensures has { IfOk result (IsTextIn reading text.now) }
    ensures form { FailsWithSyntax result ↔ ¬ HasFormIn reading text.now }
    ensures position { IfErr result (IsErrorAtStop (HasFormIn reading) text.now) }
    ensures component { (why : ComponentRange)
        → FailsWithComponent why result ↔ IsErrorIn reading text.now why }
{
    match reading {
        Reading::Any => parse_any(text),
        Reading::Date(order) => read_date(order, text),
        Reading::Unix(unit) => read_number(unit, text),
        Reading::Local(offset) => read_local(offset, text),
        Reading::IsoDate => read_iso_date(text),
        Reading::IsoMoment => read_iso_moment(text),
        Reading::IsoLocal(offset) => read_iso_local(offset, text),
    }
}
