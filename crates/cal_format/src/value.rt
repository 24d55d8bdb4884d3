//! The values that a format prints.
ghost use Rattle.std.specs.Prelude.{◌≡◌, ◌≤◌, not, IsTrue, length};
ghost use Rattle.cal_time.specs.Date.{IsDate};
ghost use Rattle.cal_format.specs.Moment.{moment_of_date, moment_of_time, moment_of_date_time, moment_of_offset, moment_of_offset_date_time};
ghost use Rattle.cal_format.specs.Printing.{Prints, PrintsUnder};
ghost use Rattle.cal_format.specs.Reading.{are_date_items, are_time_items, are_date_time_items, are_offset_items, are_moment_items};
ghost use Rattle.cal_format.specs.Text.{text_in_zone, text_of};

use crate::format::Format;
use crate::item::Item;
use crate::moment::Moment;
use crate::print::{print_items, put};
use cal_datetime::{OffsetDateTime, PlainDateTime};
use cal_time::{Date, Time, UtcOffset};

/// The index at which the components of a date end.
pub(crate) const DATE_END: usize = 14;

/// The index at which the components of a time of day end, which come next.
pub(crate) const TIME_END: usize = 28;

/// The index at which the components of an offset end, which come next.
pub(crate) const OFFSET_END: usize = 32;

/// The index at which all components end.
pub(crate) const MOMENT_END: usize = 34;

/// The maximum length of an abbreviation.
const MAX_ABBREVIATION: usize = 15;

/// The maximum length of a text: 64 items of 15 bytes.
const MAX_LENGTH: usize = 960;

impl Format {
    /// Writes a date to the front of the buffer, and returns the number of bytes. Returns `None`,
    /// and leaves the buffer as it is, if the format shows more than a date, or if the buffer is
    /// too short. `%d/%m/%Y` writes `29/02/2024`.
    pub fn print_date(&self, date: Date, buffer: &mut [u8]) -> Option<usize>
        ensures { PrintsUnder (IsTrue (are_date_items self.now))
            (text_of self.now (moment_of_date date)) buffer.old buffer.new result }
    {
        if !self.is_within(0, DATE_END) {
            return None;
        }
        self.print(&Moment::of_date(date), b"", buffer)
    }

    /// Writes a time of day to the front of the buffer, and returns the number of bytes. Returns
    /// `None`, and leaves the buffer as it is, if the format shows more than a time of day, or if
    /// the buffer is too short. `%I:%M %p` writes `11:59 PM`.
    pub fn print_time(&self, time: Time, buffer: &mut [u8]) -> Option<usize>
        ensures { PrintsUnder (IsTrue (are_time_items self.now))
            (text_of self.now (moment_of_time time)) buffer.old buffer.new result }
    {
        if !self.is_within(DATE_END, TIME_END) {
            return None;
        }
        self.print(&Moment::of_time(time), b"", buffer)
    }

    /// Writes a date-time to the front of the buffer, and returns the number of bytes. Returns
    /// `None`, and leaves the buffer as it is, if the format shows an offset, a Unix time or an
    /// abbreviation, or if the buffer is too short. `%F %R` writes `2024-02-29 23:59`.
    pub fn print_date_time(&self, date_time: PlainDateTime, buffer: &mut [u8]) -> Option<usize>
        ensures { PrintsUnder (IsTrue (are_date_time_items self.now))
            (text_of self.now (moment_of_date_time date_time)) buffer.old buffer.new result }
    {
        if !self.is_within(0, TIME_END) {
            return None;
        }
        self.print(&Moment::of_date_time(date_time), b"", buffer)
    }

    /// Writes an offset to the front of the buffer, and returns the number of bytes. Returns
    /// `None`, and leaves the buffer as it is, if the format shows more than an offset, or if the
    /// buffer is too short. `%:z` writes `+05:30`.
    pub fn print_offset(&self, offset: UtcOffset, buffer: &mut [u8]) -> Option<usize>
        ensures { PrintsUnder (IsTrue (are_offset_items self.now))
            (text_of self.now (moment_of_offset offset)) buffer.old buffer.new result }
    {
        if !self.is_within(TIME_END, OFFSET_END) {
            return None;
        }
        self.print(&Moment::of_offset(offset), b"", buffer)
    }

    /// Writes a date-time at an offset to the front of the buffer, and returns the number of bytes.
    /// Returns `None`, and leaves the buffer as it is, if the format shows the abbreviation of a
    /// zone, or if the buffer is too short. `%F %R %z` writes `2024-02-29 23:59 +0100`.
    pub fn print_offset_date_time(
        &self,
        date_time: OffsetDateTime,
        buffer: &mut [u8],
    ) -> Option<usize>
        ensures { PrintsUnder (IsTrue (are_moment_items self.now))
            (text_of self.now (moment_of_offset_date_time date_time)) buffer.old buffer.new result }
    {
        if self.shows_abbreviation() {
            return None;
        }
        self.print(&Moment::of_offset_date_time(date_time), b"", buffer)
    }

    /// Writes a date-time at the offset of a zone to the front of the buffer, and returns the
    /// number of bytes. Returns `None`, and leaves the buffer as it is, if the abbreviation has
    /// more than 15 bytes, or if the buffer is too short. `%R %Z` writes `23:59 CET` with the
    /// abbreviation `CET`.
    pub fn print_in_zone(
        &self,
        date_time: OffsetDateTime,
        abbreviation: &[u8],
        buffer: &mut [u8],
    ) -> Option<usize>
        ensures { PrintsUnder (length abbreviation.now ≤ 15)
            (text_in_zone abbreviation.now self.now (moment_of_offset_date_time date_time)) buffer.old buffer.new result }
    {
        if abbreviation.len() > MAX_ABBREVIATION {
            return None;
        }
        self.print(
            &Moment::of_offset_date_time(date_time),
            abbreviation,
            buffer,
        )
    }

    /// Returns `true` if the format shows the abbreviation of a zone, such as `%Z`. Only
    /// `print_in_zone` prints such a format.
    pub fn shows_abbreviation(&self) -> bool
        ensures { result ≡ not (are_moment_items self.now) }
    {
        !self.is_within(0, MOMENT_END)
    }

    /// Writes a moment to the front of the buffer, and returns the number of bytes. Returns `None`,
    /// and leaves the buffer as it is, if the buffer is too short. The abbreviation of a zone
    /// prints nothing. `%R` writes `23:59`.
    pub fn print_moment(&self, moment: &Moment, buffer: &mut [u8]) -> Option<usize>
        ensures { Prints (text_of self.now moment.now) buffer.old buffer.new result }
    {
        self.print(moment, b"", buffer)
    }

    fn print(&self, moment: &Moment, abbreviation: &[u8], buffer: &mut [u8]) -> Option<usize>
        requires { length abbreviation.now ≤ 15 }
        ensures { Prints (text_in_zone abbreviation.now self.now moment.now) buffer.old buffer.new result }
    {
        let mut text = [0u8; 64];
        match print_items(self.items(), moment, abbreviation, &mut text, 0) {
            Some(end) => put(buffer, 0, &text[..end]),
            None => print_long(self.items(), moment, abbreviation, buffer),
        }
    }
}

/// Writes what the items print of a moment, by way of a buffer for the longest text.
#[cold]
fn print_long(
    items: &[Item],
    moment: &Moment,
    abbreviation: &[u8],
    buffer: &mut [u8],
) -> Option<usize>
    requires few { length items.now ≤ 64 }
    requires short { length abbreviation.now ≤ 15 }
    ensures { Prints (text_in_zone abbreviation.now items.now moment.now) buffer.old buffer.new result }
{
    // These calls state that the moment is in its range. They cost nothing.
    let _ = moment.date.to_julian_day();
    let _ = moment.time.hour();
    let _ = moment.offset.whole_seconds();
    let mut text = [0u8; MAX_LENGTH];
    let end = print_items(items, moment, abbreviation, &mut text, 0)?;
    put(buffer, 0, &text[..end])
}

/// Returns the moment of a date, a time of day and an offset.
macro_rules! moment {
    ($date:expr, $time:expr, $offset:expr) => {
        Moment {
            date: $date,
            time: $time,
            offset: $offset,
        }
    };
}

impl Moment {
    /// Returns a date as a moment.
    pub fn of_date(date: Date) -> Moment
        ensures { result ≡ moment_of_date date }
    {
        moment!(date, Time::MIDNIGHT, UtcOffset::UTC)
    }

    /// Returns a time of day as a moment.
    pub fn of_time(time: Time) -> Moment
        ensures { result ≡ moment_of_time time }
    {
        moment!(first_date(), time, UtcOffset::UTC)
    }

    /// Returns a date-time as a moment.
    pub fn of_date_time(date_time: PlainDateTime) -> Moment
        ensures { result ≡ moment_of_date_time date_time }
    {
        moment!(date_time.date(), date_time.time(), UtcOffset::UTC)
    }

    /// Returns an offset as a moment.
    pub fn of_offset(offset: UtcOffset) -> Moment
        ensures { result ≡ moment_of_offset offset }
    {
        moment!(first_date(), Time::MIDNIGHT, offset)
    }

    /// Returns a date-time at an offset as a moment.
    pub fn of_offset_date_time(date_time: OffsetDateTime) -> Moment
        ensures { result ≡ moment_of_offset_date_time date_time }
    {
        moment!(date_time.date(), date_time.time(), date_time.offset())
    }
}

/// Returns the first date of the range.
pub(crate) fn first_date() -> Date
    ensures value { result ≡ 0 }
    ensures range { IsDate result }
{
    Date::MIN
}
