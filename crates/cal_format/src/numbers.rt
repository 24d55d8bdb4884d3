//! The steps of printing and parsing, for a crate that has other names than the English ones.
ghost use Rattle.std.specs.Prelude.{◌≡◌, ◌++◌, IfSome, IfOk, IfErr, Ok};
ghost use Rattle.cal_text.specs.Shape.{Scans};
ghost use Rattle.cal_datetime.specs.DateTime.{date_time};
ghost use Rattle.cal_format.specs.declared.moment.Moment.{Moment};
ghost use Rattle.cal_format.specs.Form.{ItemShape, numbered_item, numbered_text, numbers_of, AreNumbers, IsNameNumber, IsNumber};
ghost use Rattle.cal_format.specs.Moment.{number};
ghost use Rattle.cal_format.specs.Reading.{name_component};
ghost use Rattle.cal_format.specs.Rejection.{IsNumberRejection};
ghost use Rattle.cal_format.specs.Values.{Holds, IsPrinted};

use crate::error::ParseError;
use crate::form::scan_item;
use crate::format::Format;
use crate::item::{Item, Name};
use crate::moment::Moment;
use crate::parsing::moment_of_numbers;
use cal_datetime::{OffsetDateTime, PlainDateTime};
use cal_text::Scanner;
use cal_time::{Date, Time};

impl Item {
    /// Parses the item at the front of a text, and returns its number. A literal and an
    /// abbreviation have the number 0. Returns `None` at a byte that doesn't fit, and leaves the
    /// rest there. The month of `02-29` is 2, and leaves `-29`.
    pub fn scan(self, scanner: &mut Scanner) -> Option<u64>
        ensures scans { Scans (ItemShape self) scanner.old.rest.now scanner.new.rest.now result }
        ensures value { IfSome result (λ n.
            scanner.old.rest.now ≡ numbered_item self n ++ scanner.new.rest.now) }
        ensures range { IfSome result (λ n. IsNumber self n) }
    {
        scan_item(scanner, self)
    }
}

impl Name {
    /// Returns the number of the month, from 1 to 12, of the weekday, from 1, Monday, to 7, or of
    /// the half of the day, 0 or 1. The month of 2024-02-29 has the number 2.
    pub fn number(self, moment: &Moment) -> u8
        ensures value { result ≡ number (name_component self) moment.now }
        ensures range { IsNameNumber self result }
    {
        match self {
            Name::Month | Name::MonthAlone | Name::ShortMonth => { u8::from(moment.date.month()) }
            Name::Weekday | Name::ShortWeekday => moment.date.weekday().number_days_from_monday()
                + 1,
            Name::Period | Name::LowerPeriod => moment.time.hour() / 12,
        }
    }
}

impl Format {
    /// Returns the moment with these numbers, one for each item, as [`Item::scan`] returns them.
    ///
    /// Returns `OutOfRange` with the first component out of range, or `Contradiction` with the
    /// first component that isn't the component of the moment. The numbers 2024, 0, 2, 0 and 29 of
    /// `%F` have the moment of 2024-02-29.
    pub fn moment_of_numbers(&self, numbers: &[u64]) -> Result<Moment, ParseError>
        requires fit { AreNumbers self.now numbers.now }
        ensures every { (v : Moment) → Holds self.now v → numbers.now ≡ numbers_of self.now v
            → result ≡ Ok v }
        ensures value { IfOk result (λ v.
            IsPrinted self.now v (numbered_text self.now numbers.now)) }
        ensures error { IfErr result (IsNumberRejection self.now numbers.now) }
    {
        moment_of_numbers(self, numbers)
    }
}

impl Moment {
    /// Returns the date. A moment without a date has the first date of the range.
    pub fn date(&self) -> Date
        ensures { result ≡ self.now.date }
    {
        self.date
    }

    /// Returns the time of day. A moment without a time of day has midnight.
    pub fn time(&self) -> Time
        ensures { result ≡ self.now.time }
    {
        self.time
    }

    /// Returns the date and the time of day. A moment without a time of day has midnight.
    pub fn date_time(&self) -> PlainDateTime
        ensures { result ≡ date_time self.now.date self.now.time }
    {
        PlainDateTime::new(self.date, self.time)
    }

    /// Returns the date and the time of day at the offset. A moment without an offset has UTC.
    pub fn offset_date_time(&self) -> OffsetDateTime
        ensures { result ≡ record {
          local = date_time self.now.date self.now.time;
          offset = self.now.offset;
        } }
    {
        OffsetDateTime::new_in_offset(self.date, self.time, self.offset)
    }
}
