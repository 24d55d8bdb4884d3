//! Lenient formats for values of one type.
ghost use Rattle.std.specs.Prelude.{◌≡◌, ℕ, ℤ, ◌↔◌, Ok, IsSome, IfOk, IfErr, IfSome};
ghost use Rattle.cal_time.specs.Date.{IsDate};
ghost use Rattle.cal_time.specs.Time.{IsTime};
ghost use Rattle.cal_time.specs.UtcOffset.{IsOffset};
ghost use Rattle.cal_datetime.specs.DateTime.{IsDateTime};
ghost use Rattle.cal_datetime.specs.OffsetDateTime.{LocalAndOffset};
ghost use Rattle.cal_format.specs.Lenient.{IsRead, IsLenientRejection, ReadsDates, ReadsTimes, ReadsDateTimes, ReadsOffsetDateTimes};
ghost use Rattle.cal_format.specs.Moment.{moment_of_date, moment_of_time, moment_of_date_time, moment_of_offset_date_time};

use crate::determines::{shows_date, shows_moment, shows_time};
use crate::error::ParseError;
use crate::format::Format;
use crate::lenient::LenientFormat;
use crate::lenient_parsing::parse_leniently;
use crate::value::{DATE_END, MOMENT_END, TIME_END};
use cal_datetime::{OffsetDateTime, PlainDateTime};
use cal_time::{Date, Time};
use std::marker::Model;

/// A lenient format whose texts determine a date. Contracts see the items and the pivot.
#[derive(Debug, Drop)]
pub struct LenientDateFormat {
    format: LenientFormat,
    known: Format,
}

impl Model for LenientDateFormat {
    ghost use Rattle.std.specs.Prelude.{◌≡◌};
    ghost use Rattle.cal_format.specs.declared.lenient.LenientFormat.{LenientFormat};
    ghost use Rattle.cal_format.specs.Lenient.{items_of, ReadsDates};

    ghost Value = { LenientFormat };

    ghost view = { λ f. f.format };

    ghost invariant = { λ f. (f.known ≡ items_of f.format) × ReadsDates f.format };
}

/// A lenient format whose texts determine a time of day. Contracts see the items and the pivot.
#[derive(Debug, Drop)]
pub struct LenientTimeFormat {
    format: LenientFormat,
    known: Format,
}

impl Model for LenientTimeFormat {
    ghost use Rattle.std.specs.Prelude.{◌≡◌};
    ghost use Rattle.cal_format.specs.declared.lenient.LenientFormat.{LenientFormat};
    ghost use Rattle.cal_format.specs.Lenient.{items_of, ReadsTimes};

    ghost Value = { LenientFormat };

    ghost view = { λ f. f.format };

    ghost invariant = { λ f. (f.known ≡ items_of f.format) × ReadsTimes f.format };
}

/// A lenient format whose texts determine a date and a time of day. Contracts see the items and the
/// pivot.
#[derive(Debug, Drop)]
pub struct LenientDateTimeFormat {
    format: LenientFormat,
    known: Format,
}

impl Model for LenientDateTimeFormat {
    ghost use Rattle.std.specs.Prelude.{◌≡◌};
    ghost use Rattle.cal_format.specs.declared.lenient.LenientFormat.{LenientFormat};
    ghost use Rattle.cal_format.specs.Lenient.{items_of, ReadsDateTimes};

    ghost Value = { LenientFormat };

    ghost view = { λ f. f.format };

    ghost invariant = { λ f. (f.known ≡ items_of f.format) × ReadsDateTimes f.format };
}

/// A lenient format whose texts determine a date, a time of day and an offset. Contracts see the
/// items and the pivot.
#[derive(Debug, Drop)]
pub struct LenientOffsetDateTimeFormat {
    format: LenientFormat,
    known: Format,
}

impl Model for LenientOffsetDateTimeFormat {
    ghost use Rattle.std.specs.Prelude.{◌≡◌};
    ghost use Rattle.cal_format.specs.declared.lenient.LenientFormat.{LenientFormat};
    ghost use Rattle.cal_format.specs.Lenient.{items_of, ReadsOffsetDateTimes};

    ghost Value = { LenientFormat };

    ghost view = { λ f. f.format };

    ghost invariant = { λ f. (f.known ≡ items_of f.format) × ReadsOffsetDateTimes f.format };
}

impl LenientFormat {
    /// Returns the format for dates, or `None` if its texts don't determine a date, if they show
    /// more than a date, or if two dates could have the same text. `%-d %B %Y` reads dates, and
    /// `%Y%m%d` doesn't: `2024111` could be two dates.
    pub fn for_dates(self) -> Option<LenientDateFormat>
        ensures reads { IsSome result ↔ ReadsDates self }
        ensures same { IfSome result (λ format. format ≡ self) }
    {
        let known = self.known_items()?;
        determining!(known, [0..DATE_END] shows_date => LenientDateFormat { format: self, known })
    }

    /// Returns the format for times of day, or `None` if its texts don't determine a time of day,
    /// if they show more than a time of day, or if two times could have the same text. `%H:%M`
    /// reads times, and `%H%M` doesn't.
    pub fn for_times(self) -> Option<LenientTimeFormat>
        ensures reads { IsSome result ↔ ReadsTimes self }
        ensures same { IfSome result (λ format. format ≡ self) }
    {
        let known = self.known_items()?;
        determining!(
            known,
            [DATE_END..TIME_END] shows_time => LenientTimeFormat { format: self, known }
        )
    }

    /// Returns the format for date-times, or `None` if its texts don't determine a date and a time
    /// of day, if they show more than these, or if two date-times could have the same text. `%F %R`
    /// reads date-times, and `%F` doesn't.
    pub fn for_date_times(self) -> Option<LenientDateTimeFormat>
        ensures reads { IsSome result ↔ ReadsDateTimes self }
        ensures same { IfSome result (λ format. format ≡ self) }
    {
        let known = self.known_items()?;
        determining!(
            known,
            [0..TIME_END] shows_date, shows_time => LenientDateTimeFormat { format: self, known }
        )
    }

    /// Returns the format for date-times at an offset, or `None` if its texts don't determine a
    /// date, a time of day and an offset, if they show an abbreviation, or if two values could have
    /// the same text. `%F %T %z` reads date-times at an offset.
    pub fn for_offset_date_times(self) -> Option<LenientOffsetDateTimeFormat>
        ensures reads { IsSome result ↔ ReadsOffsetDateTimes self }
        ensures same { IfSome result (λ format. format ≡ self) }
    {
        let known = self.known_items()?;
        determining!(
            known,
            [0..MOMENT_END] shows_moment => LenientOffsetDateTimeFormat { format: self, known }
        )
    }
}

impl LenientDateFormat {
    /// Returns its items as a format of any values.
    pub fn as_format(&self) -> &Format
        ensures items { result.now ≡ self.now.format }
        ensures reads { ReadsDates self.now }
    {
        &self.format.format
    }

    /// Parses a variant of a text that the format prints, and returns its value.
    ///
    /// Returns `UnexpectedByte` or `UnexpectedEnd` with the position of an item that the text
    /// doesn't have, `OutOfRange` with the first component out of range, or `Contradiction` with
    /// the first component that isn't the component of the value.
    pub fn parse(&self, text: &[u8]) -> Result<Date, ParseError>
        ensures every { (n : ℕ) → IsDate n
            → IsRead self.now (moment_of_date n) text.now → result ≡ Ok n }
        ensures value { IfOk result (λ n. IsDate n
            × IsRead self.now (moment_of_date n) text.now) }
        ensures error { IfErr result (IsLenientRejection self.now text.now) }
        ensures reads { ReadsDates self.now }
    {
        match parse_leniently(&self.format, &self.known, text) {
            Ok(moment) => Ok(moment.date),
            Err(error) => Err(error),
        }
    }
}

impl LenientTimeFormat {
    /// Returns its items as a format of any values.
    pub fn as_format(&self) -> &Format
        ensures items { result.now ≡ self.now.format }
        ensures reads { ReadsTimes self.now }
    {
        &self.format.format
    }

    /// Parses a variant of a text that the format prints, and returns its value.
    ///
    /// Returns `UnexpectedByte` or `UnexpectedEnd` with the position of an item that the text
    /// doesn't have, `OutOfRange` with the first component out of range, or `Contradiction` with
    /// the first component that isn't the component of the value.
    pub fn parse(&self, text: &[u8]) -> Result<Time, ParseError>
        ensures every { (n : ℕ) → IsTime n
            → IsRead self.now (moment_of_time n) text.now → result ≡ Ok n }
        ensures value { IfOk result (λ n. IsTime n
            × IsRead self.now (moment_of_time n) text.now) }
        ensures error { IfErr result (IsLenientRejection self.now text.now) }
        ensures reads { ReadsTimes self.now }
    {
        match parse_leniently(&self.format, &self.known, text) {
            Ok(moment) => Ok(moment.time),
            Err(error) => Err(error),
        }
    }
}

impl LenientDateTimeFormat {
    /// Returns its items as a format of any values.
    pub fn as_format(&self) -> &Format
        ensures items { result.now ≡ self.now.format }
        ensures reads { ReadsDateTimes self.now }
    {
        &self.format.format
    }

    /// Parses a variant of a text that the format prints, and returns its value.
    ///
    /// Returns `UnexpectedByte` or `UnexpectedEnd` with the position of an item that the text
    /// doesn't have, `OutOfRange` with the first component out of range, or `Contradiction` with
    /// the first component that isn't the component of the value.
    pub fn parse(&self, text: &[u8]) -> Result<PlainDateTime, ParseError>
        ensures every { (z : ℤ) → IsDateTime z
            → IsRead self.now (moment_of_date_time z) text.now → result ≡ Ok z }
        ensures value { IfOk result (λ z. IsDateTime z
            × IsRead self.now (moment_of_date_time z) text.now) }
        ensures error { IfErr result (IsLenientRejection self.now text.now) }
        ensures reads { ReadsDateTimes self.now }
    {
        match parse_leniently(&self.format, &self.known, text) {
            Ok(moment) => Ok(PlainDateTime::new(moment.date, moment.time)),
            Err(error) => Err(error),
        }
    }
}

impl LenientOffsetDateTimeFormat {
    /// Returns its items as a format of any values.
    pub fn as_format(&self) -> &Format
        ensures items { result.now ≡ self.now.format }
        ensures reads { ReadsOffsetDateTimes self.now }
    {
        &self.format.format
    }

    /// Parses a variant of a text that the format prints, and returns its value.
    ///
    /// Returns `UnexpectedByte` or `UnexpectedEnd` with the position of an item that the text
    /// doesn't have, `OutOfRange` with the first component out of range, or `Contradiction` with
    /// the first component that isn't the component of the value.
    pub fn parse(&self, text: &[u8]) -> Result<OffsetDateTime, ParseError>
        ensures every { (m : LocalAndOffset) → IsDateTime m.local → IsOffset m.offset
            → IsRead self.now (moment_of_offset_date_time m) text.now → result ≡ Ok m }
        ensures value { IfOk result (λ m. IsDateTime m.local × IsOffset m.offset
            × IsRead self.now (moment_of_offset_date_time m) text.now) }
        ensures error { IfErr result (IsLenientRejection self.now text.now) }
        ensures reads { ReadsOffsetDateTimes self.now }
    {
        match parse_leniently(&self.format, &self.known, text) {
            Ok(moment) => Ok(OffsetDateTime::new_in_offset(
                moment.date,
                moment.time,
                moment.offset,
            )),
            Err(error) => Err(error),
        }
    }
}
