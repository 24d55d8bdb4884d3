//! Formats for values of one type, which also parse.
ghost use Rattle.std.specs.Prelude.{◌≡◌, ℕ, ℤ, ◌↔◌, Ok, IsTrue, IsSome, IfOk, IfErr, IfSome};
ghost use Rattle.cal_time.specs.Date.{IsDate};
ghost use Rattle.cal_time.specs.Time.{IsTime};
ghost use Rattle.cal_time.specs.UtcOffset.{IsOffset};
ghost use Rattle.cal_datetime.specs.DateTime.{IsDateTime, time_at};
ghost use Rattle.cal_datetime.specs.OffsetDateTime.{LocalAndOffset};
ghost use Rattle.cal_format.specs.Moment.{moment_of_date, moment_of_time, moment_of_offset, moment_of_date_time, moment_of_offset_date_time};
ghost use Rattle.cal_format.specs.Reading.{holds_time, holds_offset, DeterminesDate, DeterminesTime, DeterminesOffset, DeterminesDateTime, DeterminesOffsetDateTime};
ghost use Rattle.cal_format.specs.Rejection.{IsRejection};
ghost use Rattle.cal_format.specs.Scanning.{AreHeld};
ghost use Rattle.cal_format.specs.Text.{text_of};

use crate::determines::{shows_date, shows_moment, shows_offset, shows_time};
use crate::error::ParseError;
use crate::format::Format;
use crate::one_pass::{parse_date_once, parse_pair_once, parse_time_once};
use crate::value::{DATE_END, MOMENT_END, OFFSET_END, TIME_END};
use cal_datetime::{OffsetDateTime, PlainDateTime};
use cal_time::{Date, Time, UtcOffset};
use std::marker::Model;

/// A format whose texts determine a date. Contracts see the list of its items.
#[derive(Debug, Drop)]
pub struct DateFormat {
    format: Format,
}

impl Model for DateFormat {
    ghost use Rattle.std.specs.Prelude.{List};
    ghost use Rattle.cal_format.specs.declared.item.Item.{Item};
    ghost use Rattle.cal_format.specs.Reading.{DeterminesDate};

    ghost Value = { List Item };

    ghost view = { λ f. f.format };

    ghost invariant = { λ f. DeterminesDate f.format };
}

/// A format whose texts determine a time of day. Contracts see the list of its items.
#[derive(Debug, Drop)]
pub struct TimeFormat {
    format: Format,
}

impl Model for TimeFormat {
    ghost use Rattle.std.specs.Prelude.{List};
    ghost use Rattle.cal_format.specs.declared.item.Item.{Item};
    ghost use Rattle.cal_format.specs.Reading.{DeterminesTime};

    ghost Value = { List Item };

    ghost view = { λ f. f.format };

    ghost invariant = { λ f. DeterminesTime f.format };
}

/// A format whose texts determine an offset. Contracts see the list of its items.
#[derive(Debug, Drop)]
pub struct OffsetFormat {
    format: Format,
}

impl Model for OffsetFormat {
    ghost use Rattle.std.specs.Prelude.{List};
    ghost use Rattle.cal_format.specs.declared.item.Item.{Item};
    ghost use Rattle.cal_format.specs.Reading.{DeterminesOffset};

    ghost Value = { List Item };

    ghost view = { λ f. f.format };

    ghost invariant = { λ f. DeterminesOffset f.format };
}

/// A format whose texts determine a date and a time of day. Contracts see the list of its items.
#[derive(Debug, Drop)]
pub struct DateTimeFormat {
    format: Format,
}

impl Model for DateTimeFormat {
    ghost use Rattle.std.specs.Prelude.{List};
    ghost use Rattle.cal_format.specs.declared.item.Item.{Item};
    ghost use Rattle.cal_format.specs.Reading.{DeterminesDateTime};

    ghost Value = { List Item };

    ghost view = { λ f. f.format };

    ghost invariant = { λ f. DeterminesDateTime f.format };
}

/// A format whose texts determine a date, a time of day and an offset. Contracts see the list of
/// its items.
#[derive(Debug, Drop)]
pub struct OffsetDateTimeFormat {
    format: Format,
}

impl Model for OffsetDateTimeFormat {
    ghost use Rattle.std.specs.Prelude.{List};
    ghost use Rattle.cal_format.specs.declared.item.Item.{Item};
    ghost use Rattle.cal_format.specs.Reading.{DeterminesOffsetDateTime};

    ghost Value = { List Item };

    ghost view = { λ f. f.format };

    ghost invariant = { λ f. DeterminesOffsetDateTime f.format };
}

impl Format {
    /// Returns the format for dates, or `None` if its texts don't determine a date, or show more
    /// than a date. `%F` and `%G-W%V-%u` determine a date, and `%Y-%m` doesn't.
    pub fn for_dates(self) -> Option<DateFormat>
        ensures determines { IsSome result ↔ DeterminesDate self }
        ensures same { IfSome result (λ format. format ≡ self) }
    {
        determining!(self, [0..DATE_END] shows_date => DateFormat { format: self })
    }

    /// Returns the format for times of day, or `None` if its texts don't determine a time of day,
    /// or show more than a time of day. `%R` and `%I %p` determine a time, and `%I:%M` doesn't.
    pub fn for_times(self) -> Option<TimeFormat>
        ensures determines { IsSome result ↔ DeterminesTime self }
        ensures same { IfSome result (λ format. format ≡ self) }
    {
        determining!(self, [DATE_END..TIME_END] shows_time => TimeFormat { format: self })
    }

    /// Returns the format for offsets, or `None` if its texts don't determine an offset, or show
    /// more than an offset. `%:z` determines an offset, and `[offset_minute]` doesn't.
    pub fn for_offsets(self) -> Option<OffsetFormat>
        ensures determines { IsSome result ↔ DeterminesOffset self }
        ensures same { IfSome result (λ format. format ≡ self) }
    {
        determining!(self, [TIME_END..OFFSET_END] shows_offset => OffsetFormat { format: self })
    }

    /// Returns the format for date-times, or `None` if its texts don't determine a date and a time
    /// of day, or show more than these. `%F %R` determines a date-time, and `%F` doesn't.
    pub fn for_date_times(self) -> Option<DateTimeFormat>
        ensures determines { IsSome result ↔ DeterminesDateTime self }
        ensures same { IfSome result (λ format. format ≡ self) }
    {
        determining!(self, [0..TIME_END] shows_date, shows_time => DateTimeFormat { format: self })
    }

    /// Returns the format for date-times at an offset, or `None` if its texts don't determine a
    /// date, a time of day and an offset, or show an abbreviation. `%F %T %z` and `%s` determine a
    /// date-time at an offset, and `%F %T` doesn't.
    pub fn for_offset_date_times(self) -> Option<OffsetDateTimeFormat>
        ensures determines { IsSome result ↔ DeterminesOffsetDateTime self }
        ensures same { IfSome result (λ format. format ≡ self) }
    {
        determining!(self, [0..MOMENT_END] shows_moment => OffsetDateTimeFormat { format: self })
    }
}

impl DateFormat {
    /// Returns its items as a format of any values.
    pub fn as_format(&self) -> &Format
        ensures items { result.now ≡ self.now }
        ensures determines { DeterminesDate self.now }
    {
        &self.format
    }

    /// Parses a text. Returns the date that the format holds and prints as this text, if it is the
    /// text of a date. The format holds a date if each year that it shows is from 0 to 9999.
    ///
    /// Returns `UnexpectedByte` or `UnexpectedEnd` if the text doesn't have the form of the format,
    /// `OutOfRange` with the first component out of range, or `Contradiction` with the first
    /// component that isn't the component of the value. For example, `%F` rejects `2023-02-29` with
    /// `OutOfRange` of the day.
    pub fn parse(&self, text: &[u8]) -> Result<Date, ParseError>
        ensures every { (n : ℕ) → IsDate n → AreHeld (moment_of_date n) self.now
            → text.now ≡ text_of self.now (moment_of_date n)
            → result ≡ Ok n }
        ensures value { IfOk result (λ n. IsDate n × AreHeld (moment_of_date n) self.now
            × (text.now ≡ text_of self.now (moment_of_date n))) }
        ensures error { IfErr result (IsRejection self.now text.now) }
        ensures determines { DeterminesDate self.now }
    {
        if let Some(date) = parse_date_once(&self.format, text) {
            return Ok(date);
        }
        match self.format.parse(text) {
            Ok(moment) => Ok(moment.date),
            Err(error) => Err(error),
        }
    }
}

impl TimeFormat {
    /// Returns its items as a format of any values.
    pub fn as_format(&self) -> &Format
        ensures items { result.now ≡ self.now }
        ensures determines { DeterminesTime self.now }
    {
        &self.format
    }

    /// Parses a text. Returns the time of day that the format holds and prints as this text, if it
    /// is the text of a time. The format holds a time if each part that it doesn't show is 0.
    ///
    /// Returns `UnexpectedByte` or `UnexpectedEnd` if the text doesn't have the form of the format,
    /// `OutOfRange` with the first component out of range, or `Contradiction` with the first
    /// component that isn't the component of the value. For example, `%T` rejects `24:00:00` with
    /// `OutOfRange` of the hour.
    pub fn parse(&self, text: &[u8]) -> Result<Time, ParseError>
        ensures every { (n : ℕ) → IsTime n → IsTrue (holds_time self.now n)
            → text.now ≡ text_of self.now (moment_of_time n)
            → result ≡ Ok n }
        ensures value { IfOk result (λ n. IsTime n × IsTrue (holds_time self.now n)
            × (text.now ≡ text_of self.now (moment_of_time n))) }
        ensures error { IfErr result (IsRejection self.now text.now) }
        ensures determines { DeterminesTime self.now }
    {
        if let Some(time) = parse_time_once(&self.format, text) {
            return Ok(time);
        }
        match self.format.parse(text) {
            Ok(moment) => Ok(moment.time),
            Err(error) => Err(error),
        }
    }
}

impl OffsetFormat {
    /// Parses a text. Returns the offset that the format holds and prints as this text, if it is
    /// the text of an offset. The format holds an offset if each part that it doesn't show is 0.
    ///
    /// Returns `UnexpectedByte` or `UnexpectedEnd` if the text doesn't have the form of the format,
    /// `OutOfRange` with the first component out of range, or `Contradiction` with the first
    /// component that isn't the component of the value. For example, `%z` rejects `+2600` with
    /// `OutOfRange` of the offset hour.
    pub fn parse(&self, text: &[u8]) -> Result<UtcOffset, ParseError>
        ensures every { (o : ℤ) → IsOffset o → IsTrue (holds_offset self.now o)
            → text.now ≡ text_of self.now (moment_of_offset o)
            → result ≡ Ok o }
        ensures value { IfOk result (λ o. IsOffset o × IsTrue (holds_offset self.now o)
            × (text.now ≡ text_of self.now (moment_of_offset o))) }
        ensures error { IfErr result (IsRejection self.now text.now) }
        ensures determines { DeterminesOffset self.now }
    {
        match self.format.parse(text) {
            Ok(moment) => Ok(moment.offset),
            Err(error) => Err(error),
        }
    }
}

impl DateTimeFormat {
    /// Returns its items as a format of any values.
    pub fn as_format(&self) -> &Format
        ensures items { result.now ≡ self.now }
        ensures determines { DeterminesDateTime self.now }
    {
        &self.format
    }

    /// Parses a text. Returns the date-time that the format holds and prints as this text, if it is
    /// the text of a date-time. The format holds a date-time if each year that it shows is from 0
    /// to 9999, and each part of the time of day that it doesn't show is 0.
    ///
    /// Returns `UnexpectedByte` or `UnexpectedEnd` if the text doesn't have the form of the format,
    /// `OutOfRange` with the first component out of range, or `Contradiction` with the first
    /// component that isn't the component of the value. For example, `%F %R` rejects
    /// `2024-02-29 24:00` with `OutOfRange` of the hour.
    pub fn parse(&self, text: &[u8]) -> Result<PlainDateTime, ParseError>
        ensures every { (z : ℤ) → IsDateTime z → AreHeld (moment_of_date_time z) self.now
            → IsTrue (holds_time self.now (time_at z))
            → text.now ≡ text_of self.now (moment_of_date_time z)
            → result ≡ Ok z }
        ensures value { IfOk result (λ z. IsDateTime z × AreHeld (moment_of_date_time z) self.now
            × IsTrue (holds_time self.now (time_at z))
            × (text.now ≡ text_of self.now (moment_of_date_time z))) }
        ensures error { IfErr result (IsRejection self.now text.now) }
        ensures determines { DeterminesDateTime self.now }
    {
        if let Some(date_time) = parse_pair_once(&self.format, text) {
            return Ok(date_time);
        }
        match self.format.parse(text) {
            Ok(moment) => Ok(PlainDateTime::new(moment.date, moment.time)),
            Err(error) => Err(error),
        }
    }
}

impl OffsetDateTimeFormat {
    /// Returns its items as a format of any values.
    pub fn as_format(&self) -> &Format
        ensures items { result.now ≡ self.now }
        ensures determines { DeterminesOffsetDateTime self.now }
    {
        &self.format
    }

    /// Parses a text. Returns the date-time that the format holds and prints as this text, if it is
    /// the text of a date-time. The format holds a date-time if each year that it shows is from 0
    /// to 9999, and each part of the time of day and of the offset that it doesn't determine is 0.
    /// A Unix time determines the date and the whole seconds.
    ///
    /// Returns `UnexpectedByte` or `UnexpectedEnd` if the text doesn't have the form of the format,
    /// `OutOfRange` with the first component out of range, or `Contradiction` with the first
    /// component that isn't the component of the value. For example, `%F %R %z` rejects
    /// `2024-02-30 12:00 +0000` with `OutOfRange` of the day.
    pub fn parse(&self, text: &[u8]) -> Result<OffsetDateTime, ParseError>
        ensures every { (m : LocalAndOffset) → IsDateTime m.local → IsOffset m.offset
            → AreHeld (moment_of_offset_date_time m) self.now
            → IsTrue (holds_time self.now (time_at m.local))
            → IsTrue (holds_offset self.now m.offset)
            → text.now ≡ text_of self.now (moment_of_offset_date_time m)
            → result ≡ Ok m }
        ensures value { IfOk result (λ m. IsDateTime m.local × IsOffset m.offset
            × AreHeld (moment_of_offset_date_time m) self.now
            × IsTrue (holds_time self.now (time_at m.local))
            × IsTrue (holds_offset self.now m.offset)
            × (text.now ≡ text_of self.now (moment_of_offset_date_time m))) }
        ensures error { IfErr result (IsRejection self.now text.now) }
        ensures determines { DeterminesOffsetDateTime self.now }
    {
        match self.format.parse(text) {
            Ok(moment) => Ok(OffsetDateTime::new_in_offset(
                moment.date,
                moment.time,
                moment.offset,
            )),
            Err(error) => Err(error),
        }
    }
}
