//! The files of zones, holidays and events, as the system has them.
ghost use Rattle.std.specs.Prelude.{◌≡◌, IfOk, IfSome, true};
ghost use Rattle.cal_time.specs.Counted.{IsRising};
ghost use Rattle.cal_time.specs.Date.{julian_day_at};
ghost use Rattle.cal_recurrence.specs.Words.{parts_at};
ghost use Rattle.caldate_args.specs.Events.{AreValid};
ghost use Rattle.caldate_args.specs.Zones.{is_zone_name};

use crate::args::names::value_named;
use crate::data_files::data_error::DataError;
use crate::events::read_events_error::ReadEventsError;
use crate::events::{Calendar, MAX_CALENDAR_BYTES, read_calendar};
use crate::holidays::calendar_holidays::calendar_holidays;
use crate::holidays::read_holidays_error::ReadHolidaysError;
use crate::holidays::{MAX_HOLIDAYS, read_holidays};
use crate::zones::read_zone_error::{FileError, ReadZoneError};
use crate::zones::zone_source::{MAX_FILE_BYTES, open_file, open_zone};
use crate::zones::{is_zone_name, read_zone};
use cal_holidays::CALENDARS;
use cal_time::Date;
use cal_zone::Zone;
use std::fs::Files;

/// The files of the system, with room for two zones, the holidays of one file and the events of one.
/// No clause says what is read, since contracts know nothing about the files of the system.
#[derive(Drop)]
pub struct SystemFiles<'s, 'a, S: Files> {
    system: &'s S,
    folder: Option<&'a [u8]>,
    first: Option<&'a mut [u8; MAX_FILE_BYTES]>,
    second: Option<&'a mut [u8; MAX_FILE_BYTES]>,
    days: Option<&'a mut [Date; MAX_HOLIDAYS]>,
    calendar: Option<&'a mut [u8; MAX_CALENDAR_BYTES]>,
    /// Why the last file has no contents, or the last format has an ambiguous string.
    reason: Option<DataError<'a>>,
}

impl<'s, 'a, S: Files> SystemFiles<'s, 'a, S> {
    /// Creates a value without files. The zones are in `folder`, or `None` if its path is too long.
    pub fn new(
        system: &'s S,
        folder: Option<&'a [u8]>,
        first: &'a mut [u8; MAX_FILE_BYTES],
        second: &'a mut [u8; MAX_FILE_BYTES],
        days: &'a mut [Date; MAX_HOLIDAYS],
        calendar: &'a mut [u8; MAX_CALENDAR_BYTES],
    ) -> Self {
        SystemFiles {
            system,
            folder,
            first: Some(first),
            second: Some(second),
            days: Some(days),
            calendar: Some(calendar),
            reason: None,
        }
    }

    /// Returns the room for one more zone, if there is any.
    fn take_room(&mut self) -> Option<&'a mut [u8; MAX_FILE_BYTES]> {
        match self.first.take() {
            Some(room) => Some(room),
            None => self.second.take(),
        }
    }

    /// Reads the file of a zone in a folder.
    fn zone_in(&mut self, folder: &[u8], name: &[u8]) -> Result<Zone<'a>, ReadZoneError>
        requires { is_zone_name name.now ≡ true }
    {
        let Some(room) = self.take_room() else {
            return Err(ReadZoneError::File(FileError::TooLong));
        };
        match open_zone(self.system, folder, name) {
            Ok(mut file) => read_zone(&mut file, room),
            Err(error) => Err(ReadZoneError::File(error)),
        }
    }

    /// Returns the holidays of the calendar with this name, or else in the file with this name.
    fn holidays_in(&mut self, name: &[u8]) -> Result<&'a [Date], ReadHolidaysError>
        ensures { IfOk result (λ days. IsRising julian_day_at days.now) }
    {
        let Some(days) = self.days.take() else {
            return Err(ReadHolidaysError::File(FileError::TooLong));
        };
        if let Some(rules) = value_named(name, &CALENDARS) {
            return calendar_holidays(rules, days);
        }
        match open_file(self.system, name) {
            Ok(mut file) => read_holidays(&mut file, days),
            Err(error) => Err(ReadHolidaysError::File(error)),
        }
    }

    /// Reads the calendar file with this name.
    fn calendar_in(
        &mut self,
        name: &[u8],
        only_dates: bool,
    ) -> Result<Calendar<'a>, ReadEventsError>
        ensures { IfOk result (λ calendar. AreValid (parts_at 10 calendar.text.now)) }
    {
        let Some(buffer) = self.calendar.take() else {
            return Err(ReadEventsError::File(FileError::TooLong));
        };
        match open_file(self.system, name) {
            Ok(mut file) => read_calendar(&mut file, only_dates, buffer),
            Err(error) => Err(ReadEventsError::File(error)),
        }
    }

    /// Returns the calendar file with this name, or keeps the reason why it has no list of events. With
    /// `only_dates`, each event must start at a date.
    pub(crate) fn calendar(&mut self, name: &[u8], only_dates: bool) -> Option<Calendar<'a>>
        ensures { IfSome result (λ calendar. AreValid (parts_at 10 calendar.text.now)) }
    {
        match self.calendar_in(name, only_dates) {
            Ok(calendar) => Some(calendar),
            Err(error) => {
                self.keep_reason(Some(DataError::Events(error)));
                None
            }
        }
    }

    /// Returns the zone with this name, or why it has none.
    fn zone_named(&mut self, name: &'a [u8]) -> Result<Zone<'a>, DataError<'a>> {
        if !is_zone_name(name) {
            return Err(DataError::Name);
        }
        let Some(folder) = self.folder else {
            return Err(DataError::Variable);
        };
        match self.zone_in(folder, name) {
            Ok(zone) => Ok(zone),
            Err(error) => Err(DataError::Zone(folder, name, error)),
        }
    }

    /// Returns the zone with this name, or keeps the reason why it has none.
    pub fn zone(&mut self, name: &'a [u8]) -> Option<Zone<'a>> {
        match self.zone_named(name) {
            Ok(zone) => Some(zone),
            Err(error) => {
                self.keep_reason(Some(error));
                None
            }
        }
    }

    /// Returns the holidays in the file with this name, in ascending order, or keeps the reason why it
    /// has none.
    pub fn holidays(&mut self, name: &[u8]) -> Option<&'a [Date]>
        ensures { IfSome result (λ days. IsRising julian_day_at days.now) }
    {
        match self.holidays_in(name) {
            Ok(days) => Some(days),
            Err(error) => {
                self.keep_reason(Some(DataError::Holidays(error)));
                None
            }
        }
    }

    /// Keeps the reason why a word is wrong.
    pub(crate) fn keep_reason(&mut self, reason: Option<DataError<'a>>) {
        self.reason = reason;
    }

    /// Returns the reason that is kept, if there is one.
    pub(crate) fn take_reason(&mut self) -> Option<DataError<'a>> {
        self.reason.take()
    }
}
