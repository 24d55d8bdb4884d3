//! How far a recurrence in text is counted, for C.
ghost use Rattle.std.specs.Prelude.{◌≡◌, SomeIff};
ghost use Rattle.cal_recurrence.specs.Days.{count_or};
ghost use Rattle.cal_recurrence.specs.Text.{recurrence_of};
ghost use Rattle.cal_recurrence.specs.declared.day_cursor.DayCursor.{DayCursor};
ghost use Rattle.cal_recurrence.specs.declared.reading_cursor.ReadingCursor.{ReadingCursor};
ghost use Rattle.cal_c.specs.Moments.{IsMoment, local_in};
ghost use Rattle.cal_c.specs.RecurrenceCursors.{first_cursor, first_cursor_result, last_moment, IsDayCursor, IsReadingCursor};

use super::readings::utc_moment;
use super::results::{error_part, reason_status};
use crate::moment::valid_moment;
use crate::results::Moment;
use crate::status::OK;
use crate::values::valid_date;
use cal_datetime::PlainDateTime;
use cal_recurrence::{DayCursor, ReadingCursor, Recurrence, RuleEnd, parse};

/// How far a recurrence is counted. Any numbers are valid: if the date or the time isn't, nothing is
/// counted.
#[repr(C)]
#[derive(Clone, Copy, Debug)]
pub struct RecurrenceCursor {
    /// The last day that is counted, or the date of the last reading. Or `i32::MIN`.
    pub date: i32,
    /// The maximum number of days or readings after it.
    pub left: u32,
    /// The time of day of the last reading, or 0.
    pub time: u64,
}

/// A cursor, or the first wrong part of the text.
#[repr(C)]
#[derive(Clone, Copy, Debug)]
pub struct RecurrenceCursorResult {
    pub status: i32,
    /// The number of the wrong part, from 1 for `FREQ`, or 0.
    pub part: u32,
    /// The position of the wrong part.
    pub position: usize,
    pub cursor: RecurrenceCursor,
}

/// Returns the cursor of a recurrence in text for which nothing is counted. For
/// `FREQ=DAILY;COUNT=3` it has 3 days left, and without a `COUNT` 4294967295.
#[unsafe(no_mangle)]
pub extern "C" fn fots_recurrence_cursor_new(text: &[u8]) -> RecurrenceCursorResult
    ensures { result ≡ first_cursor_result (recurrence_of text.now) }
{
    match parse(text) {
        Ok(recurrence) => RecurrenceCursorResult {
            status: OK,
            part: 0,
            position: usize::MAX,
            cursor: RecurrenceCursor::first(&recurrence),
        },
        Err(fault) => RecurrenceCursorResult {
            status: reason_status(fault.reason),
            part: error_part(fault.reason),
            position: fault.position,
            cursor: RecurrenceCursor::before_all(0),
        },
    }
}

impl RecurrenceCursor {
    /// Creates a cursor for which nothing is counted.
    fn before_all(left: u32) -> Self
        ensures { result ≡ first_cursor left }
    {
        RecurrenceCursor {
            date: i32::MIN,
            left,
            time: 0,
        }
    }

    fn first(recurrence: &Recurrence) -> Self
        ensures { result ≡ first_cursor (count_or 4294967295 recurrence.now.end) }
    {
        match recurrence.end {
            RuleEnd::Count(count) => Self::before_all(count.get()),
            // The range has fewer days than this.
            RuleEnd::Never | RuleEnd::Until(_) => Self::before_all(u32::MAX),
        }
    }

    /// Creates the cursor of days.
    pub(super) fn from_days(cursor: DayCursor) -> Self
        ensures { IsDayCursor result cursor }
    {
        match cursor.last {
            Some(last) => RecurrenceCursor {
                date: last.to_julian_day(),
                left: cursor.left,
                time: 0,
            },
            None => Self::before_all(cursor.left),
        }
    }

    /// Returns the cursor of days.
    pub(super) fn days(&self) -> DayCursor
        ensures { IsDayCursor self.now result }
    {
        DayCursor {
            last: valid_date(self.date),
            left: self.left,
        }
    }

    /// Creates the cursor of readings.
    pub(super) fn from_readings(cursor: ReadingCursor) -> Self
        ensures { IsReadingCursor result cursor }
    {
        match cursor.last {
            Some(last) => {
                let moment = utc_moment(last);
                RecurrenceCursor {
                    date: moment.date,
                    left: cursor.left,
                    time: moment.time,
                }
            }
            None => Self::before_all(cursor.left),
        }
    }

    /// Returns the cursor of readings.
    pub(super) fn readings(&self) -> ReadingCursor
        ensures { IsReadingCursor self.now result }
    {
        ReadingCursor {
            last: self.last_reading(),
            left: self.left,
        }
    }

    fn last_reading(&self) -> Option<PlainDateTime>
        ensures { SomeIff result (IsMoment (last_moment self.now)) (local_in (last_moment self.now)) }
    {
        let moment = valid_moment(Moment {
            date: self.date,
            offset: 0,
            time: self.time,
        })?;
        Some(moment.local())
    }
}
