//! Holidays, from a file with a date or a rule in each line.
ghost use Rattle.std.specs.Prelude.{◌≡◌, ◌↔◌, ◌⊎◌, ◌+◌, ◌<◌, ◌≤◌, ◌++◌, ◌∷◌, [], List, ℕ, Contains, IfErr, IfNone, IfOk, IfSome, length, min, take};
ghost use Rattle.cal_time.specs.Counted.{IsRising};
ghost use Rattle.cal_time.specs.Date.{julian_day_at};
ghost use Rattle.caldate_lines.specs.Lines.{lines_of};
ghost use Rattle.cal_holidays.specs.Holidays.{AreMore};
ghost use Rattle.caldate_args.specs.Holidays.{AreHolidays, AreReadHolidays, IsDayOf, IsFirstError, IsLineError};

pub(crate) mod calendar_holidays;
pub(crate) mod holiday_line;
pub mod read_holidays_error;

use crate::holidays::calendar_holidays::{FIRST_DAY, LAST_DAY};
use crate::holidays::holiday_line::{HolidayLine, parse_holiday_line};
use crate::holidays::read_holidays_error::{HolidayLineError, ReadHolidaysError};
use crate::zones::zone_source::read_whole;
use cal_date::day_number::to_date;
use cal_holidays::add_rule;
use cal_holidays::day_list::add_date;
use cal_time::Date;
use caldate_lines::lines::first_line;
use caldate_lines::streams::Source;

/// The size of the buffer for the file of the holidays, in bytes. The file must have fewer.
const MAX_BYTES: usize = 16_384;

/// The maximum number of holidays of such a file, or of a calendar.
pub const MAX_HOLIDAYS: usize = 8192;

/// Reads the file of the holidays, and writes them to the front of the buffer. Returns them as
/// `parse_holidays` does.
pub(crate) fn read_holidays<'a, R: Source>(
    file: &mut R,
    days: &'a mut [Date; MAX_HOLIDAYS],
) -> Result<&'a [Date], ReadHolidaysError>
    ensures read { AreReadHolidays (R.remaining file.old) (R.remaining file.new) result }
    ensures rising { IfOk result (λ days. IsRising julian_day_at days.now) }
{
    let mut buffer = [0u8; MAX_BYTES];
    match read_whole(file, &mut buffer) {
        Ok(length) => parse_holidays(&buffer[..length], days),
        Err(error) => Err(ReadHolidaysError::File(error)),
    }
}

/// Parses the lines of a file, in any order, and writes their dates, and the holidays of their rules
/// from 1900 through 2199, to the front of the buffer. Returns them in ascending order and each once,
/// or the first line that is neither a date nor a rule, or for which the buffer has no room. Lines
/// without words are left out; `#` begins a comment.
///
/// The lines `2024-12-26`, `# Christmas` and `12-25 2024..2025` give 2024-12-25, 2024-12-26 and
/// 2025-12-25. If the second is `Christmas`, the error is `Line(2, NoDate(UnexpectedByte(0)))`.
fn parse_holidays<'a>(
    bytes: &[u8],
    days: &'a mut [Date; MAX_HOLIDAYS],
) -> Result<&'a [Date], ReadHolidaysError>
    requires { length bytes.now ≤ 16384 }
    ensures days { IfOk result (λ days. AreHolidays (lines_of bytes.now) days.now) }
    ensures error { IfErr result (IsFirstError (lines_of bytes.now)) }
{
    match parse_lines(bytes, days) {
        Ok(count) => Ok(&days[..count]),
        Err(error) => Err(error),
    }
}

/// Parses the lines, writes their holidays to the front of the buffer, and returns how many it has.
fn parse_lines(bytes: &[u8], days: &mut [Date; MAX_HOLIDAYS]) -> Result<usize, ReadHolidaysError>
    requires { length bytes.now ≤ 16384 }
    ensures most { IfOk result (λ count. count ≤ 8192) }
    ensures days { IfOk result (λ count. AreHolidays (lines_of bytes.now) (take count days.new)) }
    ensures error { IfErr result (IsFirstError (lines_of bytes.now)) }
{
    let mut count = 0;
    let mut number = 1;
    let mut rest = bytes;
    while rest.len() > 0 {
        let (line, after) = cut_line(rest);
        match add_line(days, count, line) {
            Ok(more) => count = more,
            Err(error) => return Err(ReadHolidaysError::Line(number, error)),
        }
        number += 1;
        rest = after;
    }
    Ok(count)
}

/// Returns the first line, without its line feed, and the bytes after it.
fn cut_line(bytes: &[u8]) -> (&[u8], &[u8])
    requires { 0 < length bytes.now }
    ensures lines { lines_of bytes.now ≡ result.0.now ∷ lines_of result.1.now }
    ensures shorter { length result.1.now < length bytes.now }
    ensures within { length result.0.now + length result.1.now + min 1 (length result.1.now)
        ≤ length bytes.now }
{
    match first_line(bytes) {
        Some(parts) => parts,
        None => (bytes, b""),
    }
}

/// Adds the holidays of a line to those at the front of the buffer, and returns how many it has.
fn add_line(
    days: &mut [Date; MAX_HOLIDAYS],
    count: usize,
    line: &[u8],
) -> Result<usize, HolidayLineError>
    requires most { count ≤ 8192 }
    requires rising { IsRising julian_day_at (take count days.old) }
    ensures most { IfOk result (λ more. more ≤ 8192) }
    ensures days { (lines : List (List ℕ)) → AreHolidays lines (take count days.old)
        → IfOk result (λ more. AreHolidays (lines ++ line.now ∷ []) (take more days.new)) }
    ensures error { (lines : List (List ℕ)) → AreHolidays lines (take count days.old)
        → IfErr result (IsLineError lines line.now) }
{
    let meaning = match parse_holiday_line(line) {
        Ok(meaning) => meaning,
        Err(error) => return Err(error),
    };
    match add_holidays(days, count, meaning) {
        Some(more) => Ok(more),
        None => Err(HolidayLineError::TooMany),
    }
}

/// Adds the holidays of the meaning of a line to those at the front of the buffer. Returns how many
/// it has, or `None` if it has no room for them.
fn add_holidays(
    days: &mut [Date; MAX_HOLIDAYS],
    count: usize,
    meaning: HolidayLine,
) -> Option<usize>
    requires most { count ≤ 8192 }
    requires rising { IsRising julian_day_at (take count days.old) }
    ensures most { IfSome result (λ more. more ≤ 8192) }
    ensures rising { IfSome result (λ more. IsRising julian_day_at (take more days.new)) }
    ensures days { IfSome result (λ more. (n : ℕ) → Contains (take more days.new) n
        ↔ IsDayOf meaning n ⊎ Contains (take count days.old) n) }
    ensures full { IfNone result
        (AreMore (λ n. IsDayOf meaning n ⊎ Contains (take count days.old) n) 8192) }
{
    match meaning {
        HolidayLine::Empty => Some(count),
        HolidayLine::Date(date) => add_date(days, count, date),
        HolidayLine::Rule(rule) => {
            add_rule(rule, to_date(FIRST_DAY), to_date(LAST_DAY), days, count)
        }
    }
}
