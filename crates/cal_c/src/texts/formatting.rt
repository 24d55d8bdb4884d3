//! Strings of dates and moments, and names.
ghost use Rattle.std.specs.Prelude.{◌≡◌};
ghost use Rattle.cal_time.specs.DateText.{text};
ghost use Rattle.cal_time.specs.Time.{IsTime};
ghost use Rattle.cal_time.specs.UtcOffset.{IsOffset};
ghost use Rattle.cal_datetime.specs.OffsetDateTime.{instant, unix_nanoseconds};
ghost use Rattle.cal_text.specs.DateForms.{ordinal_text, week_text};
ghost use Rattle.cal_text.specs.JulianForm.{julian_text};
ghost use Rattle.cal_text.specs.Rfc3339.{HasMomentText, moment_text};
ghost use Rattle.cal_text.specs.UnixText.{unix_text};
ghost use Rattle.cal_c.specs.Texts.{month_name, text_ok, text_error, weekday_name};
ghost use Rattle.cal_c.specs.Values.{IsJulianDay, IsMonth, IsWeekday, day_of, moment_of};

use crate::status::{
    INVALID_DATE, INVALID_OFFSET, INVALID_TIME, INVALID_WEEKDAY, MONTH_OUT_OF_RANGE,
    RESULT_OUT_OF_RANGE,
};
use crate::texts::TextResult;
use crate::values::{valid_date, valid_month, valid_offset, valid_time, valid_weekday};
use cal_datetime::OffsetDateTime;
use cal_text::date::{CalendarText, OrdinalText, WeekText};
use cal_text::julian_day::JulianText;
use cal_text::{rfc3339, unix};

/// Returns the calendar date in text, such as `2024-02-29`.
#[unsafe(no_mangle)]
pub extern "C" fn fots_date_calendar_text(date: i32) -> TextResult
    ensures invalid_date { ¬ IsJulianDay date → result ≡ text_error INVALID_DATE }
    ensures value { IsJulianDay date → result ≡ text_ok (text (day_of date)) }
{
    let date = or_error!(TextResult, valid_date(date), INVALID_DATE);
    TextResult::ok(CalendarText(date).text().as_bytes())
}

/// Returns the ordinal date in text, such as `2024-060`.
#[unsafe(no_mangle)]
pub extern "C" fn fots_date_ordinal_text(date: i32) -> TextResult
    ensures invalid_date { ¬ IsJulianDay date → result ≡ text_error INVALID_DATE }
    ensures value { IsJulianDay date → result ≡ text_ok (ordinal_text (day_of date)) }
{
    let date = or_error!(TextResult, valid_date(date), INVALID_DATE);
    TextResult::ok(OrdinalText(date).text().as_bytes())
}

/// Returns the week date in text, such as `2024-W09-4`.
#[unsafe(no_mangle)]
pub extern "C" fn fots_date_week_text(date: i32) -> TextResult
    ensures invalid_date { ¬ IsJulianDay date → result ≡ text_error INVALID_DATE }
    ensures value { IsJulianDay date → result ≡ text_ok (week_text (day_of date)) }
{
    let date = or_error!(TextResult, valid_date(date), INVALID_DATE);
    TextResult::ok(WeekText(date).text().as_bytes())
}

/// Returns the letter J and the Julian day in text, such as `J2460370`.
#[unsafe(no_mangle)]
pub extern "C" fn fots_date_julian_text(date: i32) -> TextResult
    ensures invalid_date { ¬ IsJulianDay date → result ≡ text_error INVALID_DATE }
    ensures value { IsJulianDay date → result ≡ text_ok (julian_text (day_of date)) }
{
    let date = or_error!(TextResult, valid_date(date), INVALID_DATE);
    TextResult::ok(JulianText(date).text().as_bytes())
}

/// Returns a date, a time and an offset in RFC 3339, such as `2024-02-29T23:59:59.25+01:00`. Fails
/// for a year outside 0 to 9999, and for an offset of 24 hours or more or with seconds.
#[unsafe(no_mangle)]
pub extern "C" fn fots_moment_text(date: i32, time: u64, offset: i32) -> TextResult
    ensures invalid_date { ¬ IsJulianDay date → result ≡ text_error INVALID_DATE }
    ensures invalid_time { IsJulianDay date → ¬ IsTime time → result ≡ text_error INVALID_TIME }
    ensures invalid_offset { IsJulianDay date → IsTime time → ¬ IsOffset offset
        → result ≡ text_error INVALID_OFFSET }
    ensures result_out_of_range { IsJulianDay date → IsTime time → IsOffset offset
        → ¬ HasMomentText (moment_of date time offset)
        → result ≡ text_error RESULT_OUT_OF_RANGE }
    ensures value { IsJulianDay date → IsTime time → IsOffset offset
        → HasMomentText (moment_of date time offset)
        → result ≡ text_ok (moment_text (moment_of date time offset)) }
{
    let date = or_error!(TextResult, valid_date(date), INVALID_DATE);
    let time = or_error!(TextResult, valid_time(time), INVALID_TIME);
    let offset = or_error!(TextResult, valid_offset(offset), INVALID_OFFSET);
    moment_text_result(OffsetDateTime::new_in_offset(date, time, offset))
}

/// Returns a moment in RFC 3339, or fails if it has no string.
fn moment_text_result(moment: OffsetDateTime) -> TextResult
    ensures result_out_of_range { ¬ HasMomentText moment → result ≡ text_error RESULT_OUT_OF_RANGE }
    ensures value { HasMomentText moment → result ≡ text_ok (moment_text moment) }
{
    let text = or_error!(TextResult, rfc3339::Text::new(moment), RESULT_OUT_OF_RANGE);
    TextResult::ok(text.text().as_bytes())
}

/// Returns the Unix time of a date and a time at an offset, such as `@1709164800.5`.
#[unsafe(no_mangle)]
pub extern "C" fn fots_unix_text(date: i32, time: u64, offset: i32) -> TextResult
    ensures invalid_date { ¬ IsJulianDay date → result ≡ text_error INVALID_DATE }
    ensures invalid_time { IsJulianDay date → ¬ IsTime time → result ≡ text_error INVALID_TIME }
    ensures invalid_offset { IsJulianDay date → IsTime time → ¬ IsOffset offset
        → result ≡ text_error INVALID_OFFSET }
    ensures value { IsJulianDay date → IsTime time → IsOffset offset
        → result ≡ text_ok (unix_text (unix_nanoseconds (instant (moment_of date time offset)))) }
{
    let date = or_error!(TextResult, valid_date(date), INVALID_DATE);
    let time = or_error!(TextResult, valid_time(time), INVALID_TIME);
    let offset = or_error!(TextResult, valid_offset(offset), INVALID_OFFSET);
    unix_text_result(OffsetDateTime::new_in_offset(date, time, offset))
}

/// Returns the Unix time of a moment in text.
fn unix_text_result(moment: OffsetDateTime) -> TextResult
    ensures { result ≡ text_ok (unix_text (unix_nanoseconds (instant moment))) }
{
    TextResult::ok(unix::Text::new(moment).text().as_bytes())
}

/// Returns the English name of a month, or the error `month`. For 2 it is February.
#[tactic(auto, using(crate::proofs::TextBytes::names))]
#[unsafe(no_mangle)]
pub extern "C" fn fots_month_name(month: u32) -> TextResult
    ensures month { ¬ IsMonth month → result ≡ text_error MONTH_OUT_OF_RANGE }
    ensures value { IsMonth month → result ≡ text_ok (month_name month) }
{
    let month = or_error!(TextResult, valid_month(month), MONTH_OUT_OF_RANGE);
    TextResult::ok(month.name().as_bytes())
}

/// Returns the English name of a weekday. For 4 it is Thursday.
#[tactic(auto, using(crate::proofs::TextBytes::names))]
#[unsafe(no_mangle)]
pub extern "C" fn fots_weekday_name(weekday: u32) -> TextResult
    ensures invalid_weekday { ¬ IsWeekday weekday → result ≡ text_error INVALID_WEEKDAY }
    ensures value { IsWeekday weekday → result ≡ text_ok (weekday_name weekday) }
{
    let weekday = or_error!(TextResult, valid_weekday(weekday), INVALID_WEEKDAY);
    TextResult::ok(weekday.name().as_bytes())
}
