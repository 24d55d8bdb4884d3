//! The string of a date or a moment in forms that `cal_text` doesn't have.
ghost use Rattle.std.specs.Prelude.{◌≡◌, ◌≤◌, length, MatchOption};
ghost use Rattle.std.specs.Fmt.{signed_decimal};
ghost use Rattle.cal_datetime.specs.OffsetDateTime.{instant, unix_nanoseconds};
ghost use Rattle.caldate_answers.specs.Forms.{HasBasicText, basic_text, month_text, quarter_text, units_in};

use crate::answer::signed::signed_text;
use crate::request::UnixUnit;
use cal_datetime::OffsetDateTime;
use cal_schedule::quarter;
use cal_time::{Cycle, Date, ShortText};

/// Formats the month of a date, such as `2024-02`.
#[tactic(auto, using(cal_time::proofs::TextLengths::text_lengths))]
pub fn month_text(date: Date) -> ShortText
    ensures text { result ≡ month_text date }
    ensures short { length result ≤ 10 }
{
    let (year, month, _) = date.to_calendar_date();
    let mut text = ShortText::new();
    text.push_year(year);
    text.push("-");
    text.push_two_digits(u32::from(month.place()) + 1);
    text
}

/// Formats the quarter of a date, such as `2024-Q1`.
#[tactic(auto, using(cal_time::proofs::TextLengths::text_lengths))]
pub fn quarter_text(date: Date) -> ShortText
    ensures text { result ≡ quarter_text date }
    ensures short { length result ≤ 10 }
{
    let mut text = ShortText::new();
    text.push_year(date.year());
    text.push("-Q");
    text.push_digit(u32::from(quarter(date)));
    text
}

/// Formats a date in the basic format of ISO 8601, such as `20240229`, if its year is 0 to 9999.
#[tactic(auto, using(cal_time::proofs::TextLengths::text_lengths))]
pub fn basic_text(date: Date) -> Option<ShortText>
    ensures { MatchOption result (¬ HasBasicText date)
        (λ text. HasBasicText date × (text ≡ basic_text date) × (length text ≤ 11)) }
{
    let (year, month, day) = date.to_calendar_date();
    if year < 0 || year > 9_999 {
        return None;
    }
    let mut text = ShortText::new();
    text.push_year(year);
    text.push_two_digits(u32::from(month.place()) + 1);
    text.push_two_digits(u32::from(day));
    Some(text)
}

/// Formats a Unix time in whole units, rounded toward the past, such as `1709164800500`.
pub fn unix_text(unit: UnixUnit, moment: OffsetDateTime) -> ShortText
    ensures text { result ≡ signed_decimal (units_in unit (unix_nanoseconds (instant moment))) }
    ensures short { length result ≤ 40 }
{
    let nanoseconds = moment.unix_timestamp_nanos();
    signed_text(match unit {
        UnixUnit::Milliseconds => nanoseconds.div_euclid(1_000_000),
        UnixUnit::Microseconds => nanoseconds.div_euclid(1_000),
        UnixUnit::Nanoseconds => nanoseconds,
    })
}
