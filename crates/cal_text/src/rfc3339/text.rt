//! The text of a moment.
ghost use Rattle.std.specs.Prelude.{◌≡◌, ◌+◌, ◌≤◌, ◌++◌, IfSome, SomeIff, codes, length, pos, Some};
ghost use Rattle.std.specs.Fmt.{padded};
ghost use Rattle.cal_time.specs.Date.{year_at, month_at, day_of_month_at};
ghost use Rattle.cal_time.specs.DateText.{digits_at_least};
ghost use Rattle.cal_time.specs.Time.{hour_of, minute_of, second_of};
ghost use Rattle.cal_time.specs.ShortText.{HasRoom};
ghost use Rattle.cal_datetime.specs.DateTime.{date_at, time_at};
ghost use Rattle.cal_text.specs.Rfc3339.{HasMomentText, offset_text, rfc3339_text};
ghost use Rattle.cal_text.specs.DateForms.{year_text};
ghost use Rattle.cal_text.specs.Rfc3339Form.{IsMomentText};

use crate::fraction::push_fraction;
use cal_datetime::OffsetDateTime;
use cal_time::{Date, ShortText, Time, UtcOffset};
use std::fmt;

/// A moment that prints in RFC 3339, such as `2024-02-29T23:59:59.25+01:00`. The fraction of the
/// second has no trailing zeros and is left out if it is 0. The offset of UTC is `Z`. A width pads
/// the whole text. Equal values print the same text.
#[derive(Clone, Copy, Debug, PartialEq, Eq)]
pub struct Text {
    date: Date,
    time: Time,
    offset: UtcOffset,
}

impl Text {
    /// Creates the text of a moment. Returns `None` if RFC 3339 has no text for it: for a year
    /// outside 0 to 9999, or an offset of 24 hours or more or with seconds, such as +05:30:15.
    pub fn new(moment: OffsetDateTime) -> Option<Self>
        ensures value { SomeIff result (HasMomentText moment)
            (record {
              date = date_at moment.local;
              time = time_at moment.local;
              offset = moment.offset;
            }) }

        // The text parses as this moment.
        ensures text { IfSome result (λ text.
            IsMomentText (rfc3339_text text.date text.time text.offset) moment) }
    {
        let date = moment.date();
        let time = moment.time();
        let offset = moment.offset();
        let year = date.year();
        let seconds = offset.whole_seconds().unsigned_abs();
        if year < 0 || year > 9999 || seconds % 60 != 0 || seconds >= 86_400 {
            return None;
        }
        Some(Text { date, time, offset })
    }

    /// Returns the text, at most 38 bytes. For 2024-02-29 8:00 +00:00:00 it is
    /// `2024-02-29T08:00:00Z`.
    pub fn text(self) -> ShortText
        ensures value { result ≡ rfc3339_text self.date self.time self.offset }
        ensures max_length { length result ≤ 38 }
    {
        let mut text = ShortText::new();
        self.push_to(&mut text);
        text
    }

    /// Appends what [`Self::text`] returns, at most 38 bytes, which must fit. This saves a move of the
    /// text.
    pub fn push_to(self, text: &mut ShortText)
        requires { HasRoom 38 text.old }
        ensures appended { text.new ≡ text.old ++ rfc3339_text self.date self.time self.offset }
        ensures max_length { length text.new ≤ length text.old + 38 }
    {
        push_date(text, self.date);
        text.push("T");
        push_time(text, self.time);
        push_fraction(text, self.time.nanosecond());
        push_offset(text, self.offset);
    }
}

/// Appends the year, the month and the day.
#[tactic(auto, using(cal_time::proofs::TextLengths::text_lengths))]
fn push_date(text: &mut ShortText, date: Date)
    requires { HasRoom 13 text.old }
    ensures appended { text.new ≡ text.old ++ year_text (year_at date) ++ codes "-"
        ++ digits_at_least 2 (month_at date)
        ++ codes "-" ++ digits_at_least 2 (day_of_month_at date) }
    ensures max_length { length text.new ≤ length text.old + 13 }
{
    let (month_index, day) = date.month_index_and_day();
    text.push_year(date.year());
    text.push("-");
    text.push_two_digits(u32::from(month_index) + 1);
    text.push("-");
    text.push_two_digits(u32::from(day));
}

/// Appends the hour, the minute and the second.
fn push_time(text: &mut ShortText, time: Time)
    requires { HasRoom 8 text.old }
    ensures appended { text.new ≡ text.old ++ digits_at_least 2 (hour_of time) ++ codes ":"
        ++ digits_at_least 2 (minute_of time)
        ++ codes ":" ++ digits_at_least 2 (second_of time) }
    ensures length { length text.new ≡ length text.old + 8 }
{
    let (hour, minute, second) = time.as_hms();
    text.push_two_digits(u32::from(hour));
    text.push(":");
    text.push_two_digits(u32::from(minute));
    text.push(":");
    text.push_two_digits(u32::from(second));
}

/// Appends the offset from UTC.
fn push_offset(text: &mut ShortText, offset: UtcOffset)
    requires { HasRoom 6 text.old }
    ensures appended { text.new ≡ text.old ++ offset_text offset }
    ensures max_length { length text.new ≤ length text.old + 6 }
{
    if offset.is_utc() {
        text.push("Z");
        return;
    }
    let minutes = offset.whole_seconds().unsigned_abs() / 60;
    text.push(if offset.is_negative() { "-" } else { "+" });
    text.push_two_digits(minutes / 60);
    text.push(":");
    text.push_two_digits(minutes % 60);
}

impl fmt::Display for Text {
    ghost output = { λ t. Some (rfc3339_text t.date t.time t.offset) };

    ghost styled_output = { λ t spec. Some (padded spec (rfc3339_text t.date t.time t.offset)) };

    fn fmt<W: fmt::Write>(&self, f: &mut fmt::Formatter<W>) -> fmt::Result {
        f.pad(self.text().as_str())
    }
}
