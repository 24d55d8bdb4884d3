//! The parts of the text of a recurrence.
ghost use Rattle.std.specs.Prelude.{◌≡◌, ◌+◌, ◌*◌, ◌≤◌, ◌++◌, List, ℕ, Option, decimal, length};
ghost use Rattle.std.specs.Fmt.{signed_decimal};
ghost use Rattle.cal_recurrence.specs.RecurrenceText.{HasRoom};
ghost use Rattle.cal_schedule.specs.Values.{most_values};
ghost use Rattle.cal_recurrence.specs.Words.{by_day_of, clock_value_of, month_of, position_of, small_index_of};
ghost use Rattle.cal_recurrence.specs.Written.{by_day_text, date_or_time_text, day_text, end_text, frequency_text, interval_text, list_text, month_text, period_text, position_text, reading_text, week_start_text, weekday_text};

use crate::clock_unit::ClockUnit;
use crate::date_or_time::DateOrTime;
use crate::recurrence::RuleEnd;
use crate::text::RecurrenceText;
use crate::words::{by_day_of, clock_value_of, month_of, position_of, small_index_of};
use cal_datetime::PlainDateTime;
use cal_schedule::{ByDay, Frequency};
use cal_time::{Cycle, Date, Month, ShortText, Weekday};

/// A value of a list, and its text.
pub trait Word: Copy {
    ghost text_of: { Self → List ℕ };

    ghost meaning_of: { ℕ → List ℕ → Option Self };

    /// Returns the text of the value, such as `-1FR`.
    fn word(self) -> ShortText
        ensures text { result ≡ text_of self }
        ensures short { length result ≤ 6 };

    /// Parses a value, or returns `None` if it is invalid. A day of the month, a week,
    /// an hour, a minute or a second is at most `most`.
    fn read(word: &[u8], most: u16) -> Option<Self>
        ensures { result ≡ meaning_of most word.now };
}

impl Word for Month {
    ghost text_of = { month_text };

    ghost meaning_of = { λ most. month_of };

    fn read(word: &[u8], _most: u16) -> Option<Self> {
        month_of(word)
    }

    #[tactic(auto, using(crate::proofs::Digits::three_digits))]
    fn word(self) -> ShortText {
        let mut text = ShortText::new();
        text.push_number(u64::from(self.place()) + 1);
        text
    }
}

impl Word for i8 {
    ghost text_of = { position_text };

    ghost meaning_of = { small_index_of };

    fn read(word: &[u8], most: u16) -> Option<Self> {
        small_index_of(word, most)
    }

    fn word(self) -> ShortText {
        index_text(self)
    }
}

impl Word for u8 {
    ghost text_of = { decimal };

    ghost meaning_of = { clock_value_of };

    fn read(word: &[u8], most: u16) -> Option<Self> {
        clock_value_of(word, most)
    }

    #[tactic(auto, using(crate::proofs::Digits::three_digits))]
    fn word(self) -> ShortText {
        let mut text = ShortText::new();
        text.push_number(u64::from(self));
        text
    }
}

impl Word for i16 {
    ghost text_of = { position_text };

    ghost meaning_of = { λ most. position_of };

    fn read(word: &[u8], _most: u16) -> Option<Self> {
        position_of(word)
    }

    #[tactic(auto, using(crate::proofs::Digits::position_digits, cal_time::proofs::TextLengths::text_lengths))]
    fn word(self) -> ShortText {
        let mut text = ShortText::new();
        text.push_i32(i32::from(self));
        text
    }
}

impl Word for ByDay {
    ghost text_of = { by_day_text };

    ghost meaning_of = { λ most. by_day_of };

    fn read(word: &[u8], _most: u16) -> Option<Self> {
        by_day_of(word)
    }

    fn word(self) -> ShortText {
        match self {
            ByDay::Every(weekday) => {
                let mut text = ShortText::new();
                text.push(weekday_text(weekday));
                text
            }
            ByDay::Nth(index, weekday) => {
                let mut text = index_text(index);
                text.push(weekday_text(weekday));
                text
            }
        }
    }
}

/// Formats a number in decimal.
#[tactic(auto, using(crate::proofs::Digits::index_digits, cal_time::proofs::TextLengths::text_lengths))]
fn index_text(index: i8) -> ShortText
    ensures text { result ≡ signed_decimal index }
    ensures short { length result ≤ 4 }
{
    let mut text = ShortText::new();
    text.push_i32(i32::from(index));
    text
}

/// Returns the word of the frequency, or of the periods within days, such as `HOURLY`.
pub fn period_text(frequency: Frequency, clock: Option<ClockUnit>) -> &'static str
    ensures text { result.now ≡ period_text frequency clock }
    ensures short { length result.now ≤ 8 }
{
    match clock {
        None => frequency_text(frequency),
        Some(ClockUnit::Hour) => "HOURLY",
        Some(ClockUnit::Minute) => "MINUTELY",
        Some(ClockUnit::Second) => "SECONDLY",
    }
}

/// Returns the word of the frequency, such as `MONTHLY`.
fn frequency_text(frequency: Frequency) -> &'static str
    ensures text { result.now ≡ frequency_text frequency }
    ensures short { length result.now ≤ 7 }
{
    match frequency {
        Frequency::Daily => "DAILY",
        Frequency::Weekly => "WEEKLY",
        Frequency::Monthly => "MONTHLY",
        Frequency::Yearly => "YEARLY",
    }
}

/// Returns the two letters of the weekday, such as `FR`.
fn weekday_text(weekday: Weekday) -> &'static str
    ensures text { result.now ≡ weekday_text weekday }
    ensures short { length result.now ≡ 2 }
{
    match weekday {
        Weekday::Monday => "MO",
        Weekday::Tuesday => "TU",
        Weekday::Wednesday => "WE",
        Weekday::Thursday => "TH",
        Weekday::Friday => "FR",
        Weekday::Saturday => "SA",
        Weekday::Sunday => "SU",
    }
}

/// Formats a date in digits, such as `20241231`.
#[tactic(auto, using(cal_time::proofs::TextLengths::text_lengths))]
fn day_text(date: Date) -> ShortText
    ensures text { result ≡ day_text date }
    ensures short { length result ≤ 11 }
{
    let (year, month, day) = date.to_calendar_date();
    let mut text = ShortText::new();
    text.push_year(year);
    text.push_two_digits(u32::from(month.place()) + 1);
    text.push_two_digits(u32::from(day));
    text
}

/// Formats a reading in digits, such as `20241231T235959`.
fn reading_text(reading: PlainDateTime) -> ShortText
    ensures text { result ≡ reading_text reading }
    ensures short { length result ≤ 18 }
{
    let (hour, minute, second) = reading.time().as_hms();
    let mut text = day_text(reading.date());
    text.push("T");
    text.push_two_digits(u32::from(hour));
    text.push_two_digits(u32::from(minute));
    text.push_two_digits(u32::from(second));
    text
}

/// Formats a date or a reading in digits, such as `20241231T235959Z`.
pub fn date_or_time_text(value: DateOrTime) -> ShortText
    ensures text { result ≡ date_or_time_text value }
    ensures short { length result ≤ 19 }
{
    match value {
        DateOrTime::Date(date) => day_text(date),
        DateOrTime::Local(reading) => reading_text(reading),
        DateOrTime::Utc(reading) => {
            let mut text = reading_text(reading);
            text.push("Z");
            text
        }
    }
}

/// Appends the part `INTERVAL`, unless the interval is 1. There must be room for 20 bytes.
pub fn push_interval(text: &mut RecurrenceText, interval: u32)
    requires { HasRoom 20 text.old }
    ensures appended { text.new ≡ text.old ++ interval_text interval }
    ensures short { length text.new ≤ length text.old + 20 }
{
    if interval == 1 {
        return;
    }
    text.push(";INTERVAL=");
    text.push_number(interval);
}

/// Appends the part `UNTIL` or `COUNT`, if there is an end. There must be room for 26 bytes.
pub fn push_end(text: &mut RecurrenceText, end: RuleEnd)
    requires { HasRoom 26 text.old }
    ensures appended { text.new ≡ text.old ++ end_text end }
    ensures short { length text.new ≤ length text.old + 26 }
{
    match end {
        RuleEnd::Never => {}
        RuleEnd::Until(last) => {
            text.push(";UNTIL=");
            text.push(date_or_time_text(last).as_str());
        }
        RuleEnd::Count(count) => {
            text.push(";COUNT=");
            text.push_number(count.get());
        }
    }
}

/// Appends the name of the part and the values with commas between them, or nothing for an empty
/// list. There must be at most 62 values, and room for the name and for 7 times 62 bytes.
pub fn push_list<T: Word>(text: &mut RecurrenceText, name: &str, values: &[T])
    requires named { 1 ≤ length name.now }
    requires few { length values.now ≤ most_values }
    requires room { HasRoom (length name.now + 7 * most_values) text.old }
    ensures appended { text.new ≡ text.old ++ list_text name.now T.text_of values.now }
    ensures short { length text.new ≤ length text.old + length name.now + 7 * most_values }
{
    let mut mark = name;
    for value in values {
        text.push(mark);
        text.push(value.word().as_str());
        mark = ",";
    }
}

/// Appends the part `WKST`, unless weeks begin on Monday. There must be room for 8 bytes.
pub fn push_week_start(text: &mut RecurrenceText, weekday: Weekday)
    requires { HasRoom 8 text.old }
    ensures appended { text.new ≡ text.old ++ week_start_text weekday }
    ensures short { length text.new ≤ length text.old + 8 }
{
    if weekday == Weekday::Monday {
        return;
    }
    text.push(";WKST=");
    text.push(weekday_text(weekday));
}
