//! The words `now`, `today`, `yesterday` and `tomorrow`, and what they mean.
ghost use Rattle.cal_datetime.specs.OffsetDateTime.{instant};
ghost use Rattle.std.specs.Prelude.{Some, ◌≡◌, ◌≤◌, length};
ghost use Rattle.caldate_args.specs.ClockWords.{moment_in, rfc3339_or_unix_text};

use cal_datetime::{OffsetDateTime, PlainDateTime};
use cal_text::date::CalendarText;
use cal_text::{DateForm, DateOrMoment, MomentForm, rfc3339, unix};
use cal_time::{Date, ShortText, SignedDuration};
use cal_zone::Zone;
use caldate_answers::request::Clock;

/// Returns the moment at which the program started, at the offset of the zone, or at UTC.
pub fn now_in(zone: &Option<Zone<'_>>, now: Option<PlainDateTime>) -> Option<OffsetDateTime> {
    let utc = now?;
    match zone {
        Some(zone) => Some(moment_in(zone, utc.assume_utc())),
        None => Some(utc.assume_utc()),
    }
}

/// Returns the same moment at the offset of the zone.
pub fn now_on(zone: &Zone<'_>, now: Option<OffsetDateTime>) -> Option<OffsetDateTime> {
    match now {
        Some(now) => Some(moment_in(zone, now)),
        None => None,
    }
}

/// Returns the moment at the offset that the zone has then.
pub fn moment_in(zone: &Zone<'_>, moment: OffsetDateTime) -> OffsetDateTime
    ensures { result ≡ moment_in (Some zone.now) (instant moment) }
{
    let offset = zone.utc_offset_at(moment.unix_timestamp());
    let change = offset.whole_seconds() - moment.offset().whole_seconds();
    let seconds = SignedDuration::seconds(i64::from(change));
    moment.local().saturating_add(seconds).assume_offset(offset)
}

/// Returns the moment for `now`, its date for `today`, the previous day for `yesterday`, the next
/// day for `tomorrow`, and `None` for any other word.
pub fn clock_word(word: &[u8], now: Option<OffsetDateTime>) -> Option<DateOrMoment> {
    let now = now?;
    if word == b"now".as_slice() {
        return Some(DateOrMoment::Moment(MomentForm::Rfc3339, now));
    }
    let date = date_named(word, now.date())?;
    Some(DateOrMoment::Date(DateForm::Calendar, date))
}

/// Returns the date for `today`, `yesterday` or `tomorrow`, if it is in range.
fn date_named(word: &[u8], today: Date) -> Option<Date> {
    if word == b"today".as_slice() {
        Some(today)
    } else if word == b"yesterday".as_slice() {
        today.previous_day()
    } else if word == b"tomorrow".as_slice() {
        today.next_day()
    } else {
        None
    }
}

/// Returns whether the word is `today`, `yesterday` or `tomorrow`.
pub fn is_day_word(word: &[u8]) -> bool {
    word == b"today".as_slice() || word == b"yesterday".as_slice() || word == b"tomorrow".as_slice()
}

/// Returns the string that `now` or a word for a date means after `--date`, and `None` for any
/// other word.
pub fn clock_text(
    word: &[u8],
    clock: &Option<Clock<'_>>,
    now: Option<PlainDateTime>,
) -> Option<ShortText> {
    let utc = now?;
    if word == b"now".as_slice() {
        return Some(rfc3339_or_unix_text(utc.assume_utc()));
    }
    let date = date_named(word, date_on(clock, utc))?;
    Some(CalendarText(date).text())
}

/// Returns the date that the clocks show at a date-time of UTC.
fn date_on(clock: &Option<Clock<'_>>, utc: PlainDateTime) -> Date {
    match clock {
        Some(clock) => moment_in(&clock.zone, utc.assume_utc()).date(),
        None => utc.date(),
    }
}

/// Formats a moment in RFC 3339, or as a Unix time if RFC 3339 has no string for it.
pub fn rfc3339_or_unix_text(moment: OffsetDateTime) -> ShortText
    ensures text { result ≡ rfc3339_or_unix_text moment }
    ensures short { length result ≤ 38 }
{
    match rfc3339::Text::new(moment) {
        Some(text) => text.text(),
        None => unix::Text::new(moment).text(),
    }
}
