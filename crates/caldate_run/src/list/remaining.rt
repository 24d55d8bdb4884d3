//! The dates or moments of a recurrence that aren't listed yet.
ghost use Rattle.std.specs.Prelude.{◌≡◌, ◌≤◌, [], ◌∷◌, ◌++◌, length, IfSome, MatchOption};
ghost use Rattle.std.specs.List.{take_while};
ghost use Rattle.caldate_run.specs.Recurring.{is_day_up_to, is_moment_up_to, lines_left};

use cal_datetime::OffsetDateTime;
use cal_recurrence::RuleReadings;
use cal_schedule::RuleDays;
use cal_text::date::CalendarText;
use cal_time::{Date, ShortText, UtcOffset};
use caldate_args::args::clock_words::rfc3339_or_unix_text;

/// The days or readings of a recurrence that are left, and the last one that may be listed.
#[derive(Drop)]
pub enum Remaining {
    /// Days up to a last one.
    Dates(RuleDays, Date),
    /// Readings at an offset up to a last moment.
    Moments(RuleReadings, UtcOffset, OffsetDateTime),
}

impl Remaining {
    /// Returns the string of the next date or moment, or `None` at the end.
    pub fn next_text(&mut self) -> Option<ShortText>
        ensures next { MatchOption result (lines_left self.old ≡ [])
            (λ text. lines_left self.old ≡ text ++ 10 ∷ lines_left self.new) }
        ensures short { IfSome result (λ text. length text ≤ 60) }
    {
        match self {
            Remaining::Dates(days, last) => Some(CalendarText(next_day(days, *last)?).text()),
            Remaining::Moments(readings, offset, last) => {
                Some(rfc3339_or_unix_text(next_moment(readings, *offset, *last)?))
            }
        }
    }
}

/// Returns the next day of the iterator, or `None` at its end or past the last day.
fn next_day(days: &mut RuleDays, last: Date) -> Option<Date>
    ensures { MatchOption result (take_while (is_day_up_to last) days.old ≡ [])
        (λ day. take_while (is_day_up_to last) days.old ≡ day ∷ take_while (is_day_up_to last) days.new) }
{
    let day = days.next()?;
    if day > last {
        return None;
    }
    Some(day)
}

/// Returns the next reading of the iterator at the offset, or `None` at its end or past the last
/// moment.
fn next_moment(
    readings: &mut RuleReadings,
    offset: UtcOffset,
    last: OffsetDateTime,
) -> Option<OffsetDateTime>
    ensures { MatchOption result (take_while (is_moment_up_to offset last) readings.old ≡ [])
        (λ moment. (moment ≡ record { local = moment.local; offset = offset })
        × (take_while (is_moment_up_to offset last) readings.old
        ≡ moment.local ∷ take_while (is_moment_up_to offset last) readings.new)) }
{
    let moment = readings.next()?.assume_offset(offset);
    if moment > last {
        return None;
    }
    Some(moment)
}
