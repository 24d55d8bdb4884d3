//! The text of a recurrence.
ghost use Rattle.std.specs.Prelude.{◌≡◌, Some};
ghost use Rattle.std.specs.Fmt.{padded};
ghost use Rattle.cal_recurrence.specs.Spelled.{IsSpelled};
ghost use Rattle.cal_recurrence.specs.Text.{ReadsBack};
ghost use Rattle.cal_recurrence.specs.Written.{text_of};

use crate::recurrence::Recurrence;
use crate::text::RecurrenceText;
use crate::writing::{period_text, push_end, push_interval, push_list, push_week_start};
use std::fmt;

impl Recurrence {
    /// Returns the text that the recurrence prints, such as `FREQ=MONTHLY;COUNT=12;BYDAY=-1FR`.
    ///
    /// The order is `FREQ`, `INTERVAL`, `UNTIL` or `COUNT`, `BYMONTH`, `BYWEEKNO`, `BYYEARDAY`,
    /// `BYMONTHDAY`, `BYDAY`, `BYHOUR`, `BYMINUTE`, `BYSECOND`, `BYSETPOS`, `WKST`. An interval of
    /// 1, weeks from Monday, empty lists and a missing end are left out. For each recurrence that
    /// [`parse`](crate::parse) can return, parsing its text, with or without `RRULE:` in front, gives
    /// the recurrence again. Such a text has no line feed.
    pub fn text(&self) -> RecurrenceText
        ensures text { result ≡ text_of self.now }
        ensures reads_back { IsSpelled self.now → ReadsBack self.now result }
    {
        let mut text = RecurrenceText::new();
        text.push("FREQ=");
        text.push(period_text(self.pattern.frequency, self.times.clock));
        push_interval(&mut text, self.pattern.interval);
        push_end(&mut text, self.end);
        push_list(&mut text, ";BYMONTH=", self.pattern.months.as_slice());
        push_list(&mut text, ";BYWEEKNO=", self.pattern.weeks.as_slice());
        push_list(&mut text, ";BYYEARDAY=", self.pattern.year_days.as_slice());
        push_list(
            &mut text,
            ";BYMONTHDAY=",
            self.pattern.month_days.as_slice(),
        );
        push_list(&mut text, ";BYDAY=", self.pattern.weekdays.as_slice());
        push_list(&mut text, ";BYHOUR=", self.times.hours.as_slice());
        push_list(&mut text, ";BYMINUTE=", self.times.minutes.as_slice());
        push_list(&mut text, ";BYSECOND=", self.times.seconds.as_slice());
        push_list(
            &mut text,
            ";BYSETPOS=",
            self.pattern.set_positions.as_slice(),
        );
        push_week_start(&mut text, self.pattern.week_start);
        text
    }
}

/// Formats the text. A width pads the whole text.
impl fmt::Display for Recurrence {
    ghost output = { λ r. Some (text_of r) };

    ghost styled_output = { λ r spec. Some (padded spec (text_of r)) };

    fn fmt<W: fmt::Write>(&self, f: &mut fmt::Formatter<W>) -> fmt::Result {
        f.pad(self.text().as_str())
    }
}
