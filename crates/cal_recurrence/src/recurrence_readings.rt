//! The readings of a recurrence.
ghost use Rattle.std.specs.Prelude.{◌≡◌};
ghost use Rattle.cal_recurrence.specs.DateTimeRule.{date_time_rule};
ghost use Rattle.cal_recurrence.specs.RecurrenceReadings.{last_reading_of, readings_of};

use crate::date_time_rule::DateTimeRule;
use crate::readings::RuleReadings;
use crate::recurrence::{Recurrence, RuleEnd};
use cal_datetime::PlainDateTime;

impl Recurrence {
    /// Returns the last possible reading, or `None` without an `UNTIL`.
    fn last_reading(&self) -> Option<PlainDateTime>
        ensures { result ≡ last_reading_of self.now.end }
    {
        match self.end {
            RuleEnd::Until(last) => Some(last.last_reading()),
            RuleEnd::Never | RuleEnd::Count(_) => None,
        }
    }

    /// Returns the rule of the readings from a start, without a `COUNT`, which a rule doesn't have.
    /// An `UNTIL` that is a date includes the whole day, and one at UTC ends at its reading.
    ///
    /// For `FREQ=DAILY;BYHOUR=9,17;UNTIL=19970903T120000` and 1997-09-02 9:00 it is the rule of
    /// 9:00 and 17:00 on 2 September and 9:00 on 3 September.
    pub fn date_time_rule(&self, start: PlainDateTime) -> DateTimeRule
        ensures { result ≡ date_time_rule start (last_reading_of self.now.end)
            self.now.pattern self.now.times }
    {
        self.rule_until(start, self.last_reading())
    }

    /// Returns the rule of the readings from a start to a last possible reading.
    pub(crate) fn rule_until(
        &self,
        start: PlainDateTime,
        last: Option<PlainDateTime>,
    ) -> DateTimeRule
        ensures { result ≡ date_time_rule start last self.now.pattern self.now.times }
    {
        let pattern = self.rule(start.date()).pattern;
        DateTimeRule::new(start, last, pattern, self.times.copy())
    }

    /// Returns an iterator over the readings from a start, in ascending order. For
    /// `FREQ=DAILY;BYHOUR=9,17;COUNT=3` and 1997-09-02 9:00 they are 9:00 and 17:00 on 2 September
    /// and 9:00 on 3 September.
    pub fn readings(&self, start: PlainDateTime) -> RuleReadings
        ensures { result ≡ readings_of self.now start }
    {
        let rule = self.date_time_rule(start);
        match self.end {
            RuleEnd::Count(count) => rule.first_readings(count.get()),
            RuleEnd::Never | RuleEnd::Until(_) => rule.readings(),
        }
    }
}
