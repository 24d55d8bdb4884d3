//! A recurrence while it is parsed.
ghost use Rattle.std.specs.Prelude.{◌≡◌, ◌≤◌, length};
ghost use Rattle.cal_schedule.specs.Values.{most_values};
ghost use Rattle.cal_recurrence.specs.Drafts.{finished, is_given, nothing, put, put_part, put_value};
ghost use Rattle.cal_recurrence.specs.Words.{parts_at};

use crate::date_words::date_or_time_of;
use crate::fault::{ParseRuleError, ParseRuleErrorKind, RulePart};
use crate::lists::{has_few_words, values_of};
use crate::recurrence::{Recurrence, RuleEnd};
use crate::rule_count::RuleCount;
use crate::times_of_day::TimesOfDay;
use crate::words::{count_of, cut, frequency_of, part_of, weekday_of};
use cal_schedule::{ByDay, Frequency, Pattern};
use cal_time::{Month, Weekday};

/// A recurrence with the parts that were parsed so far. It notes if the frequency, the interval and
/// the start of weeks are among them, since these can be given with their defaults.
#[derive(Debug, Drop)]
pub struct Draft {
    pub recurrence: Recurrence,
    pub has_frequency: bool,
    pub has_interval: bool,
    pub has_week_start: bool,
}

impl Draft {
    /// Creates a draft without parts, with the defaults.
    pub fn new() -> Self
        ensures { result ≡ nothing }
    {
        Draft {
            recurrence: Recurrence {
                pattern: Pattern::new(Frequency::Daily),
                times: TimesOfDay::new(),
                end: RuleEnd::Never,
            },
            has_frequency: false,
            has_interval: false,
            has_week_start: false,
        }
    }

    /// Parses one more part, such as `COUNT=12`. Returns `Unknown` for an unknown name, or else the
    /// errors of `with_value`.
    pub fn with_part(self, text: &[u8]) -> Result<Self, ParseRuleErrorKind>
        ensures { result ≡ put_part self text.now }
    {
        let (name, value) = cut(text, b'=');
        match part_of(name) {
            Some(part) => self.with_value(part, value.unwrap_or(b"".as_slice())),
            None => Err(ParseRuleErrorKind::Unknown),
        }
    }

    /// Parses the value of one more part. Returns the first error that applies: `TooMany` for more
    /// than 62 words, `Twice` if the part was parsed before, or `Value` for an invalid value.
    fn with_value(self, part: RulePart, value: &[u8]) -> Result<Self, ParseRuleErrorKind>
        ensures { result ≡ put_value self value.now part }
    {
        if !has_few_words(value) {
            return Err(ParseRuleErrorKind::TooMany(part));
        }
        if self.is_given(part) {
            return Err(ParseRuleErrorKind::Twice(part));
        }
        match self.with(part, value) {
            Some(draft) => Ok(draft),
            None => Err(ParseRuleErrorKind::Value(part)),
        }
    }

    /// Returns `true` if the part was parsed before.
    fn is_given(&self, part: RulePart) -> bool
        ensures { result ≡ is_given self.now part }
    {
        let (pattern, times) = (&self.recurrence.pattern, &self.recurrence.times);
        match part {
            RulePart::Frequency => self.has_frequency,
            RulePart::Interval => self.has_interval,
            RulePart::WeekStart => self.has_week_start,
            RulePart::Months => !pattern.months.is_empty(),
            RulePart::Weeks => !pattern.weeks.is_empty(),
            RulePart::YearDays => !pattern.year_days.is_empty(),
            RulePart::MonthDays => !pattern.month_days.is_empty(),
            RulePart::Weekdays => !pattern.weekdays.is_empty(),
            RulePart::Hours => !times.hours.is_empty(),
            RulePart::Minutes => !times.minutes.is_empty(),
            RulePart::Seconds => !times.seconds.is_empty(),
            RulePart::Positions => !pattern.set_positions.is_empty(),
            RulePart::Until | RulePart::Count => self.recurrence.end.is_given(),
        }
    }

    /// Returns the draft with one more part, or `None` if the value is invalid. There must be at
    /// most 62 words with commas between them.
    fn with(mut self, part: RulePart, value: &[u8]) -> Option<Self>
        requires { length (parts_at 44 value.now) ≤ most_values }
        ensures { result ≡ put self part value.now }
    {
        match part {
            RulePart::Frequency => {
                let (frequency, clock) = frequency_of(value)?;
                self.recurrence.pattern.frequency = frequency;
                self.recurrence.times.clock = clock;
                self.has_frequency = true;
                Some(self)
            }
            RulePart::Interval => {
                self.recurrence.pattern.interval = count_of(value, u32::MAX)?;
                self.has_interval = true;
                Some(self)
            }
            RulePart::WeekStart => {
                self.recurrence.pattern.week_start = weekday_of(value)?;
                self.has_week_start = true;
                Some(self)
            }
            RulePart::Months => {
                self.recurrence.pattern.months = values_of(value, Month::January, 12)?;
                Some(self)
            }
            RulePart::Weeks => {
                self.recurrence.pattern.weeks = values_of(value, 0i8, 53)?;
                Some(self)
            }
            RulePart::YearDays => {
                self.recurrence.pattern.year_days = values_of(value, 0i16, 366)?;
                Some(self)
            }
            RulePart::MonthDays => {
                self.recurrence.pattern.month_days = values_of(value, 0i8, 31)?;
                Some(self)
            }
            RulePart::Weekdays => {
                let filler = ByDay::Every(Weekday::Monday);
                self.recurrence.pattern.weekdays = values_of(value, filler, 53)?;
                Some(self)
            }
            RulePart::Hours => {
                self.recurrence.times.hours = values_of(value, 0u8, 23)?;
                Some(self)
            }
            RulePart::Minutes => {
                self.recurrence.times.minutes = values_of(value, 0u8, 59)?;
                Some(self)
            }
            RulePart::Seconds => {
                self.recurrence.times.seconds = values_of(value, 0u8, 60)?;
                Some(self)
            }
            RulePart::Positions => {
                self.recurrence.pattern.set_positions = values_of(value, 0i16, 366)?;
                Some(self)
            }
            RulePart::Until => {
                self.recurrence.end = RuleEnd::Until(date_or_time_of(value)?);
                Some(self)
            }
            RulePart::Count => {
                let count = RuleCount::from_positive(count_of(value, u32::MAX)?);
                self.recurrence.end = RuleEnd::Count(count);
                Some(self)
            }
        }
    }

    /// Returns the recurrence, or the error `Missing` at byte `end` if the frequency wasn't given.
    pub fn finished(self, end: usize) -> Result<Recurrence, ParseRuleError>
        ensures { result ≡ finished end self }
    {
        if !self.has_frequency {
            return Err(ParseRuleError {
                position: end,
                reason: ParseRuleErrorKind::Missing,
            });
        }
        Ok(self.recurrence)
    }
}
