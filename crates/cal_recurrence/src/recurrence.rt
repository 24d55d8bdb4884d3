//! Recurrences and their days.
ghost use Rattle.std.specs.Prelude.{◌≡◌};
ghost use Rattle.std.specs.List.{list_any};
ghost use Rattle.cal_schedule.specs.Pattern.{rule_of};
ghost use Rattle.cal_recurrence.specs.Days.{days_of, excluded, excluded_at, has_end, is_numbered, last_of, ranks_alone};

use crate::date_or_time::DateOrTime;
use crate::fault::RulePart;
use crate::rule_count::RuleCount;
use crate::times_of_day::TimesOfDay;
use cal_date::day_number::to_date;
use cal_schedule::{ByDay, Frequency, Pattern, Rule, RuleDays};
use cal_time::Date;

/// The end of a recurrence.
#[derive(Clone, Copy, Debug, PartialEq, Eq)]
pub enum RuleEnd {
    /// No end: the days or readings go on to the end of the range.
    Never,
    /// The last possible day or reading (`UNTIL`), which counts if the rule has it.
    Until(DateOrTime),
    /// The number of days or readings (`COUNT`).
    Count(RuleCount),
}

/// A recurrence as in an `RRULE` of RFC 5545: a rule without its start.
#[derive(Clone, Debug, PartialEq, Eq, Drop)]
pub struct Recurrence {
    /// The pattern of the days.
    pub pattern: Pattern,
    /// The times of day, which count only for a start with a time.
    pub times: TimesOfDay,
    /// The end of the days or readings.
    pub end: RuleEnd,
}

impl RuleEnd {
    /// Returns `true` if there is an `UNTIL` or a `COUNT`.
    pub(crate) fn is_given(self) -> bool
        ensures { result ≡ has_end self }
    {
        !matches!(self, RuleEnd::Never)
    }
}

/// Returns `true` if the weekday has a number.
fn is_numbered(by: ByDay) -> bool
    ensures { result ≡ is_numbered by }
{
    matches!(by, ByDay::Nth(_, _))
}

/// Returns `true` if one of the weekdays has a number.
fn any_numbered(weekdays: &[ByDay]) -> bool
    ensures { result ≡ list_any is_numbered weekdays.now }
{
    weekdays.iter().any(|by| is_numbered(*by))
}

impl Recurrence {
    /// Returns `true` if the recurrence has positions, and no other list.
    pub(crate) fn ranks_alone(&self) -> bool
        ensures { result ≡ ranks_alone self.now }
    {
        !self.pattern.set_positions.is_empty()
            && self.pattern.months.is_empty()
            && self.pattern.weeks.is_empty()
            && self.pattern.year_days.is_empty()
            && self.pattern.month_days.is_empty()
            && self.pattern.weekdays.is_empty()
            && self.times.hours.is_empty()
            && self.times.minutes.is_empty()
            && self.times.seconds.is_empty()
    }

    /// Returns two parts that exclude each other, or `None` if no parts do.
    pub(crate) fn excluded(&self) -> Option<(RulePart, RulePart)>
        ensures { result ≡ excluded self.now }
    {
        if self.times.clock.is_some() {
            return if any_numbered(self.pattern.weekdays.as_slice()) {
                Some((RulePart::Weekdays, RulePart::Frequency))
            } else if !self.pattern.weeks.is_empty() {
                Some((RulePart::Weeks, RulePart::Frequency))
            } else {
                None
            };
        }
        self.excluded_by_frequency()
    }

    /// Returns two parts that exclude each other in a rule with periods of days or longer.
    fn excluded_by_frequency(&self) -> Option<(RulePart, RulePart)>
        ensures { result ≡ excluded_at self.now.pattern.frequency self.now }
    {
        match self.pattern.frequency {
            Frequency::Daily => {
                if any_numbered(self.pattern.weekdays.as_slice()) {
                    return Some((RulePart::Weekdays, RulePart::Frequency));
                }
            }
            Frequency::Weekly => {
                if any_numbered(self.pattern.weekdays.as_slice()) {
                    return Some((RulePart::Weekdays, RulePart::Frequency));
                }
                if !self.pattern.month_days.is_empty() {
                    return Some((RulePart::MonthDays, RulePart::Frequency));
                }
            }
            Frequency::Monthly => {}
            Frequency::Yearly => {
                if !self.pattern.weeks.is_empty()
                    && any_numbered(self.pattern.weekdays.as_slice())
                {
                    return Some((RulePart::Weekdays, RulePart::Weeks));
                }
                return None;
            }
        }
        if !self.pattern.year_days.is_empty() {
            Some((RulePart::YearDays, RulePart::Frequency))
        } else if !self.pattern.weeks.is_empty() {
            Some((RulePart::Weeks, RulePart::Frequency))
        } else {
            None
        }
    }

    /// Copies the recurrence.
    pub(crate) fn copy(&self) -> Self
        ensures { result ≡ self.now }
    {
        Recurrence {
            pattern: self.pattern.rule(to_date(0), None).pattern,
            times: self.times.copy(),
            end: self.end,
        }
    }

    /// Returns the day of an `UNTIL`, or `None` without one.
    fn last(&self) -> Option<Date>
        ensures { result ≡ last_of self.now.end }
    {
        match self.end {
            RuleEnd::Until(last) => Some(last.date()),
            RuleEnd::Never | RuleEnd::Count(_) => None,
        }
    }

    /// Returns the rule of the days from a start, without a `COUNT`, which a rule doesn't have. For
    /// `FREQ=DAILY;COUNT=3` it is the rule of every day, without an end.
    ///
    /// The rule has no periods within days. For `FREQ=HOURLY;INTERVAL=6` it has every sixth day, so
    /// use [`Self::date_time_rule`] for a recurrence whose `times.clock` is set.
    pub fn rule(&self, start: Date) -> Rule
        ensures { result ≡ rule_of self.now.pattern start (last_of self.now.end) }
    {
        self.pattern.rule(start, self.last())
    }

    /// Returns an iterator over the days from a start, in ascending order. For
    /// `FREQ=MONTHLY;BYDAY=-1FR;COUNT=12` and 2024-01-01 they are the last Fridays of the months of
    /// 2024.
    ///
    /// These are the days of [`Self::rule`]. For `FREQ=HOURLY;INTERVAL=6` they are every sixth day,
    /// so use [`Self::readings`] for a recurrence whose `times.clock` is set.
    pub fn days(&self, start: Date) -> RuleDays
        ensures { result ≡ days_of self.now start }
    {
        let rule = self.rule(start);
        match self.end {
            RuleEnd::Count(count) => rule.first_days(count.get()),
            RuleEnd::Never | RuleEnd::Until(_) => rule.days(),
        }
    }
}
