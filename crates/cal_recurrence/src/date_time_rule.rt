//! Recurrence rules of date-times without a zone.
ghost use Rattle.std.specs.Prelude.{◌≡◌, ℕ, ◌+◌, ◌*◌, ◌<◌, ◌≤◌, ◌≤ℤ◌, pos, None, slice_get, length, true};
ghost use Rattle.cal_time.specs.Date.{IsDate};
ghost use Rattle.cal_time.specs.SignedDuration.{day};
ghost use Rattle.cal_datetime.specs.DateTime.{IsDateTime};
ghost use Rattle.cal_schedule.specs.Rule.{is_occurrence as is_day};
ghost use Rattle.cal_recurrence.specs.ClockPeriods.{days_in, step_in};
ghost use Rattle.cal_recurrence.specs.ClockSearch.{has_every_day, Closes};
ghost use Rattle.cal_recurrence.specs.TimeSearch.{IsNext, IsNextMatch, IsNextReading, selects, selects_time};
ghost use Rattle.cal_recurrence.specs.DateTimeRule.{date_time_rule, day_rule, is_not_after, is_occurrence, occurrences, occurrences_after, occurrences_from};

use crate::clock_step::ClockStep;
use crate::clock_unit::ClockUnit;
use crate::positions::{allows_position, day_positions};
use crate::times_of_day::{TimesOfDay, nanoseconds};
use cal_date::day_number::day_number;
use cal_datetime::PlainDateTime;
use cal_schedule::{Frequency, Pattern, Rule, Values};
use cal_time::{Date, Time};
use std::marker::Model;

const NANOSECONDS_PER_DAY: u64 = 86_400_000_000_000;

/// The number of the last day of the range.
const LAST_DAY: u64 = 730_484_633;

/// The number of readings in periods that aren't selected after which a search asks if it has an
/// end before the end of the range. Most searches end earlier.
const MANY_MISSES: u32 = 1_000;

/// How many days the range has.
const DAYS_OF_RANGE: u64 = 730_484_634;

/// A recurrence rule of date-times without a zone, as in RFC 5545: the times of day of each day of
/// a pattern, from a start to an end. An occurrence has the nanoseconds of the start.
///
/// Contracts see its parts.
#[derive(Debug, Drop)]
pub struct DateTimeRule {
    start: PlainDateTime,
    until: Option<PlainDateTime>,
    /// The rule of the days, with the positions of the days of the readings at `positions`.
    days: Rule,
    times: TimesOfDay,
    positions: Values<i16>,
    /// The number of times that pass in a day.
    per_day: u32,
    /// The periods within days.
    step: ClockStep,
    /// `true` if a search found no day of the rule, `false` if it isn't known.
    has_no_day: bool,
}

impl Model for DateTimeRule {
    ghost use Rattle.cal_recurrence.specs.DateTimeRule.{DateTimeParts};
    ghost use Rattle.cal_recurrence.specs.RuleInside.{IsInside, parts_of};

    ghost Value = { DateTimeParts };

    ghost view = { λ rule. parts_of rule.start rule.until rule.days rule.times rule.positions
        rule.step };

    ghost invariant = { λ rule. IsInside rule.start rule.until rule.days rule.times rule.positions
        rule.per_day rule.has_no_day };
}

/// Returns the pattern of the days and the periods within days of a pattern.
fn split(clock: Option<ClockUnit>, mut pattern: Pattern) -> (Pattern, ClockStep)
    ensures { result ≡ (days_in clock pattern, step_in clock pattern) }
{
    let Some(unit) = clock else {
        let step = ClockStep {
            unit: ClockUnit::Second,
            interval: 1,
            positions: Values::none(0),
        };
        return (pattern, step);
    };
    let step = ClockStep {
        unit,
        interval: pattern.interval,
        positions: std::mem::replace(&mut pattern.set_positions, Values::none(0)),
    };
    pattern.frequency = Frequency::Daily;
    pattern.interval = 1;
    (pattern, step)
}

impl DateTimeRule {
    /// Creates a rule from the first reading that can match (`DTSTART`), the last one (`UNTIL`),
    /// the pattern of the days and the times of day. The positions of the pattern (`BYSETPOS`)
    /// count the readings of a period.
    ///
    /// For periods within days, the interval and the positions of the pattern count these periods
    /// and the readings of one of them. Every day that the lists of the pattern allow is a day of the
    /// rule, at any frequency. An empty list of the times of day allows every hour, also every minute
    /// if the periods are minutes, and every minute and second if they are seconds.
    ///
    /// The pattern of every day with the hours 9 and 17, from 2024-01-01 9:00, gives 9:00 and
    /// 17:00 of each day. With the position -1 it gives 17:00 only.
    pub fn new(
        start: PlainDateTime,
        until: Option<PlainDateTime>,
        pattern: Pattern,
        times: TimesOfDay,
    ) -> Self
        ensures { result ≡ date_time_rule start until pattern times }
    {
        let last = match until {
            Some(last) => Some(last.date()),
            None => None,
        };
        let (pattern, step) = split(times.clock, pattern);
        let times = times.filled();
        let per_day = times.count_before(start.time(), NANOSECONDS_PER_DAY);
        let mut days = Rule {
            start: start.date(),
            until: last,
            pattern,
        };
        let ranked = day_positions(per_day, &days.pattern.set_positions);
        let positions = std::mem::replace(&mut days.pattern.set_positions, ranked);
        DateTimeRule {
            start,
            until,
            days,
            times,
            positions,
            per_day,
            step,
            has_no_day: false,
        }
    }

    /// Copies the rule.
    pub(crate) fn copy(&self) -> Self
        ensures { result ≡ self.now }
    {
        DateTimeRule {
            start: self.start,
            until: self.until,
            days: self.days.pattern.rule(self.days.start, self.days.until),
            times: self.times.copy(),
            positions: Values::from_slice(self.positions.as_slice(), 0),
            per_day: self.per_day,
            step: self.step.copy(),
            has_no_day: self.has_no_day,
        }
    }

    /// Copies the rule without its end.
    pub(crate) fn endless(&self) -> Self
        ensures { result ≡ record self.now { until = None } }
    {
        let mut rule = self.copy();
        rule.until = None;
        rule.days.until = None;
        rule.has_no_day = false;
        rule
    }

    /// Returns how many times pass in all days of the range. Without its end, the rule has no more
    /// readings.
    #[tactic(auto, using(crate::proofs::DayBounds::few_readings))]
    pub(crate) fn max_readings(&self) -> u64
        ensures { (n : ℕ) → length (occurrences_from (record self.now { until = None }) n) ≤ result }
    {
        DAYS_OF_RANGE * u64::from(self.per_day)
    }

    /// Searches for a day of the rule, and remembers if there is none. Without a day, each search
    /// goes through the whole range, so this pays before more than one of them.
    #[tactic(auto, using(crate::proofs::Sets::no_days))]
    pub(crate) fn settle(&mut self)
        ensures { self.new ≡ self.old }
    {
        let start = self.days.start;
        if !self.has_no_day && !self.days.contains(start) && self.days.next_after(start).is_none() {
            self.has_no_day = true;
        }
    }

    /// Moves the end of the rule to a reading.
    pub(crate) fn end_at(&mut self, last: PlainDateTime)
        ensures { self.new ≡ record self.old { until = Some last } }
    {
        self.until = Some(last);
        self.days.until = Some(last.date());
        self.has_no_day = false;
    }

    /// Returns the last possible reading, if there is one.
    pub(crate) fn until(&self) -> Option<PlainDateTime>
        ensures { result ≡ self.now.until }
    {
        self.until
    }

    /// Returns `true` if a reading is not after the last one, if there is one.
    pub(crate) fn is_not_after(&self, reading: PlainDateTime) -> bool
        ensures { result ≡ is_not_after self.now.until reading }
    {
        match self.until {
            Some(last) => reading <= last,
            None => true,
        }
    }

    /// Returns the first time of day that passes on a day of the rule and has a position, from the
    /// nanosecond `first` on.
    fn next_on_day(&self, date: Date, first: u64) -> Option<Time>
        requires first { first ≤ day }
        requires on { is_day (day_rule self.now) date ≡ true }
        ensures { IsNext (selects_time self.now date) first day result }
    {
        let own = self.start.time();
        if self.positions.is_empty() {
            return self.times.next_time(own, first);
        }
        let (ahead, back) = self.days.ranks(date);
        let before = u64::from(ahead - 1) * u64::from(self.per_day);
        let after = u64::from(back - 1) * u64::from(self.per_day);
        let mut index = self.times.count_before(own, first);
        let mut from = first;
        while let Some(time) = self.times.next_time(own, from) {
            let number = before + u64::from(index) + 1;
            let back_number = after + u64::from(self.per_day - index);
            if allows_position(&self.positions, number, back_number) {
                return Some(time);
            }
            index += 1;
            from = nanoseconds(time) + 1;
        }
        None
    }

    /// Returns `true` if the rule selects a reading by its days, its times and its positions.
    fn selects(&self, date: Date, time: Time) -> bool
        ensures { result ≡ selects self.now (date * day + time) }
    {
        let first = nanoseconds(time);
        if !self.days.contains(date) {
            return false;
        }
        match self.next_on_day(date, first) {
            Some(next) => next == time,
            None => false,
        }
    }

    /// Returns `true` if the rule has a reading. A daily rule from 2024-01-01 9:00 has 2024-01-02
    /// 9:00.
    #[tactic(auto, unfolding(crate::specs::DateTimeRule::is_occurrence))]
    pub fn contains(&self, reading: PlainDateTime) -> bool
        ensures { result ≡ is_occurrence self.now reading }
    {
        let (date, time) = (reading.date(), reading.time());
        self.start <= reading
            && self.is_not_after(reading)
            && self.selects(date, time)
            && self.step.matches(&self.times, self.start, date, time)
    }

    /// Returns the day and the time of day of the first reading after a day that the rule selects
    /// by its days, its times and its positions.
    fn next_selected_day(&self, date: Date) -> Option<(Date, Time)>
        ensures value { IsNextReading self.now ((date + 1) * day) result }
        ensures in_range { IsDate date }
    {
        // This states that the date is in its range. It costs nothing.
        let _ = date.year();
        // Without this test, a rule whose times never match, such as `BYSECOND=60`, would go
        // through all days of the range.
        if self.per_day == 0 {
            return None;
        }
        if self.has_no_day {
            return None;
        }
        let mut last = date;
        while let Some(next) = self.days.next_after(last) {
            if let Some(time) = self.next_on_day(next, 0) {
                return Some((next, time));
            }
            last = next;
        }
        None
    }

    /// Returns the day and the time of day of the first reading that the rule selects by its days,
    /// its times and its positions, from the nanosecond `first` of a day on.
    fn next_selected(&self, date: Date, first: u64) -> Option<(Date, Time)>
        requires { first ≤ day }
        ensures value { IsNextReading self.now (date * day + first) result }
        ensures in_range { IsDate date }
    {
        if self.days.contains(date) {
            if let Some(time) = self.next_on_day(date, first) {
                return Some((date, time));
            }
        }
        self.next_selected_day(date)
    }

    /// Returns the number of a day after which a search from the nanosecond `first` of a day on finds
    /// no reading, if it finds none up to the end of this day.
    fn last_to_search(&self, date: Date, first: u64) -> u64
        requires first { first ≤ day }
        requires start { self.now.start ≤ℤ pos (date * day + first) }
        ensures { Closes self.now (date * day + first) result }
    {
        // This states that the start is in its range. It costs nothing.
        let _ = self.start.date();
        if !self.step.can_meet(&self.times, self.start) {
            return 0;
        }
        match self.step.repeat_days() {
            Some(days) if self.has_every_day() => u64::from(day_number(date)) + days,
            _ => LAST_DAY,
        }
    }

    /// Returns `true` if the rule has each day that its lists allow, and no positions.
    fn has_every_day(&self) -> bool
        ensures { result ≡ has_every_day self.now }
    {
        matches!(self.days.pattern.frequency, Frequency::Daily)
            && self.days.pattern.interval <= 1
            && self.positions.is_empty()
    }

    /// Returns the day and the time of day of the first reading that the rule selects, from the
    /// nanosecond `first` of a day on.
    fn next_match(&self, date: Date, first: u64) -> Option<(Date, Time)>
        requires first { first ≤ day }
        requires start { self.now.start ≤ℤ pos (date * day + first) }
        ensures value { IsNextMatch self.now (date * day + first) result }
        ensures in_range { IsDate date }
    {
        // This states that the date is in its range. It costs nothing.
        let _ = date.year();
        let (mut day, mut from) = (date, first);
        let (mut last, mut misses) = (LAST_DAY, 0u32);
        while let Some(found) = self.next_selected(day, from) {
            if self.step.matches(&self.times, self.start, found.0, found.1) {
                return Some(found);
            }
            if u64::from(day_number(found.0)) > last {
                return None;
            }
            misses = misses.saturating_add(1);
            if misses == MANY_MISSES {
                last = self.last_to_search(date, first);
            }
            let Some(place) = self.step.next_place(self.start, found.0, found.1) else {
                return None;
            };
            day = place.0;
            from = place.1;
        }
        None
    }

    /// Returns the first occurrence from the nanosecond `first` of a day on.
    fn next_from(&self, date: Date, first: u64) -> Option<PlainDateTime>
        requires first { first ≤ day }
        requires start { self.now.start ≤ℤ pos (date * day + first) }
        ensures { result ≡ slice_get (occurrences_from self.now (date * day + first)) 0 }
    {
        let (day, time) = self.next_match(date, first)?;
        let reading = PlainDateTime::new(day, time);
        if self.is_not_after(reading) {
            Some(reading)
        } else {
            None
        }
    }

    /// Returns the first occurrence, or `None` if there is none.
    pub(crate) fn first(&self) -> Option<PlainDateTime>
        ensures value { result ≡ slice_get (occurrences self.now) 0 }
        ensures in_range { IsDateTime self.now.start }
    {
        self.next_from(self.start.date(), nanoseconds(self.start.time()))
    }

    /// Returns the first occurrence after a reading, or `None` if the range has none. For a daily
    /// rule from 2024-01-01 9:00, 2024-01-03 9:00 comes after 2024-01-02 9:00.
    pub fn next_after(&self, reading: PlainDateTime) -> Option<PlainDateTime>
        ensures { result ≡ slice_get (occurrences_after self.now reading) 0 }
    {
        let date = reading.date();
        if reading < self.start {
            return self.first();
        }
        self.next_from(date, nanoseconds(reading.time()) + 1)
    }
}
