//! The parts of a recurrence, for C.
ghost use Rattle.std.specs.Prelude.{◌≡◌};
ghost use Rattle.cal_c.specs.RecurrenceParts.{count_in, no_parts, parts_of, period_number, until_in};
ghost use Rattle.cal_c.specs.Recurrences.{frequency_number};

use super::lists::{MAX, NO_WEEKDAY, filled, month_numbers, parts_of_weekdays};
use super::rule_parts::RuleWeekday;
use cal_recurrence::{ClockUnit, Recurrence, RuleEnd};
use cal_schedule::Frequency;

/// The parts of a recurrence. A list has as many values as its length says, then zeros.
#[repr(C)]
#[derive(Clone, Copy, Debug)]
pub struct RecurrenceParts {
    /// 1 for daily, 2 for weekly, 3 for monthly, 4 for yearly, 5 for hourly, 6 for minutely, 7 for
    /// secondly.
    pub frequency: u32,
    pub interval: u32,
    pub week_start: u32,
    /// The last day (`UNTIL`), or `i32::MIN`.
    pub until: i32,
    /// The number of days (`COUNT`), or 0.
    pub count: u32,
    pub months_length: u32,
    pub weeks_length: u32,
    pub year_days_length: u32,
    pub month_days_length: u32,
    pub weekdays_length: u32,
    pub set_positions_length: u32,
    pub months: [u8; MAX],
    pub weeks: [i8; MAX],
    pub year_days: [i16; MAX],
    pub month_days: [i8; MAX],
    pub weekdays: [RuleWeekday; MAX],
    pub set_positions: [i16; MAX],
    /// 0, in place of padding.
    pub unused: u16,
}

fn frequency_number(frequency: Frequency) -> u32
    ensures { result ≡ frequency_number frequency }
{
    match frequency {
        Frequency::Daily => 1,
        Frequency::Weekly => 2,
        Frequency::Monthly => 3,
        Frequency::Yearly => 4,
    }
}

/// Returns the number of a frequency, or of periods within days.
fn period_number(clock: Option<ClockUnit>, frequency: Frequency) -> u32
    ensures { result ≡ period_number clock frequency }
{
    match clock {
        None => frequency_number(frequency),
        Some(ClockUnit::Hour) => 5,
        Some(ClockUnit::Minute) => 6,
        Some(ClockUnit::Second) => 7,
    }
}

fn until_in(end: RuleEnd) -> i32
    ensures { result ≡ until_in end }
{
    match end {
        RuleEnd::Until(last) => last.date().to_julian_day(),
        RuleEnd::Never | RuleEnd::Count(_) => i32::MIN,
    }
}

fn count_in(end: RuleEnd) -> u32
    ensures { result ≡ count_in end }
{
    match end {
        RuleEnd::Count(count) => count.get(),
        RuleEnd::Never | RuleEnd::Until(_) => 0,
    }
}

impl RecurrenceParts {
    pub(super) fn from_recurrence(recurrence: &Recurrence) -> Self
        ensures { result ≡ parts_of recurrence.now }
    {
        let pattern = &recurrence.pattern;
        let months = pattern.months.as_slice();
        let weeks = pattern.weeks.as_slice();
        let year_days = pattern.year_days.as_slice();
        let month_days = pattern.month_days.as_slice();
        let weekdays = pattern.weekdays.as_slice();
        let set_positions = pattern.set_positions.as_slice();
        RecurrenceParts {
            frequency: period_number(recurrence.times.clock, pattern.frequency),
            interval: pattern.interval,
            week_start: u32::from(pattern.week_start.number_from_monday()),
            until: until_in(recurrence.end),
            count: count_in(recurrence.end),
            months_length: months.len() as u32,
            weeks_length: weeks.len() as u32,
            year_days_length: year_days.len() as u32,
            month_days_length: month_days.len() as u32,
            weekdays_length: weekdays.len() as u32,
            set_positions_length: set_positions.len() as u32,
            months: month_numbers(months),
            weeks: filled(weeks, 0),
            year_days: filled(year_days, 0),
            month_days: filled(month_days, 0),
            weekdays: parts_of_weekdays(weekdays),
            set_positions: filled(set_positions, 0),
            unused: 0,
        }
    }

    /// Returns the parts for a string that is not a recurrence.
    pub(super) fn empty() -> Self
        ensures { result ≡ no_parts }
    {
        RecurrenceParts {
            frequency: 0,
            interval: 0,
            week_start: 0,
            until: i32::MIN,
            count: 0,
            months_length: 0,
            weeks_length: 0,
            year_days_length: 0,
            month_days_length: 0,
            weekdays_length: 0,
            set_positions_length: 0,
            months: [0; MAX],
            weeks: [0; MAX],
            year_days: [0; MAX],
            month_days: [0; MAX],
            weekdays: [NO_WEEKDAY; MAX],
            set_positions: [0; MAX],
            unused: 0,
        }
    }
}
