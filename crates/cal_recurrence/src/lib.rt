//! Recurrences of RFC 5545: rules of days and of times of day, sets, and their texts.
//!
//! `parse` returns the recurrence of an `RRULE`, or the position and the reason of the first error. A
//! [`DateTimeRule`] has the readings of a clock, and a [`RecurrenceSet`] the days of a rule with
//! others and without exceptions.
#![tactic(auto)]

mod buffers;
mod clock_step;
mod clock_unit;
mod counted_set;
mod counted_zoned_set;
mod counting;
mod date_or_time;
mod date_time_rule;
mod date_time_set;
mod date_words;
mod day_cursor;
mod display;
mod draft;
mod fault;
mod folding;
mod laws;
mod lists;
mod nearest;
mod occurrences;
mod offset_range;
mod parsing;
mod positions;
mod reach;
mod reading_cursor;
mod readings;
mod recurrence;
mod recurrence_readings;
mod rule_count;
mod set;
mod set_draft;
mod set_fault;
mod set_meaning;
mod set_parameters;
mod set_parsing;
mod set_parts;
mod set_values;
mod set_writing;
mod text;
mod times_of_day;
mod words;
mod writing;
mod zone_name;
mod zoned_set;

pub use cal_schedule::{Pattern, Values};
pub use clock_unit::ClockUnit;
pub use counted_set::CountedSet;
pub use counted_zoned_set::CountedZonedSet;
pub use date_or_time::DateOrTime;
pub use date_time_rule::DateTimeRule;
pub use date_time_set::{DateTimeSet, DateTimeSetReadings};
pub use day_cursor::DayCursor;
pub use fault::{ParseRuleError, ParseRuleErrorKind, RulePart};
pub use folding::{fold, unfold};
pub use occurrences::Occurrences;
pub use parsing::{parse, parse_days};
pub use reading_cursor::ReadingCursor;
pub use readings::RuleReadings;
pub use recurrence::{Recurrence, RuleEnd};
pub use rule_count::RuleCount;
pub use set::{RecurrenceSet, RecurrenceSetDays};
pub use set_draft::{SetDraft, kind_of};
pub use set_fault::{ParseSetError, ParseSetErrorKind, SetLine};
pub use set_meaning::{SetDays, SetInstants, SetReadings};
pub use set_parsing::{parse_set, without_return};
pub use set_parts::SetParts;
pub use text::RecurrenceText;
pub use times_of_day::TimesOfDay;
pub use words::{
    count_of, cut, cut_outside, is_alike, month_of, short_count_of, split, weekday_of,
};
pub use zone_name::ZoneName;
pub use zoned_set::ZonedSet;
