//! Lists of dates in steps of one length.
ghost use Rattle.std.specs.Prelude.{◌≡◌, ◌<◌, ◌+◌, ℕ, IfSome, MatchOption};
ghost use Rattle.cal_time.specs.Date.{IsDate};
ghost use Rattle.caldate_lines.specs.Calls.{Writes, write_failure};
ghost use Rattle.caldate_args.specs.Lists.{IsEnd, IsUnitsAfter, IsStep, IsWithin, Lists};

pub mod events;
pub(crate) mod in_zone;
pub mod moments;
pub mod recurring;
pub(crate) mod remaining;

use cal_schedule::checked_add_months;
use cal_text::date::CalendarText;
use cal_time::Date;
use caldate_args::command::{Listing, StepUnit};
use caldate_lines::output::Output;
use caldate_lines::run_error::RunError;
use caldate_lines::streams::Sink;

/// More days, and more months, than there are between any two dates.
const FAR: u64 = 1_000_000_000;

/// Writes the dates of the list in order, each in the calendar form with a line feed. After a
/// `RunError::Write`, only a part of the lines was written.
pub fn list<W: Sink>(listing: &Listing, writer: &mut W) -> Result<(), RunError>
    requires { IsStep listing.now.step }
    ensures lists { Lists listing.now result (W.contents writer.old) (W.contents writer.new) }
    ensures writes { Writes W.write_gives writer.old (write_failure result) writer.new }
{
    let mut output = Output::new();
    let mut count = 0;
    while let Some(day) = day_within(listing, count) {
        match output.push_line(CalendarText(day).text().as_bytes(), writer) {
            Ok(()) => {}
            Err(error) => return Err(error),
        }
        count += listing.step.every;
    }
    output.finish(writer)
}

/// Returns the day `count` days or months after the first, or `None` past the last.
fn day_within(listing: &Listing, count: u64) -> Option<Date>
    ensures day { MatchOption result (IsEnd listing.now count) (IsWithin listing.now count) }
    ensures near { IfSome result (λ _. count < 1_000_000_000) }
{
    let day = day_after(listing.step.unit, listing.first, count)?;
    if day > listing.last {
        return None;
    }
    Some(day)
}

/// Returns the day `count` days or months later, or `None` past the end of the range.
fn day_after(unit: StepUnit, date: Date, count: u64) -> Option<Date>
    ensures day { MatchOption result ((n : ℕ) → ¬ (IsDate n × IsUnitsAfter unit count date n))
        (λ n. IsDate n × IsUnitsAfter unit count date n) }
    ensures near { IfSome result (λ _. count < 1_000_000_000) }
{
    match unit {
        StepUnit::Days => days_after(date, count),
        StepUnit::Months => months_after(date, count),
    }
}

fn days_after(date: Date, days: u64) -> Option<Date>
    ensures day { MatchOption result ((n : ℕ) → ¬ (IsDate n × (n ≡ date + days)))
        (λ n. IsDate n × (n ≡ date + days)) }
    ensures near { IfSome result (λ _. days < 1_000_000_000) }
{
    match Date::from_julian_day(date.to_julian_day() + days.min(FAR) as i32) {
        Ok(day) => Some(day),
        Err(_) => None,
    }
}

fn months_after(date: Date, months: u64) -> Option<Date>
    ensures day { MatchOption result
        ((n : ℕ) → ¬ (IsDate n × IsUnitsAfter StepUnit.Months months date n))
        (λ n. IsDate n × IsUnitsAfter StepUnit.Months months date n) }
    ensures near { IfSome result (λ _. months < 1_000_000_000) }
{
    checked_add_months(date, months.min(FAR) as i32)
}
