//! Recurrence rules, and recurrences in text.
ghost use Rattle.std.specs.Prelude.{◌≡◌, ◌<◌, IfOk, IfSome, Ok, true};
ghost use Rattle.cal_recurrence.specs.declared.recurrence.Recurrence.{Recurrence};
ghost use Rattle.cal_recurrence.specs.Text.{recurrence_of};
ghost use Rattle.cal_recurrence.specs.Written.{text_of};
ghost use Rattle.cal_schedule.specs.Rule.{is_occurrence};

use cal_recurrence::{ParseRuleError, RecurrenceText, parse};
use cal_schedule::{ByDay, Frequency, Rule};
use cal_time::{Date, Month, Weekday};
use std::io;

/// Returns the next two days of a rule after a date.
fn next_two(rule: &Rule, date: Date) -> Option<(Date, Date)>
    ensures order { IfSome result (λ days. (date < days.0) × (days.0 < days.1)) }
    ensures found { IfSome result (λ days.
        (is_occurrence rule.now days.0 ≡ true) × (is_occurrence rule.now days.1 ≡ true)) }
{
    let first = rule.next_after(date)?;
    let second = rule.next_after(first)?;
    Some((first, second))
}

/// Returns the days of a rule next to a date: the last one before it and the first one after it.
fn days_around(rule: &Rule, date: Date) -> Option<(Date, Date)>
    ensures order { IfSome result (λ days. (days.0 < date) × (date < days.1)) }
    ensures found { IfSome result (λ days.
        (is_occurrence rule.now days.0 ≡ true) × (is_occurrence rule.now days.1 ≡ true)) }
{
    let before = rule.previous_before(date)?;
    let after = rule.next_after(date)?;
    Some((before, after))
}

/// Parses the text of a recurrence and writes it again, or passes the error on.
fn respelled(text: &[u8]) -> Result<RecurrenceText, ParseRuleError>
    ensures written { IfOk result (λ written.
        (r : Recurrence) × (recurrence_of text.now ≡ Ok r) × (written ≡ text_of r)) }
    ensures same { IfOk result (λ written. recurrence_of written ≡ recurrence_of text.now) }
{
    let recurrence = parse(text)?;
    Ok(recurrence.text())
}

/// Prints the days of a recurrence from a start on, or the position and the reason of the error.
fn show_days(rt: &impl Print, text: &str, start: Date) -> io::Result<()> {
    match parse(text.as_bytes()) {
        Ok(recurrence) => {
            for day in recurrence.days(start) {
                println!(rt; "{day}")?;
            }
            Ok(())
        }
        Err(fault) => println!(rt; "byte {}: {:?}", fault.position, fault.reason),
    }
}

pub fn show(rt: &impl Print) -> io::Result<()> {
    let Ok(start) = Date::from_calendar_date(2024, Month::January, 1) else {
        return Ok(());
    };
    let mut last_fridays = Rule::new(start, Frequency::Monthly);
    let last_friday = ByDay::Nth(-1, Weekday::Friday);
    last_fridays.pattern.weekdays.push(last_friday);
    for day in last_fridays.days().take(12) {
        println!(rt; "{day}")?;
    }
    if let Some((first, second)) = next_two(&last_fridays, start) {
        println!(rt; "{first} {second}")?;
    }
    let Ok(date) = Date::from_calendar_date(2024, Month::February, 9) else {
        return Ok(());
    };
    if let Some((before, after)) = days_around(&last_fridays, date) {
        println!(rt; "{before} {after}")?;
    }
    show_days(rt, "FREQ=MONTHLY;BYDAY=-1FR;COUNT=3", start)?;
    show_days(rt, "FREQ=MONTHLY;BYDAY=-1FR;HOUR=9", start)?;
    if let Ok(text) = respelled(b"byday=-01fr;count=3;freq=monthly") {
        println!(rt; "{}", text.as_str())?;
    }
    Ok(())
}
