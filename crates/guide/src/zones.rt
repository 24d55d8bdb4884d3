//! Time zones.
ghost use Rattle.std.specs.Prelude.{◌≡◌, ◌↔◌, IfSome};
ghost use Rattle.cal_datetime.specs.OffsetDateTime.{LocalAndOffset, instant};
ghost use Rattle.cal_zone.specs.Local.{Shows};

use cal_datetime::{OffsetDateTime, PlainDateTime, with_hms_nano};
use cal_time::{Date, Month, Weekday};
use cal_zone::{Gap, Local, LocalType, Rule, Table, Yearly, Zone, in_zone};
use std::io;

/// Returns the date-time at which the clocks of a zone show a reading, or `None` if they skip it or
/// show it twice.
fn once(zone: &Zone<'_>, reading: PlainDateTime) -> Option<OffsetDateTime>
    ensures { IfSome result (λ moment. (m : LocalAndOffset)
        → (m ≡ moment) ↔ Shows zone.now reading m) }
{
    match zone.resolve(reading) {
        Local::Single(moment) => Some(moment),
        Local::Gap(_) => None,
        Local::Fold { .. } => None,
    }
}

/// Returns the gap of a reading that the clocks of a zone skip, and `None` if they show it.
fn gap_at(zone: &Zone<'_>, reading: PlainDateTime) -> Option<Gap>
    ensures { IfSome result (λ _. (m : LocalAndOffset) → ¬ Shows zone.now reading m) }
{
    match zone.resolve(reading) {
        Local::Gap(gap) => Some(gap),
        Local::Single(_) => None,
        Local::Fold { .. } => None,
    }
}

/// Converts a date-time to the clock of a zone and back to its own offset.
fn there_and_back(moment: OffsetDateTime, zone: &Zone<'_>) -> Option<OffsetDateTime>
    ensures { IfSome result (λ same. instant same ≡ instant moment) }
{
    in_zone(moment, zone)?.checked_to_offset(moment.offset())
}

/// Returns the rule of a change of the clocks at 1:00 UTC on the last Sunday of a month.
fn last_sunday(month: Month, before: i32, after: i32) -> Yearly {
    Yearly {
        month,
        week: 5,
        weekday: Weekday::Sunday,
        time: 3_600 + before.clamp(-93_599, 93_599),
        kind: LocalType {
            offset: after,
            is_daylight: after > before,
            name_start: 0,
            name_end: 0,
        },
    }
}

/// Returns a zone of the European Union, by its offset in winter.
pub fn european(winter: i32) -> Option<Zone<'static>> {
    let summer = winter.checked_add(3_600)?;
    let spring = last_sunday(Month::March, winter, summer);
    let autumn = last_sunday(Month::October, summer, winter);
    let rule = Rule::new(spring, autumn)?;
    Zone::new(rule.before(), Table::empty(b""), Some(rule)).ok()
}

pub fn show(rt: &impl Print) -> io::Result<()> {
    let Some(berlin) = european(3_600) else {
        return Ok(());
    };
    for (month, day) in [(Month::March, 31), (Month::July, 1), (Month::October, 27)] {
        let Ok(date) = Date::from_calendar_date(2024, month, day) else {
            return Ok(());
        };
        let Ok(reading) = with_hms_nano(date, 2, 30, 0, 0) else {
            return Ok(());
        };
        let is_skipped = gap_at(&berlin, reading).is_some();
        let moments = [
            once(&berlin, reading),
            there_and_back(reading.assume_utc(), &berlin),
        ];
        println!(rt; "{moments:?} {is_skipped}")?;
    }
    Ok(())
}
