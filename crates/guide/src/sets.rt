//! Recurrence sets, their text, and their occurrences in a time zone.
ghost use Rattle.std.specs.Prelude.{◌≡◌, ◌<◌, ◌<ℤ◌, ◌≤ℤ◌, ℤ, [], IfSome, take, true, false};
ghost use Rattle.std.specs.List.{All};
ghost use Rattle.cal_datetime.specs.OffsetDateTime.{LocalAndOffset, instant};
ghost use Rattle.cal_recurrence.specs.DateTimeSet.{is_in_set as is_reading};
ghost use Rattle.cal_recurrence.specs.Folding.{IsShortLine, IsUnfolded};
ghost use Rattle.cal_recurrence.specs.Sets.{is_in_set, is_listed};
ghost use Rattle.cal_recurrence.specs.SetText.{lines_of, SaysSet};
ghost use Rattle.cal_recurrence.specs.Words.{parts_at};
ghost use Rattle.cal_recurrence.specs.ZonedSet.{Occurs};
ghost use Rattle.cal_recurrence.specs.declared.set_parts.SetParts.{SetParts};
ghost use Rattle.cal_zone.specs.Local.{Shows};

use crate::zones::european;
use cal_datetime::{OffsetDateTime, midnight, with_hms_nano};
use cal_recurrence::{CountedZonedSet, RecurrenceSet, fold, parse, parse_set, unfold};
use cal_schedule::{ByDay, Frequency, Rule};
use cal_time::{Date, Month, Weekday};
use std::io;

/// Returns `true` if a date is a day of a set. A date in both lists isn't one.
#[tactic(auto, unfolding(cal_recurrence::specs::Sets::is_in_set))]
fn is_day(set: &RecurrenceSet<'_>, date: Date) -> bool
    ensures without { is_listed set.now.exceptions.now date ≡ true → result ≡ false }
    ensures more { is_listed set.now.dates.now date ≡ true
        → is_listed set.now.exceptions.now date ≡ false → result ≡ true }
{
    set.contains(date)
}

/// Returns the first two days of a set after a date, neither of which is an exception.
#[tactic(auto, unfolding(cal_recurrence::specs::Sets::is_in_set))]
fn next_days(set: &RecurrenceSet<'_>, date: Date) -> Option<(Date, Date)>
    ensures order { IfSome result (λ days. (date < days.0) × (days.0 < days.1)) }
    ensures without { IfSome result (λ days.
        (is_listed set.now.exceptions.now days.0 ≡ false)
        × (is_listed set.now.exceptions.now days.1 ≡ false)) }
{
    let first = set.next_after(date)?;
    let second = set.next_after(first)?;
    Some((first, second))
}

/// Returns `true`: the days after a date begin with the next day of the set.
fn begins_with_next(set: &RecurrenceSet<'_>, date: Date) -> bool
    ensures { result ≡ true }
{
    set.days_after(date).next() == set.next_after(date)
}

/// Writes the set of a text to a buffer, in one order, and returns the number of bytes. They say the
/// same set.
fn respell(text: &[u8], buffer: &mut [u8]) -> Option<usize>
    ensures { IfSome result (λ end. (p : SetParts) × (SaysSet (lines_of text.now) p
        × SaysSet (lines_of (take end buffer.new)) p)) }
{
    match parse_set(text) {
        Ok(parts) => parts.print(buffer),
        Err(_) => None,
    }
}

/// Folds the lines of a text, and unfolds them again. Returns the numbers of bytes.
fn fold_and_unfold(text: &[u8], folded: &mut [u8], again: &mut [u8]) -> Option<(usize, usize)>
    ensures short { IfSome result (λ ends.
        All IsShortLine (parts_at 10 (take ends.0 folded.new))) }
    ensures same { IfSome result (λ ends. IsUnfolded text.now (take ends.1 again.new)) }
{
    let end = fold(text, folded)?;
    let same = unfold(&folded[..end], again)?;
    Some((end, same))
}

/// Returns the first moment of a set in a zone after another one. None comes between them.
#[tactic(auto, using(cal_recurrence::specs::ZonedSetLaws::none_between))]
fn next_moment(set: &mut CountedZonedSet<'_>, moment: OffsetDateTime) -> Option<OffsetDateTime>
    ensures { IfSome result (λ next. (z : ℤ) (m : LocalAndOffset) → Occurs set.old z m
        → instant moment <ℤ instant m → instant next ≤ℤ instant m) }
{
    set.next_after(moment)
}

/// Returns the same for a set without other instants. The clocks of the zone show a reading of the
/// set then, unless they skip it.
#[tactic(auto, using(cal_recurrence::specs::ZonedSetLaws::by_reading, cal_recurrence::specs::ZonedSetLaws::shown))]
fn next_shown(set: &mut CountedZonedSet<'_>, moment: OffsetDateTime) -> Option<OffsetDateTime>
    ensures later { IfSome result (λ next. instant moment <ℤ instant next) }
    ensures shown { set.old.instants.now ≡ [] → IfSome result (λ next. (z : ℤ)
        × ((is_reading set.old.readings z ≡ true)
        × ((m : LocalAndOffset) → Shows set.old.zone.now z m → Shows set.old.zone.now z next))) }
{
    set.next_after(moment)
}

/// Prints whether two days of 2024 are in the set of the last Fridays of the months and 4 July,
/// without 26 January, and its first two days.
fn show_days(rt: &impl Print, first: Date) -> io::Result<()> {
    let (Ok(january), Ok(july)) = (
        Date::from_calendar_date(2024, Month::January, 26),
        Date::from_calendar_date(2024, Month::July, 4),
    ) else {
        return Ok(());
    };
    let mut rule = Rule::new(first, Frequency::Monthly);
    let last_friday = ByDay::Nth(-1, Weekday::Friday);
    rule.pattern.weekdays.push(last_friday);
    let (more, without) = ([july], [january]);
    let set = RecurrenceSet {
        rule,
        dates: &more,
        exceptions: &without,
    };
    let days = [is_day(&set, january), is_day(&set, july)];
    println!(rt; "{days:?} {:?}", next_days(&set, first))?;
    println!(rt; "{}", begins_with_next(&set, first))
}

/// Prints the moment after 2024-03-31 0:00 UTC of 2:30 on each day of 2024 in Berlin.
fn show_moment(rt: &impl Print, first: Date) -> io::Result<()> {
    let Ok(change) = Date::from_calendar_date(2024, Month::March, 31) else {
        return Ok(());
    };
    let Ok(start) = with_hms_nano(first, 2, 30, 0, 0) else {
        return Ok(());
    };
    let Some(berlin) = european(3_600) else {
        return Ok(());
    };
    let Ok(daily) = parse(b"FREQ=DAILY;COUNT=366") else {
        return Ok(());
    };
    let mut set = daily.zoned_set(start, &[], &[], &berlin);
    let change = midnight(change).assume_utc();
    println!(rt;
        "{:?} {:?}",
        next_moment(&mut set, change),
        next_shown(&mut set, change)
    )
}

pub fn show(rt: &impl Print) -> io::Result<()> {
    let Ok(first) = Date::from_calendar_date(2024, Month::January, 1) else {
        return Ok(());
    };
    show_days(rt, first)?;
    let text = b"exdate:20240126\nDTSTART:20240101\nRRULE:byday=-1fr;freq=monthly";
    let (mut written, mut folded, mut again) = ([0; 128], [0; 128], [0; 128]);
    println!(rt; "{:?}", respell(text, &mut written))?;
    println!(rt;
        "{:?}",
        fold_and_unfold(&[b'x'; 76], &mut folded, &mut again)
    )?;
    show_moment(rt, first)
}
