//! The numbers of components.
ghost use Rattle.std.specs.Prelude.{◌≡◌, ℕ, ◌+◌, ◌%◌, ◌<◌, ◌≤◌, ◌==◌, List, [], false, pos, Some, IsTrue, IfSome, IfNone, if◌then◌else◌};
ghost use Rattle.cal_time.specs.Date.{IsDate, HasCalendarDate, HasOrdinalDate};
ghost use Rattle.cal_time.specs.IsoWeekDate.{HasIsoWeekDate};
ghost use Rattle.cal_format.specs.declared.item.Component.{Component};
ghost use Rattle.cal_format.specs.declared.item.Component.TheVariants.{Year, IsoYear, Month, Day, Ordinal, IsoWeek, Weekday};
ghost use Rattle.cal_format.specs.declared.item.Item.{Item};
ghost use Rattle.cal_format.specs.Reading.{index, mark_of, is_component, item_component, show_within};
ghost use Rattle.cal_format.specs.Values.{number_in};
ghost use Rattle.cal_format.specs.Scanning.{number_at, field_of, HasField, IsNoField, IsNumberedDate, IsDateOfFields, HasHour, nanosecond_at, IsTimeOfFields};
ghost use Rattle.cal_format.specs.Shown.{AreShown};

use crate::date_parts::{calendar_date, iso_week_date, ordinal_date};
use crate::form::scan_item;
use crate::item::{Component, Item};
use crate::shown::Shown;
use crate::time_parts::time_with;
use cal_text::Scanner;
use cal_time::{Date, Time};

/// The numbers that a text has for components, and 0 for each component without a number.
#[derive(Debug, Drop)]
pub struct Fields {
    numbers: [u64; 34],
    shown: Shown,
}

impl Fields {
    /// Creates fields without numbers.
    pub fn new() -> Fields
        ensures zero { (c : Component) → number_at c result ≡ 0 }
        ensures shown { AreShown [] result.shown }
    {
        Fields {
            numbers: [0; 34],
            shown: Shown::new(),
        }
    }

    /// Parses an item at the front of a text, and sets the number of its component. Returns `false`
    /// at a byte that doesn't fit, at a number out of range, or at a component that has a number
    /// already. Then the numbers stay as they are. The month of `02-29` is 2, and leaves `-29`.
    #[inline(always)]
    pub fn scan(&mut self, item: Item, scanner: &mut Scanner) -> bool
        ensures value { IsTrue result
            → HasField item self.old self.new scanner.old.rest.now scanner.new.rest.now }
        ensures other { result ≡ false → IsNoField item self.old scanner.old.rest.now }
        ensures unchanged { result ≡ false → self.new ≡ self.old }
    {
        // A byte has no number, so it takes a shorter way.
        if let Item::Literal(byte) = item {
            return scanner.byte(byte).is_some();
        }
        let component = item.component();
        if self.has(component) {
            return false;
        }
        let Some(number) = scan_item(scanner, item) else {
            return false;
        };
        if let Some(_) = item.error(number) {
            return false;
        }
        self.set_number(component, number);
        self.shown.add(item, component);
        true
    }

    /// Returns `true` if the component has a number.
    #[inline(always)]
    fn has(&self, component: Option<Component>) -> bool
        ensures marked { IsTrue result → (c : Component) × IsTrue (is_component c component)
            × IsTrue (mark_of c self.now.shown.marks) }
        ensures fresh { result ≡ false → (c : Component) → IsTrue (is_component c component)
            → mark_of c self.now.shown.marks ≡ false }
    {
        match component {
            Some(component) => self.shown.shows(component),
            None => false,
        }
    }

    /// Returns `true` if the items that were parsed show only components with an index from `low` to
    /// below `high`. Dates have the indices from 0 to 13, and times of day from 14 to 27.
    #[inline(always)]
    pub fn are_within(&self, low: usize, high: usize) -> bool
        requires { (low ≤ 34) × (high ≤ 34) }
        ensures { (items : List Item) → AreShown items self.now.shown
            → result ≡ show_within low high items }
    {
        self.shown.is_within(low, high)
    }

    /// Returns the date of the numbers of a calendar date, perhaps with its weekday, of an ordinal
    /// date or of a week date. Returns `None` if no date has them, or if other components of a date
    /// have numbers too. The numbers 2024, 2 and 29 have the date 2024-02-29.
    pub fn date(&self) -> Option<Date>
        ensures value { IfSome result (IsDateOfFields self.now) }
        ensures none { IfNone result ((n : ℕ) → ¬ IsDateOfFields self.now n) }
    {
        let date = self.numbered_date()?;
        if self.shown.shows(Component::Weekday) {
            let weekday = u64::from(date.weekday().number_from_monday());
            if self.get(Component::Weekday) != weekday {
                return None;
            }
        }
        Some(date)
    }

    /// Returns the date of the numbers, whatever the number of the weekday beside them.
    #[inline(always)]
    fn numbered_date(&self) -> Option<Date>
        ensures value { IfSome result (IsNumberedDate self.now) }
        ensures none { IfNone result ((n : ℕ) → ¬ IsNumberedDate self.now n) }
    {
        if self.get(Component::Year) > 9_999 || self.get(Component::IsoYear) > 9_999 {
            return None;
        }
        if self.shown.is_calendar() {
            let date = self.calendar_date()?;
            return Some(date);
        }
        if self.shown.is_ordinal() {
            let date = self.ordinal_date()?;
            return Some(date);
        }
        if self.shown.is_week() {
            let date = self.week_date()?;
            return Some(date);
        }
        None
    }

    #[inline(always)]
    fn calendar_date(&self) -> Option<Date>
        requires { number_at Year self.now ≤ 9_999 }
        ensures every { (n : ℕ) → IsDate n
            → HasCalendarDate (pos (number_at Year self.now)) (number_at Month self.now) (number_at Day self.now) n
            → result ≡ Some n }
        ensures in_range { IfSome result IsDate }
        ensures value { IfSome result
            (HasCalendarDate (pos (number_at Year self.now)) (number_at Month self.now) (number_at Day self.now)) }
    {
        let month = self.get(Component::Month);
        let day = self.get(Component::Day);
        if month > 99 || day > 99 {
            return None;
        }
        calendar_date(self.get(Component::Year), month, day)
    }

    #[inline(always)]
    fn ordinal_date(&self) -> Option<Date>
        requires { number_at Year self.now ≤ 9_999 }
        ensures every { (n : ℕ) → IsDate n
            → HasOrdinalDate (pos (number_at Year self.now)) (number_at Ordinal self.now) n
            → result ≡ Some n }
        ensures in_range { IfSome result IsDate }
        ensures value { IfSome result
            (HasOrdinalDate (pos (number_at Year self.now)) (number_at Ordinal self.now)) }
    {
        let ordinal = self.get(Component::Ordinal);
        if ordinal > 999 {
            return None;
        }
        ordinal_date(self.get(Component::Year), ordinal)
    }

    #[inline(always)]
    fn week_date(&self) -> Option<Date>
        requires { number_at IsoYear self.now ≤ 9_999 }
        ensures every { (n : ℕ) → IsDate n
            → HasIsoWeekDate (pos (number_at IsoYear self.now)) (number_at IsoWeek self.now) ((number_at Weekday self.now + 6) % 7) n
            → result ≡ Some n }
        ensures in_range { IfSome result IsDate }
        ensures value { IfSome result
            (HasIsoWeekDate (pos (number_at IsoYear self.now)) (number_at IsoWeek self.now) ((number_at Weekday self.now + 6) % 7)) }
    {
        let week = self.get(Component::IsoWeek);
        if week > 99 {
            return None;
        }
        // Any number of a weekday fits: `date` rejects another one than the weekday of the day.
        let weekday = (self.get(Component::Weekday) % 7 + 6) % 7;
        iso_week_date(self.get(Component::IsoYear), week, weekday as u8)
    }

    /// Returns the time of day of the numbers, one for each of its parts. Returns `None` if no time
    /// has them, or if other components of a time of day have numbers too. The numbers 11 and 59
    /// have the time 11:59.
    pub fn time(&self) -> Option<Time>
        ensures value { IfSome result (IsTimeOfFields self.now) }
        ensures none { IfNone result ((t : ℕ) → ¬ IsTimeOfFields self.now t) }
    {
        if !self.shown.is_clock() {
            return None;
        }
        let hour = self.hour()?;
        let minute = self.get(Component::Minute);
        let second = self.get(Component::Second);
        let nanosecond = self.nanosecond()?;
        if minute > 59 || second > 59 {
            return None;
        }
        Some(time_with(hour, minute as u8, second as u8, nanosecond))
    }

    /// Returns the hour.
    #[inline(always)]
    fn hour(&self) -> Option<u8>
        ensures value { IfSome result (λ h. (h ≤ 23) × HasHour self.now h) }
        ensures none { IfNone result ((h : ℕ) → h ≤ 23 → ¬ HasHour self.now h) }
    {
        if self.shown.shows(Component::Hour) {
            let hour = self.get(Component::Hour);
            return if hour <= 23 { Some(hour as u8) } else { None };
        }
        let hour = self.get(Component::Hour12);
        let period = self.get(Component::Period);
        if hour == 0 || hour > 12 || period > 1 {
            return None;
        }
        Some((hour % 12 + period * 12) as u8)
    }

    /// Returns the nanoseconds of the second, or `None` if they are a second or more.
    #[inline(always)]
    fn nanosecond(&self) -> Option<u32>
        ensures value { IfSome result (λ n. (n ≤ 999_999_999) × (nanosecond_at self.now ≡ n)) }
        ensures none { IfNone result (999_999_999 < nanosecond_at self.now) }
    {
        if self.shown.shows(Component::Nanosecond) {
            let nanosecond = self.get(Component::Nanosecond);
            return if nanosecond <= 999_999_999 {
                Some(nanosecond as u32)
            } else {
                None
            };
        }
        if self.shown.shows(Component::Microsecond) {
            let microsecond = self.get(Component::Microsecond);
            return if microsecond <= 999_999 {
                Some(microsecond as u32 * 1_000)
            } else {
                None
            };
        }
        if self.shown.shows(Component::Millisecond) {
            let millisecond = self.get(Component::Millisecond);
            return if millisecond <= 999 {
                Some(millisecond as u32 * 1_000_000)
            } else {
                None
            };
        }
        Some(0)
    }

    /// Returns the number of a component, or 0 without one.
    #[inline(always)]
    pub fn get(&self, component: Component) -> u64
        ensures { result ≡ number_at component self.now }
    {
        self.numbers[component.index()]
    }

    /// Returns the number of the component that an item shows, or 0.
    #[inline(always)]
    pub(crate) fn number(&self, item: Item) -> u64
        ensures { result ≡ field_of self.now (item_component item) }
    {
        match item.component() {
            Some(component) => self.get(component),
            None => 0,
        }
    }

    /// Sets the numbers of the items. The first item that shows a component has its number.
    pub(crate) fn fill(&mut self, items: &[Item], numbers: &[u64])
        requires { (c : Component) → number_at c self.old ≡ 0 }
        ensures { (c : Component) → number_at c self.new ≡ number_in items.now numbers.now c }
    {
        if let [item, others @ ..] = items {
            if let [number, rest @ ..] = numbers {
                self.fill(others, rest);
                self.set_number(item.component(), *number);
            }
        }
    }

    /// Sets the number of a component.
    #[inline(always)]
    fn set_number(&mut self, component: Option<Component>, number: u64)
        ensures shown { self.new.shown ≡ self.old.shown }
        ensures set { (c : Component) → number_at c self.new
            ≡ (if is_component c component then number else number_at c self.old) }
    {
        if let Some(component) = component {
            self.numbers[component.index()] = number;
        }
    }
}
