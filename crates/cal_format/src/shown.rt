//! The components that items show.
ghost use Rattle.std.specs.Prelude.{◌≡◌, ◌==◌, ◌≤◌, ◌++◌, ◌∷◌, [], ◌&&◌, ◌||◌, List, nat_le, true, if◌then◌else◌};
ghost use Rattle.cal_format.specs.declared.item.Component.{Component};
ghost use Rattle.cal_format.specs.declared.item.Item.{Item};
ghost use Rattle.cal_format.specs.Reading.{index, mark_of, item_component, shows};
ghost use Rattle.cal_format.specs.Shown.{AreShown, low_of, end_of, is_fixed, shows_rare, is_calendar, is_ordinal, is_week, shows_hour_once, shows_part, shows_one_part, shows_rare_part, is_clock};

use crate::item::{Component, Item, Padding};

/// A mark for each component that items show, and the range of the indices of these components.
#[derive(Debug, Drop)]
pub(crate) struct Shown {
    marks: [bool; 34],
    /// The minimum index, or 34 for no component.
    low: usize,
    /// The maximum index plus 1, or 0 for no component, or 35 for an abbreviation.
    end: usize,
    /// `true` if each item has a fixed end.
    is_fixed: bool,
}

impl Shown {
    /// Returns the marks of no items.
    pub(crate) fn new() -> Shown
        ensures { AreShown [] result }
    {
        Shown {
            marks: [false; 34],
            low: 34,
            end: 0,
            is_fixed: true,
        }
    }

    /// Adds an item with its component.
    #[inline(always)]
    pub(crate) fn add(&mut self, item: Item, component: Option<Component>)
        requires { component ≡ item_component item }
        ensures shown { (items : List Item) → AreShown items self.old
            → AreShown (items ++ item ∷ []) self.new }
        ensures marks { (c : Component) → mark_of c self.new.marks
            ≡ (mark_of c self.old.marks || shows c item) }
    {
        self.low = self.low.min(low_of(component));
        self.end = self.end.max(end_of(item, component));
        self.is_fixed &= is_fixed(item);
        if let Some(component) = component {
            set(&mut self.marks, component);
        }
    }

    /// Returns `true` if an item shows the component.
    #[inline(always)]
    pub(crate) fn shows(&self, component: Component) -> bool
        ensures { result ≡ mark_of component self.now.marks }
    {
        self.marks[component.index()]
    }

    /// Returns `true` if each item has a fixed end.
    #[inline(always)]
    pub(crate) fn is_fixed(&self) -> bool
        ensures { result ≡ self.now.is_fixed }
    {
        self.is_fixed
    }

    /// Returns `true` if a calendar date is shown, perhaps with its weekday, and no other component
    /// of a date.
    #[inline(always)]
    pub(crate) fn is_calendar(&self) -> bool
        ensures { result ≡ is_calendar self.now.marks }
    {
        let date = self.shows(Component::Year)
            && self.shows(Component::Month)
            && self.shows(Component::Day);
        let other = self.shows(Component::IsoYear)
            | self.shows(Component::Ordinal)
            | self.shows(Component::IsoWeek);
        date && !(other | self.shows_rare())
    }

    /// Returns `true` if an ordinal date is shown, and no other component of a date.
    #[inline(always)]
    pub(crate) fn is_ordinal(&self) -> bool
        ensures { result ≡ is_ordinal self.now.marks }
    {
        let date = self.shows(Component::Year) && self.shows(Component::Ordinal);
        let other = self.shows(Component::IsoYear)
            | self.shows(Component::Month)
            | self.shows(Component::Day)
            | self.shows(Component::IsoWeek)
            | self.shows(Component::Weekday);
        date && !(other | self.shows_rare())
    }

    /// Returns `true` if a week date is shown, and no other component of a date.
    #[inline(always)]
    pub(crate) fn is_week(&self) -> bool
        ensures { result ≡ is_week self.now.marks }
    {
        let date = self.shows(Component::IsoYear)
            && self.shows(Component::IsoWeek)
            && self.shows(Component::Weekday);
        let other = self.shows(Component::Year)
            | self.shows(Component::Month)
            | self.shows(Component::Day)
            | self.shows(Component::Ordinal);
        date && !(other | self.shows_rare())
    }

    /// Returns `true` if a component of a date is shown that no calendar date, ordinal date or week
    /// date has.
    #[inline(always)]
    fn shows_rare(&self) -> bool
        ensures { result ≡ shows_rare self.now.marks }
    {
        self.shows(Component::Century)
            | self.shows(Component::YearOfCentury)
            | self.shows(Component::DaysFromMonday)
            | self.shows(Component::DaysFromSunday)
            | self.shows(Component::SundayWeekday)
            | self.shows(Component::SundayWeek)
            | self.shows(Component::MondayWeek)
    }

    /// Returns `true` if a time of day is shown, by one number for each of its parts.
    #[inline(always)]
    pub(crate) fn is_clock(&self) -> bool
        ensures { result ≡ is_clock self.now.marks }
    {
        let minute = self.shows(Component::Minute);
        let second = self.shows(Component::Second);
        self.shows_hour_once()
            && (minute || !second)
            && (second || !self.shows_part())
            && self.shows_one_part()
            && !self.shows_rare_part()
    }

    /// Returns `true` if an hour is shown by one number, or by one and a half of the day.
    #[inline(always)]
    fn shows_hour_once(&self) -> bool
        ensures { result ≡ shows_hour_once self.now.marks }
    {
        let hour12 = self.shows(Component::Hour12);
        let period = self.shows(Component::Period);
        if self.shows(Component::Hour) {
            !(hour12 || period)
        } else {
            hour12 && period
        }
    }

    /// Returns `true` if milliseconds, microseconds or nanoseconds are shown.
    #[inline(always)]
    fn shows_part(&self) -> bool
        ensures { result ≡ shows_part self.now.marks }
    {
        self.shows(Component::Nanosecond)
            || self.shows(Component::Microsecond)
            || self.shows(Component::Millisecond)
    }

    /// Returns `true` if at most one of them is shown.
    #[inline(always)]
    fn shows_one_part(&self) -> bool
        ensures { result ≡ shows_one_part self.now.marks }
    {
        let microsecond = self.shows(Component::Microsecond);
        let millisecond = self.shows(Component::Millisecond);
        if self.shows(Component::Nanosecond) {
            !(microsecond || millisecond)
        } else {
            !(microsecond && millisecond)
        }
    }

    /// Returns `true` if another part of the second is shown.
    #[inline(always)]
    fn shows_rare_part(&self) -> bool
        ensures { result ≡ shows_rare_part self.now.marks }
    {
        self.shows(Component::Subsecond1)
            | self.shows(Component::Subsecond2)
            | self.shows(Component::Subsecond4)
            | self.shows(Component::Subsecond5)
            | self.shows(Component::Subsecond7)
            | self.shows(Component::Subsecond8)
    }

    /// Returns `true` if the items show only components with an index from `low` to below `high`.
    #[inline(always)]
    pub(crate) fn is_within(&self, low: usize, high: usize) -> bool
        ensures { result ≡ (nat_le low self.now.low && nat_le self.now.end high) }
    {
        low <= self.low && self.end <= high
    }
}

/// Returns the index of a component, or 34.
#[inline(always)]
fn low_of(component: Option<Component>) -> usize
    ensures { result ≡ low_of component }
{
    match component {
        Some(component) => component.index(),
        None => 34,
    }
}

/// Returns the index after the component of an item, or 0, or 35 for an abbreviation.
#[inline(always)]
fn end_of(item: Item, component: Option<Component>) -> usize
    requires { component ≡ item_component item }
    ensures { result ≡ end_of item }
{
    match item {
        Item::Literal(_) => 0,
        Item::Abbreviation => 35,
        _ => low_of(component) + 1,
    }
}

/// Returns `true` if the item ends before any item that follows it.
#[inline(always)]
fn is_fixed(item: Item) -> bool
    ensures { result ≡ is_fixed item }
{
    match item {
        Item::Number(_, Padding::None) | Item::Signed(_, Padding::None) => false,
        Item::Fraction | Item::Decimals => false,
        Item::OffsetMinus | Item::TimestampMinus => false,
        _ => true,
    }
}

/// Sets the mark of a component.
#[inline(always)]
fn set(marks: &mut [bool; 34], component: Component)
    ensures { (c : Component) → mark_of c marks.new
        ≡ (if index component == index c then true else mark_of c marks.old) }
{
    marks[component.index()] = true;
}
