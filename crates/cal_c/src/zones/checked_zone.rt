//! Zones whose bytes are checked once, for C.
ghost use Rattle.std.specs.Prelude.{◌≡◌, ◌↔◌, ℕ, ℤ, List, IfNone, IfSome, MatchOption};
ghost use Rattle.cal_zone.specs.Timeline.{local_at, offset_at, InOrder, IsMoment};
ghost use Rattle.cal_zone.specs.Zone.{later, made_of, AreParts};
ghost use Rattle.cal_c.specs.Zones.{changes_by_rule, local_type_in, yearly_in, zone_in, zone_of_parts, HasParts, HasPlaces, HasRule, HasRuleOrNone, HasZone};

use cal_time::{Cycle, Month, Weekday};
use cal_zone::{Layout, LocalType, Rule, UncheckedZone, Yearly, ZoneParts};

/// The mark of a zone without a rule. A struct of zeros is not a zone.
const NO_RULE: u32 = 1;

/// The mark of a zone whose last changes are those of a rule.
const RULE: u32 = 2;

/// A local time type: how clocks are set.
#[repr(C)]
#[derive(Clone, Copy, Debug, Default)]
pub struct ZoneClock {
    /// The seconds by which clocks are ahead of UTC.
    pub offset: i32,
    /// 1 for daylight saving time, else 0.
    pub is_daylight: u32,
    /// The position of the abbreviation in the bytes of the zone.
    pub name_start: usize,
    /// The position where the abbreviation ends, unless a zero byte ends it before.
    pub name_end: usize,
}

/// A change that comes each year.
#[repr(C)]
#[derive(Clone, Copy, Debug, Default)]
pub struct ZoneYearly {
    /// The index of the month, from 0.
    pub month: u8,
    /// 1 to 4 for the first to the fourth such weekday of the month, 5 for the last.
    pub week: u8,
    /// The index of the weekday, from 0 for Monday.
    pub weekday: u8,
    /// Always 0, so that equal zones have equal bytes.
    pub unused: u8,
    /// The seconds from midnight to the change, by the clocks before it, from -604800 to 604800.
    pub time: i32,
    pub clock: ZoneClock,
}

/// The parts of a zone that a call found in its bytes.
#[repr(C)]
#[derive(Clone, Copy, Debug)]
pub struct CheckedParts {
    /// 1 for a zone without a rule, 2 for one with a rule.
    pub rule: u32,
    pub skip: u32,
    pub layout: Layout,
    pub first: ZoneClock,
    pub one: ZoneYearly,
    pub other: ZoneYearly,
}

/// A zone: its bytes, and the parts that a call found in them.
#[repr(C)]
#[derive(Clone, Copy, Debug)]
pub struct CheckedZone<'a> {
    pub bytes: &'a [u8],
    pub parts: CheckedParts,
}

impl ZoneClock {
    /// Returns the numbers of a local time type.
    fn new(kind: LocalType) -> Self
        ensures { local_type_in result ≡ kind }
    {
        ZoneClock {
            offset: kind.offset,
            is_daylight: u32::from(kind.is_daylight),
            name_start: kind.name_start,
            name_end: kind.name_end,
        }
    }

    /// Returns the local time type of the numbers.
    #[inline(always)]
    fn kind(self) -> LocalType
        ensures { result ≡ local_type_in self }
    {
        LocalType {
            offset: self.offset,
            is_daylight: self.is_daylight > 0,
            name_start: self.name_start,
            name_end: self.name_end,
        }
    }
}

impl ZoneYearly {
    /// Returns the numbers of a change.
    fn new(yearly: Yearly) -> Self
        ensures value { yearly_in result ≡ yearly }
        ensures range { HasPlaces result }
        ensures unused { result.unused ≡ 0 }
    {
        ZoneYearly {
            month: yearly.month.place(),
            week: yearly.week,
            weekday: yearly.weekday.place(),
            unused: 0,
            time: yearly.time,
            clock: ZoneClock::new(yearly.kind),
        }
    }

    /// Returns the change of the numbers.
    #[inline(always)]
    fn held(self) -> Yearly
        requires { HasPlaces self }
        ensures { result ≡ yearly_in self }
    {
        Yearly {
            month: Month::at(self.month),
            week: self.week,
            weekday: Weekday::at(self.weekday),
            time: self.time,
            kind: self.clock.kind(),
        }
    }

    /// Returns the change of the numbers, or `None` for an invalid month or weekday.
    #[inline(always)]
    fn yearly(self) -> Option<Yearly>
        ensures some { IfSome result (λ yearly. (yearly ≡ yearly_in self) × HasPlaces self) }
        ensures none { IfNone result (¬ HasPlaces self) }
    {
        if self.month < 12 && self.weekday < 7 {
            Some(self.held())
        } else {
            None
        }
    }
}

impl CheckedParts {
    /// Creates the parts that every call rejects.
    pub(super) fn unset() -> Self
        ensures { result.rule ≡ 0 }
    {
        CheckedParts {
            rule: 0,
            skip: 0,
            layout: Layout::empty(),
            first: ZoneClock::default(),
            one: ZoneYearly::default(),
            other: ZoneYearly::default(),
        }
    }

    /// Returns the numbers of the parts of a zone.
    pub(super) fn new(parts: ZoneParts<'_>) -> Self
        requires { AreParts parts }
        ensures parts { HasParts parts.entry.bytes.now result }
        ensures value { zone_of_parts parts.entry.bytes.now result ≡ made_of parts.entry }
        ensures unused { (result.one.unused ≡ 0) × (result.other.unused ≡ 0) }
    {
        let first = ZoneClock::new(parts.first);
        let (layout, skip) = (parts.layout, parts.skip);
        match parts.rule {
            Some(rule) => {
                let (one, other) = rule.changes();
                CheckedParts {
                    rule: RULE,
                    skip,
                    layout,
                    first,
                    one: ZoneYearly::new(one),
                    other: ZoneYearly::new(other),
                }
            }
            None => CheckedParts {
                rule: NO_RULE,
                skip,
                layout,
                first,
                one: ZoneYearly::default(),
                other: ZoneYearly::default(),
            },
        }
    }

    /// Returns the rule of the two changes, or `None` if they are not a rule.
    #[inline(always)]
    fn two_changes(&self) -> Option<Rule>
        ensures some { IfSome result (λ rule. (rule.one ≡ yearly_in self.now.one)
            × (rule.other ≡ yearly_in self.now.other) × HasRule self.now) }
        ensures none { IfNone result (¬ HasRule self.now) }
    {
        Rule::new(self.one.yearly()?, self.other.yearly()?)
    }

    /// Returns the rule of the two changes, which are one.
    #[inline(always)]
    fn held(&self) -> Rule
        requires { HasRule self.now }
        ensures { (result.one ≡ yearly_in self.now.one) × (result.other ≡ yearly_in self.now.other) }
    {
        Rule::from_changes(self.one.held(), self.other.held())
    }

    /// Returns the offset at a Unix time by the rule. `None` says nothing about the offset.
    pub(super) fn offset_by_rule(&self, seconds: i64) -> Option<i32>
        requires { HasRuleOrNone self.now }
        ensures { (bytes : List ℕ) → InOrder (zone_of_parts bytes self.now)
            → IfSome result (λ offset. offset ≡ offset_at (zone_of_parts bytes self.now) seconds) }
    {
        if self.rule == RULE {
            self.held().offset_after(self.skip, seconds)
        } else {
            None
        }
    }

    /// Returns the only instant at which clocks show a reading by the rule. `None` says nothing
    /// about the reading.
    pub(super) fn single_by_rule(&self, reading: i64) -> Option<i64>
        requires moment { IsMoment reading }
        requires rule { HasRuleOrNone self.now }
        ensures { (bytes : List ℕ) → InOrder (zone_of_parts bytes self.now) → IfSome result
            (λ instant. (i : ℤ) → (i ≡ instant) ↔ (local_at (zone_of_parts bytes self.now) i ≡ reading)) }
    {
        if self.rule == RULE {
            self.held().single_after(self.skip, reading)
        } else {
            None
        }
    }

    /// Returns the rule, if there is one, or `None` if the mark of the rule or its changes are
    /// invalid.
    #[inline(always)]
    fn held_rule(&self) -> Option<Option<Rule>>
        ensures some { IfSome result (λ rule. later rule self.now.skip ≡ changes_by_rule self.now) }
        ensures marked { IfSome result (λ rule. HasRuleOrNone self.now) }
        ensures none { IfNone result (¬ HasRuleOrNone self.now) }
    {
        if self.rule == NO_RULE {
            return Some(None);
        }
        if self.rule != RULE {
            return None;
        }
        match self.two_changes() {
            Some(rule) => Some(Some(rule)),
            None => None,
        }
    }
}

impl<'a> CheckedZone<'a> {
    /// Returns the zone, or `None` if the struct has none. If the struct or the bytes were changed
    /// after the call that filled it, the zone can be any. It is inlined, since a copy of a zone
    /// takes as long as a search.
    #[inline(always)]
    pub(crate) fn unchecked(&self) -> Option<UncheckedZone<'a>>
        ensures { MatchOption result (¬ HasZone self.now)
            (λ zone. (zone ≡ zone_in self.now) × HasZone self.now) }
    {
        let parts = &self.parts;
        let rule = parts.held_rule()?;
        UncheckedZone::new(ZoneParts {
            first: parts.first.kind(),
            bytes: self.bytes,
            layout: parts.layout,
            rule,
            skip: parts.skip,
        })
    }
}
