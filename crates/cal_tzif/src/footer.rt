//! POSIX texts of time zones.
ghost use Rattle.std.specs.Prelude.{◌≡◌, ◌≤◌, ◌<◌, ◌+◌, ◌⊎◌, length, unsigned_abs, IfOk, IfErr, IfSome, IfNone};
ghost use Rattle.cal_time.specs.Month.{number};
ghost use Rattle.cal_zone.specs.Rule.{IsYearly};
ghost use Rattle.cal_zone.specs.Timeline.{IsOffset};
ghost use Rattle.cal_tzif.specs.Posix.{name_end, IsTime, offset, signed_time, IsStandard, standard, standard_end, IsDaylight, daylight, daylight_end, IsChange, IsYearlyAt, change_end, IsApart, IsRule, Spells};
ghost use Rattle.cal_tzif.specs.PosixError.{error_at, IsStandardError, IsDaylightError, IsChangeError, IsRuleError, IsTextError};
ghost use Rattle.cal_tzif.specs.declared.zone_error.ZoneErrorKind.TheVariants as kinds;

use crate::bytes::byte;
use crate::number::parse_time;
use crate::posix::{parse_change_time, parse_day, parse_name};
use crate::zone_error::{ZoneError, ZoneErrorKind};
use cal_zone::{LocalType, Rule, Yearly};

/// What a POSIX text says: the standard time, and the rule for daylight time if there is one.
#[derive(Clone, Copy)]
pub(crate) struct Footer {
    pub(crate) standard: LocalType,
    pub(crate) rule: Option<Rule>,
}

/// Parses an offset, and returns the position after it. POSIX counts hours behind UTC.
#[tactic(auto, unfolding(crate::specs::Posix::offset))]
fn parse_offset(text: &[u8], at: usize) -> Result<(i32, usize), ZoneError>
    requires inside { at ≤ length text.now }
    ensures value { IfOk result (λ r. IsTime text.now at 24 × (r.0 ≡ offset text.now at)
        × (r.1 ≡ (signed_time text.now at).1)) }
    ensures bound { IfOk result (λ r. (unsigned_abs r.0 < 90_000) × (r.1 ≤ length text.now)) }
    ensures error { IfErr result (λ e. (¬ IsTime text.now at 24)
        × (e ≡ error_at kinds.PosixOffset at)) }
{
    match parse_time(text, at, 24) {
        Some((behind, end)) => Ok((-behind, end)),
        None => Err(ZoneErrorKind::PosixOffset.at(at)),
    }
}

/// Parses the standard time: a name and an offset.
#[tactic(auto, unfolding(crate::specs::Posix::standard_end))]
fn parse_standard(text: &[u8], at: usize) -> Result<(LocalType, usize), ZoneError>
    requires inside { at ≤ length text.now }
    ensures value { IfOk result (λ r. IsStandard text.now at × (r.0 ≡ standard text.now at)
        × (r.1 ≡ standard_end text.now at)) }
    ensures bound { IfOk result (λ r. (unsigned_abs r.0.offset < 90_000)
        × (r.1 ≤ length text.now)) }
    ensures error { IfErr result (IsStandardError text.now at) }
{
    let Some(name) = parse_name(text, at) else {
        return Err(ZoneErrorKind::Name.at(at));
    };
    let (offset, end) = parse_offset(text, name.end)?;
    let kind = LocalType {
        offset,
        is_daylight: false,
        name_start: name.start,
        name_end: name.stop,
    };
    Ok((kind, end))
}

/// Parses the daylight time after the standard time.
#[tactic(auto, unfolding(crate::specs::Posix::standard_end, crate::specs::Posix::daylight_end, crate::specs::Posix::daylight_offset))]
fn parse_daylight(
    text: &[u8],
    at: usize,
    standard: LocalType,
) -> Result<(LocalType, usize), ZoneError>
    requires inside { at ≤ length text.now }
    requires standard { unsigned_abs standard.offset < 90_000 }
    ensures value { IfOk result (λ r. IsDaylight text.now at × (r.0 ≡ daylight text.now at standard.offset)
        × (r.1 ≡ daylight_end text.now at)) }
    ensures bound { IfOk result (λ r. IsOffset r.0.offset × (r.1 ≤ length text.now)) }
    ensures error { IfErr result (IsDaylightError text.now at) }
{
    let Some(name) = parse_name(text, at) else {
        return Err(ZoneErrorKind::Name.at(at));
    };
    if byte(text, name.end) == b',' {
        let kind = LocalType {
            offset: standard.offset + 3600,
            is_daylight: true,
            name_start: name.start,
            name_end: name.stop,
        };
        return Ok((kind, name.end));
    }
    let (offset, end) = parse_offset(text, name.end)?;
    let kind = LocalType {
        offset,
        is_daylight: true,
        name_start: name.start,
        name_end: name.stop,
    };
    Ok((kind, end))
}

/// Parses the change that comes each year on the day after a comma, and returns the position after
/// it.
#[tactic(auto, unfolding(crate::specs::Posix::change_end))]
fn parse_change(text: &[u8], at: usize, kind: LocalType) -> Result<(Yearly, usize), ZoneError>
    requires inside { at ≤ length text.now }
    requires offset { IsOffset kind.offset }
    ensures value { IfOk result (λ r. IsChange text.now at × IsYearlyAt text.now at kind r.0
        × (r.1 ≡ change_end text.now at)) }
    ensures bound { IfOk result (λ r. IsYearly r.0 × (r.1 ≤ length text.now)) }
    ensures error { IfErr result (IsChangeError text.now at) }
{
    if byte(text, at) != b',' {
        return Err(ZoneErrorKind::Day.at(at));
    }
    let Some(day) = parse_day(text, at + 1) else {
        return Err(ZoneErrorKind::Day.at(at + 1));
    };
    let Some((time, end)) = parse_change_time(text, day.end) else {
        return Err(ZoneErrorKind::Time.at(day.end));
    };
    let change = Yearly {
        month: day.month,
        week: day.week,
        weekday: day.weekday,
        time,
        kind,
    };
    Ok((change, end))
}

/// Returns the rule of two changes, or `None` if their months are the same or neighbours.
fn rule_of(begin: Yearly, end: Yearly) -> Option<Rule>
    requires begin { IsYearly begin }
    requires end { IsYearly end }
    ensures some { IfSome result (λ rule. ((rule.one ≡ begin) × (rule.other ≡ end))
        ⊎ ((rule.one ≡ end) × (rule.other ≡ begin))) }
    ensures apart { IfSome result (λ rule. IsApart (number begin.month) (number end.month)
        ⊎ IsApart (number end.month) (number begin.month)) }
    ensures none { IfNone result (¬ (IsApart (number begin.month) (number end.month)
        ⊎ IsApart (number end.month) (number begin.month))) }
{
    if u8::from(begin.month) < u8::from(end.month) {
        Rule::new(begin, end)
    } else {
        Rule::new(end, begin)
    }
}

/// Parses the rule after the standard time.
fn parse_rule(text: &[u8], at: usize, standard: LocalType) -> Result<Rule, ZoneError>
    requires inside { at ≤ length text.now }
    requires standard { unsigned_abs standard.offset < 90_000 }
    ensures value { IfOk result (IsRule text.now at standard) }
    ensures error { IfErr result (IsRuleError text.now at) }
{
    let (daylight, next) = parse_daylight(text, at, standard)?;
    let (begin, next) = parse_change(text, next, daylight)?;
    let (end, next) = parse_change(text, next, standard)?;
    if next != text.len() {
        return Err(ZoneErrorKind::Trailing.at(next));
    }
    match rule_of(begin, end) {
        Some(rule) => Ok(rule),
        None => Err(ZoneErrorKind::Months.at(at)),
    }
}

/// Parses the POSIX text from a position to the end.
pub(crate) fn parse_text(text: &[u8], at: usize) -> Result<Footer, ZoneError>
    requires inside { at ≤ length text.now }
    ensures value { IfOk result (Spells text.now at) }
    ensures offset { IfOk result (λ footer. IsOffset footer.standard.offset) }
    ensures error { IfErr result (IsTextError text.now at) }
{
    let (standard, end) = parse_standard(text, at)?;
    if end == text.len() {
        return Ok(Footer {
            standard,
            rule: None,
        });
    }
    let rule = parse_rule(text, end, standard)?;
    Ok(Footer {
        standard,
        rule: Some(rule),
    })
}
