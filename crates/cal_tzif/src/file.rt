//! TZif files and POSIX texts as zones.
ghost use Rattle.std.specs.Prelude.{◌≡◌, ◌+◌, ◌*◌, ◌^◌, ◌<◌, ◌≤◌, length, IfOk, IfErr, OnErr};
ghost use Rattle.cal_zone.specs.Table.{IsInside, changes_in};
ghost use Rattle.cal_zone.specs.Timeline.{Timeline, InOrder};
ghost use Rattle.cal_zone.specs.Zone.{made_of, AreParts, IsTimelineError};
ghost use Rattle.cal_tzif.specs.File.{HasFooter, IsFooterError, footer_rule, rule_type, first_type, timeline_position, IsFile, IsFileError, IsPosix};
ghost use Rattle.cal_tzif.specs.PosixError.{IsTextError};

use crate::bytes::byte;
use crate::footer::{Footer, parse_text};
use crate::header::read_headers;
use crate::types::check_types;
use crate::zone_error::{ZoneError, ZoneErrorKind};
use cal_zone::{ChangeError, Layout, LocalType, Rule, Table, TimelineError, Zone, ZoneParts, join};

/// Parses the footer between two newlines, of which the second ends the file. An empty footer is
/// `None`.
fn parse_footer(bytes: &[u8], at: usize) -> Result<Option<Footer>, ZoneError>
    ensures value { IfOk result (HasFooter bytes.now at) }
    ensures error { IfErr result (IsFooterError bytes.now at) }
{
    if byte(bytes, at) != b'\n' {
        return Err(ZoneErrorKind::Newline.at(at));
    }
    let last = bytes.len() - 1;
    if at == last || bytes[last] != b'\n' {
        return Err(ZoneErrorKind::Newline.at(bytes.len()));
    }
    if at + 1 == last {
        return Ok(None);
    }
    match parse_text(&bytes[..last], at + 1) {
        Ok(footer) => Ok(Some(footer)),
        Err(error) => Err(error),
    }
}

/// Returns the rule of a footer, if it has one.
fn footer_rule(footer: Option<Footer>) -> Option<Rule>
    ensures { result ≡ footer_rule footer }
{
    match footer {
        Some(footer) => footer.rule,
        None => None,
    }
}

/// Returns how the clocks are set before the first change of a rule, or always without a rule.
fn rule_type(standard: LocalType, rule: Option<Rule>) -> LocalType
    ensures { result ≡ rule_type standard rule }
{
    match rule {
        Some(rule) => rule.before(),
        None => standard,
    }
}

/// Returns how the clocks are set before the first change.
fn first_type(bytes: &[u8], layout: Layout, footer: Option<Footer>) -> LocalType
    requires inside { IsInside bytes.now layout }
    requires kinds { 0 < layout.kinds }
    ensures { result ≡ first_type bytes.now layout footer }
{
    if layout.changes > 0 {
        return layout.kind(bytes, 0);
    }
    match footer {
        Some(footer) => rule_type(footer.standard, footer.rule),
        None => layout.kind(bytes, 0),
    }
}

/// Returns the position of the change with an error, or of the footer, whose data block ends at
/// `end`.
fn timeline_position(layout: Layout, end: usize, error: TimelineError) -> usize
    requires { timeline_position layout end error < 2 ^ 63 }
    ensures { result ≡ timeline_position layout end error }
{
    match error {
        TimelineError::Change(ChangeError::FirstOffset) => layout.types,
        TimelineError::Change(ChangeError::Offset(index)) => layout.indexes + index,
        TimelineError::Change(ChangeError::Instant(index)) => layout.times + 8 * index,
        TimelineError::Change(ChangeError::NotRising(index)) => layout.times + 8 * index,
        TimelineError::Change(ChangeError::Overlap(index)) => layout.times + 8 * index,
        TimelineError::Junction => end + 1,
    }
}

/// Parses a TZif file (RFC 9636) to the parts of its zone. Returns the errors of `parse`.
pub fn parse_parts(bytes: &[u8]) -> Result<ZoneParts<'_>, ZoneError>
    ensures value { IfOk result (λ parts. IsFile bytes.now (made_of parts)) }
    ensures parts { IfOk result (λ parts. AreParts parts × (parts.bytes.now ≡ bytes.now)) }
    ensures none { OnErr result ((zone : Timeline) → ¬ IsFile bytes.now zone) }
    ensures error { IfErr result (IsFileError bytes.now) }
{
    let _ = bytes.len();
    let (layout, end) = read_headers(bytes)?;
    if let Err(error) = check_types(bytes, layout) {
        return Err(error);
    }
    let footer = parse_footer(bytes, end)?;
    let table = match Table::new(bytes, layout) {
        Ok(table) => table,
        Err(position) => return Err(ZoneErrorKind::TypeIndex.at(position)),
    };
    let first = first_type(bytes, layout, footer);
    let rule = footer_rule(footer);
    match join(first, &table, rule) {
        Ok(skip) => Ok(ZoneParts {
            first,
            bytes,
            layout,
            rule,
            skip,
        }),
        Err(error) => {
            let position = timeline_position(layout, end, error);
            Err(ZoneErrorKind::Timeline(error).at(position))
        }
    }
}

/// Parses a TZif file of the versions 2 to 4 (RFC 9636). The zone borrows the bytes.
///
/// Returns the kind and the position of the first part that is missing or wrong. No bytes are
/// `Truncated` at 0, and a file of version 1 is `Version` at 4.
pub fn parse(bytes: &[u8]) -> Result<Zone<'_>, ZoneError>
    ensures value { IfOk result (IsFile bytes.now) }
    ensures every { (zone : Timeline) → IsFile bytes.now zone → result ≡ Ok zone }
    ensures error { IfErr result (IsFileError bytes.now) }
{
    match parse_parts(bytes) {
        Ok(parts) => Ok(Zone::from_parts(parts)),
        Err(error) => Err(error),
    }
}

/// Parses a POSIX text, such as `CET-1CEST,M3.5.0,M10.5.0/3`, to the parts of its zone. Returns the
/// errors of `parse_posix`.
pub fn parse_posix_parts(text: &[u8]) -> Result<ZoneParts<'_>, ZoneError>
    ensures value { IfOk result (λ parts. IsPosix text.now (made_of parts)) }
    ensures parts { IfOk result (λ parts. AreParts parts × InOrder (made_of parts)
        × (parts.bytes.now ≡ text.now)) }
    ensures none { OnErr result ((zone : Timeline) → ¬ IsPosix text.now zone) }
    ensures error { IfErr result (IsTextError text.now 0) }
{
    let footer = parse_text(text, 0)?;
    let first = rule_type(footer.standard, footer.rule);
    match join(first, &Table::empty(text), footer.rule) {
        Ok(skip) => Ok(ZoneParts {
            first,
            bytes: text,
            layout: Layout::empty(),
            rule: footer.rule,
            skip,
        }),
        Err(_) => unreachable!(),
    }
}

/// Parses a POSIX text, such as `CET-1CEST,M3.5.0,M10.5.0/3`. The zone borrows the text.
///
/// Returns the kind and the position of the first part that is missing or wrong. `CET25` is
/// `PosixOffset` at 3, since an offset has at most 24 hours.
pub fn parse_posix(text: &[u8]) -> Result<Zone<'_>, ZoneError>
    ensures value { IfOk result (IsPosix text.now) }
    ensures every { (zone : Timeline) → IsPosix text.now zone → result ≡ Ok zone }
    ensures error { IfErr result (IsTextError text.now 0) }
{
    match parse_posix_parts(text) {
        Ok(parts) => Ok(Zone::from_parts(parts)),
        Err(error) => Err(error),
    }
}
