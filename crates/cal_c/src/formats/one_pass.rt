//! Printing and parsing by the numbers of a format in one pass, without a format of its own.
ghost use Rattle.std.specs.Prelude.{◌≡◌, ◌*◌, ◌≤◌, List, [], None, IsTrue, IfSome, length, map};
ghost use Rattle.cal_format.specs.declared.item.Item.{Item};
ghost use Rattle.cal_format.specs.Moment.{IsMoment};
ghost use Rattle.cal_format.specs.Reading.{begins_apart, ends_before, shows_within, show_within};
ghost use Rattle.cal_format.specs.Scanning.{IsOneDate, IsOneTime, IsOnePair};
ghost use Rattle.cal_format.specs.Text.{text_of};
ghost use Rattle.cal_c.specs.Formats.{HasItems, IsFormat, item_parts};
ghost use Rattle.cal_c.specs.FormatTexts.{IsPrinted, IsUnprinted, length_error};
ghost use Rattle.cal_c.specs.OnePass.{IsItemOf, AreItemsOf, IsFormatOf, ScansItem, ScansItems, PrintsItem, PrintsItems};

use super::clocks::{clock_of, parse_clock};
use super::components::component_with;
use super::format_parts::{FormatItem, FormatParts};
use super::iso_dates::{is_iso, is_iso_week, parse_iso, parse_iso_week};
use super::items::item_with;
use super::names::name_with;
use super::printing::{MAX_LENGTH, write};
use super::results::LengthResult;
use crate::status::{INVALID_FORMAT, UNSUPPORTED_ITEM};
use cal_datetime::PlainDateTime;
use cal_format::{Component, Fields, Item, Moment, Padding};
use cal_text::Scanner;
use cal_time::{Date, Time};

/// Prints a moment by the items of a format, which may show only components with an index from
/// `low` to below `high`.
pub(super) fn print_moment(
    moment: &Moment,
    low: usize,
    high: usize,
    format: &FormatParts,
    bytes: &mut [u8],
) -> LengthResult
    requires { IsMoment moment.now }
    ensures invalid_format { ¬ IsFormat format.now
        → IsUnprinted bytes.old bytes.new result (length_error INVALID_FORMAT) }
    ensures value { (items : List Item) → HasItems format.now items
        → IsPrinted (show_within low high items) (text_of items moment.now) bytes.old bytes.new result }
{
    let mut text = [0; 64];
    match print_at_once(moment, low, high, format, &mut text) {
        Some(end) => write(&text, Some(end), bytes),
        None => print_in_steps(moment, low, high, format, bytes),
    }
}

/// Writes a moment to the front of a buffer by the items of a format, which may show only
/// components with an index from `low` to below `high`. Returns the number of bytes, or `None` for
/// another format, or if the buffer is too short.
pub(crate) fn print_at_once(
    moment: &Moment,
    low: usize,
    high: usize,
    format: &FormatParts,
    buffer: &mut [u8],
) -> Option<usize>
    requires { IsMoment moment.now }
    ensures value { IfSome result (λ end. IsFormatOf format.now
        (PrintsItems low high moment.now buffer.old buffer.new 0 end)) }
    ensures fits { IfSome result (λ end. end ≤ length buffer.old) }
    ensures few { IfSome result (λ _. format.now.length ≤ 64) }
    ensures max_length { IfSome result (λ end. end ≤ format.now.length * 15) }
{
    let parts = format.parts()?;
    let end = print_parts(parts, moment, low, high, buffer, 0);
    if end > buffer.len() {
        return None;
    }
    Some(end)
}

/// Prints a moment like `print_moment`: first creates the format, and then prints to a buffer with
/// room for each string. This finds the error of a string that `print_moment` can't print at once.
#[cold]
pub(super) fn print_in_steps(
    moment: &Moment,
    low: usize,
    high: usize,
    format: &FormatParts,
    bytes: &mut [u8],
) -> LengthResult
    requires { IsMoment moment.now }
    ensures invalid_format { ¬ IsFormat format.now
        → IsUnprinted bytes.old bytes.new result (length_error INVALID_FORMAT) }
    ensures value { (items : List Item) → HasItems format.now items
        → IsPrinted (show_within low high items) (text_of items moment.now) bytes.old bytes.new result }
{
    let format = or_error!(LengthResult, format.to_format(), INVALID_FORMAT);
    if !are_within(format.items(), low, high) {
        return LengthResult::error(UNSUPPORTED_ITEM);
    }
    let mut text = [0; MAX_LENGTH];
    let end = format.print_moment(moment, &mut text);
    write(&text, end, bytes)
}

/// Writes the items with these numbers to the buffer, from this position on. Returns the end, which
/// is past the buffer if one of them is not an item, or shows another component, or if the buffer
/// is too short. A plain number lets the compiler make a loop.
fn print_parts(
    parts: &[FormatItem],
    moment: &Moment,
    low: usize,
    high: usize,
    buffer: &mut [u8],
    at: usize,
) -> usize
    requires { at ≤ length buffer.old }
    ensures { result ≤ length buffer.old → AreItemsOf parts.now (PrintsItems low high moment.now buffer.old buffer.new at result) }
{
    match parts {
        [] => at,
        [part, others @ ..] => match print_part(*part, moment, low, high, buffer, at) {
            Some(next) => print_parts(others, moment, low, high, buffer, next),
            None => usize::MAX,
        },
    }
}

/// Writes an item. The usual items take a shorter way.
#[inline(always)]
fn print_part(
    part: FormatItem,
    moment: &Moment,
    low: usize,
    high: usize,
    buffer: &mut [u8],
    at: usize,
) -> Option<usize>
    ensures value { IfSome result (λ end.
        IsItemOf part (PrintsItem low high moment.now buffer.old buffer.new at end)) }
    ensures fits { IfSome result (λ end. end ≤ length buffer.old) }
{
    match part.kind {
        0 => print_within(Item::Literal(part.value), moment, low, high, buffer, at),
        1 => {
            let component = component_with(part.value)?;
            let item = Item::Number(component, Padding::Zero);
            print_within(item, moment, low, high, buffer, at)
        }
        _ => print_other_part(part, moment, low, high, buffer, at),
    }
}

/// Writes an item that `print_part` leaves. Not inlined, so that its loop stays short.
#[inline(never)]
fn print_other_part(
    part: FormatItem,
    moment: &Moment,
    low: usize,
    high: usize,
    buffer: &mut [u8],
    at: usize,
) -> Option<usize>
    ensures value { IfSome result (λ end.
        IsItemOf part (PrintsItem low high moment.now buffer.old buffer.new at end)) }
    ensures fits { IfSome result (λ end. end ≤ length buffer.old) }
{
    match part.kind {
        3 => {
            let component = component_with(part.value)?;
            let item = Item::Number(component, Padding::None);
            print_within(item, moment, low, high, buffer, at)
        }
        4 => {
            let item = Item::Name(name_with(part.value)?);
            print_within(item, moment, low, high, buffer, at)
        }
        _ => {
            let item = item_with(part)?;
            print_within(item, moment, low, high, buffer, at)
        }
    }
}

/// Writes an item, or returns `None` if it shows a component out of the range.
#[inline(always)]
fn print_within(
    item: Item,
    moment: &Moment,
    low: usize,
    high: usize,
    buffer: &mut [u8],
    at: usize,
) -> Option<usize>
    ensures value { IfSome result (λ end.
        PrintsItem low high moment.now buffer.old buffer.new at end item) }
    ensures fits { IfSome result (λ end. end ≤ length buffer.old) }
{
    if !is_within(item, low, high) {
        return None;
    }
    item.print(moment, buffer, at)
}

/// Parses a date by the items of a format. Returns `None` for another format and for a string that
/// isn't the string of a date.
pub(super) fn parse_date_at_once(text: &[u8], format: &FormatParts) -> Option<Date>
    ensures { IfSome result (λ n. IsFormatOf format.now (λ items. IsOneDate items n text.now)) }
{
    if is_iso(format) {
        return parse_iso(text);
    }
    if is_iso_week(format) {
        return parse_iso_week(text);
    }
    let parts = format.parts()?;
    let mut fields = Fields::new();
    if !scan_whole(parts, text, &mut fields) {
        return None;
    }
    if !fields.are_within(0, 14) {
        return None;
    }
    let date = fields.date()?;
    Some(date)
}

/// Parses a time of day by the items of a format, like `parse_date_at_once`.
pub(super) fn parse_time_at_once(text: &[u8], format: &FormatParts) -> Option<Time>
    ensures { IfSome result (λ t. IsFormatOf format.now (λ items. IsOneTime items t text.now)) }
{
    if let Some(shows_second) = clock_of(format) {
        return parse_clock(text, shows_second);
    }
    let parts = format.parts()?;
    let mut fields = Fields::new();
    if !scan_whole(parts, text, &mut fields) {
        return None;
    }
    if !fields.are_within(14, 28) {
        return None;
    }
    let time = fields.time()?;
    Some(time)
}

/// Parses a date and a time of day by the items of a format, like `parse_date_at_once`.
pub(super) fn parse_pair_at_once(text: &[u8], format: &FormatParts) -> Option<PlainDateTime>
    ensures { IfSome result (λ z. IsFormatOf format.now (λ items. IsOnePair items z text.now)) }
{
    let parts = format.parts()?;
    let mut fields = Fields::new();
    if !scan_whole(parts, text, &mut fields) {
        return None;
    }
    if !fields.are_within(0, 28) {
        return None;
    }
    let date = fields.date()?;
    let time = fields.time()?;
    Some(PlainDateTime::new(date, time))
}

/// Parses the whole string by the items with these numbers. Returns `false` if one of them is not
/// an item, or at a byte or a number that doesn't fit.
fn scan_whole(parts: &[FormatItem], text: &[u8], fields: &mut Fields) -> bool
    ensures { IsTrue result → AreItemsOf parts.now (λ items.
        ScansItems fields.old fields.new text.now [] items) }
{
    let mut scanner = Scanner { rest: text };
    let mut left = parts;
    while let [part, others @ ..] = left {
        if !scan_part(*part, others, &mut scanner, fields) {
            return false;
        }
        left = others;
    }
    scanner.rest.is_empty()
}

/// Parses an item before these others. The usual items take a shorter way.
#[inline(always)]
fn scan_part(
    part: FormatItem,
    others: &[FormatItem],
    scanner: &mut Scanner,
    fields: &mut Fields,
) -> bool
    ensures { IsTrue result → IsItemOf part (λ item.
        ScansItem fields.old fields.new scanner.old.rest.now scanner.new.rest.now others.now item) }
{
    match part.kind {
        0 => fields.scan(Item::Literal(part.value), scanner),
        1 => match component_with(part.value) {
            Some(component) => fields.scan(Item::Number(component, Padding::Zero), scanner),
            None => false,
        },
        _ => scan_other_part(part, others, scanner, fields),
    }
}

/// Parses an item that `scan_part` leaves, which tests for the usual items first.
#[inline(always)]
fn scan_other_part(
    part: FormatItem,
    others: &[FormatItem],
    scanner: &mut Scanner,
    fields: &mut Fields,
) -> bool
    ensures { IsTrue result → IsItemOf part (λ item.
        ScansItem fields.old fields.new scanner.old.rest.now scanner.new.rest.now others.now item) }
{
    match part.kind {
        3 => match component_with(part.value) {
            Some(component) => {
                let item = Item::Number(component, Padding::None);
                scan_plain(item, others, scanner, fields)
            }
            None => false,
        },
        4 => match name_with(part.value) {
            Some(name) => fields.scan(Item::Name(name), scanner),
            None => false,
        },
        _ => match item_with(part) {
            Some(item) => scan_plain(item, others, scanner, fields),
            None => false,
        },
    }
}

/// Parses an item, or returns `false` if the others could continue it.
#[inline(always)]
fn scan_plain(item: Item, others: &[FormatItem], scanner: &mut Scanner, fields: &mut Fields) -> bool
    ensures { IsTrue result
        → ScansItem fields.old fields.new scanner.old.rest.now scanner.new.rest.now others.now item }
{
    is_plain(item, others) && fields.scan(item, scanner)
}

/// Returns `true` for a byte, a name, and a number of a fixed width or before a byte or a name that
/// can't continue it. Other items end the pass early, and so do components with which
/// `Fields::date` and `Fields::time` find no value.
#[inline(always)]
fn is_plain(item: Item, others: &[FormatItem]) -> bool
    ensures { IsTrue result → (items : List Item) → others.now ≡ map item_parts items
        → IsTrue (ends_before item items) }
{
    match item {
        Item::Literal(_) | Item::Name(_) => true,
        Item::Number(component, padding) => match padding {
            Padding::Zero | Padding::Space => is_usual(component),
            Padding::None => is_usual(component) && begin_apart(others),
        },
        _ => false,
    }
}

#[inline(always)]
fn is_usual(component: Component) -> bool {
    match component {
        Component::Century
        | Component::YearOfCentury
        | Component::DaysFromMonday
        | Component::DaysFromSunday
        | Component::SundayWeekday
        | Component::SundayWeek
        | Component::MondayWeek
        | Component::Subsecond1
        | Component::Subsecond2
        | Component::Subsecond4
        | Component::Subsecond5
        | Component::Subsecond7
        | Component::Subsecond8 => false,
        _ => true,
    }
}

/// Returns `true` if there are no more items, or if the next one is a byte that is not a digit, or
/// a name.
#[inline(always)]
fn begin_apart(parts: &[FormatItem]) -> bool
    ensures { IsTrue result → (items : List Item) → parts.now ≡ map item_parts items
        → IsTrue (begins_apart items) }
{
    match parts {
        [] => true,
        [part, ..] => match part.kind {
            0 => part.value < b'0' || part.value > b'9',
            4 => true,
            _ => false,
        },
    }
}

/// Returns `true` if the items show only components with an index from `low` to below `high`.
pub(super) fn are_within(items: &[Item], low: usize, high: usize) -> bool
    ensures { result ≡ show_within low high items.now }
{
    match items {
        [] => true,
        [item, others @ ..] => is_within(*item, low, high) && are_within(others, low, high),
    }
}

#[inline(always)]
fn is_within(item: Item, low: usize, high: usize) -> bool
    ensures { result ≡ shows_within low high item }
{
    match item {
        Item::Abbreviation => false,
        _ => match item.component() {
            Some(component) => low <= component.index() && component.index() < high,
            None => true,
        },
    }
}
