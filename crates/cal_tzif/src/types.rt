//! Local time types of TZif files.
ghost use Rattle.std.specs.Prelude.{◌≡◌, ℕ, ◌+◌, ◌<◌, ◌≤◌, length, IfErr, OnOk};
ghost use Rattle.cal_zone.specs.Table.{IsInside};
ghost use Rattle.cal_tzif.specs.Types.{IsType, IsTypeError, AreAscii, IsAsciiError, EndsWithNul, IsEndError, HasTypes, IsTypesError};

use crate::zone_error::{ZoneError, ZoneErrorKind};
use cal_zone::Layout;

/// Checks the offset, the flag and the abbreviation of a local time type.
fn check_type(bytes: &[u8], layout: Layout, index: usize) -> Result<(), ZoneError>
    requires inside { IsInside bytes.now layout }
    requires index { index < layout.kinds }
    ensures value { OnOk result (IsType bytes.now layout index) }
    ensures error { IfErr result (IsTypeError bytes.now layout index) }
{
    let _ = bytes.len();
    let at = layout.types + 6 * index;
    let kind = layout.kind(bytes, index);
    if kind.offset < -93_599 || kind.offset > 93_599 {
        return Err(ZoneErrorKind::Offset.at(at));
    }
    if bytes[at + 4] > 1 {
        return Err(ZoneErrorKind::Daylight.at(at + 4));
    }
    if kind.name_start >= layout.names_end {
        return Err(ZoneErrorKind::NameIndex.at(at + 5));
    }
    Ok(())
}

/// Checks that bytes are ASCII.
fn check_ascii(bytes: &[u8], start: usize, count: usize) -> Result<(), ZoneError>
    requires { start + count ≤ length bytes.now }
    ensures value { OnOk result (AreAscii bytes.now start count) }
    ensures error { IfErr result (IsAsciiError bytes.now start count) }
{
    let _ = bytes.len();
    'each: for index in 0..count {
        if bytes[start + index] > 127 {
            return Err(ZoneErrorKind::NotAscii.at(start + index));
        }
    }
    Ok(())
}

/// Checks that the byte before a position, at which the abbreviations end, is a NUL.
fn check_end(bytes: &[u8], end: usize) -> Result<(), ZoneError>
    requires { end ≤ length bytes.now }
    ensures value { OnOk result (EndsWithNul bytes.now end) }
    ensures error { IfErr result (IsEndError bytes.now end) }
{
    if end == 0 || bytes[end - 1] != 0 {
        return Err(ZoneErrorKind::NameEnd.at(end));
    }
    Ok(())
}

/// Checks the local time types and the abbreviations.
pub(crate) fn check_types(bytes: &[u8], layout: Layout) -> Result<(), ZoneError>
    requires inside { IsInside bytes.now layout }
    requires names { (layout.names ≤ layout.names_end) × (layout.names_end ≤ length bytes.now) }
    ensures value { OnOk result (HasTypes bytes.now layout) }
    ensures error { IfErr result (IsTypesError bytes.now layout) }
{
    'each: for index in 0..layout.kinds {
        if let Err(error) = check_type(bytes, layout, index) {
            return Err(error);
        }
    }
    if let Err(error) = check_ascii(bytes, layout.names, layout.names_end - layout.names) {
        return Err(error);
    }
    check_end(bytes, layout.names_end)
}
