//! Parsing the bytes of a zone.
ghost use Rattle.std.specs.Prelude.{◌≡◌, IfErr, IfOk};
ghost use Rattle.cal_zone.specs.Zone.{made_of, AreParts};
ghost use Rattle.cal_tzif.specs.File.{IsFile, IsFileError, IsPosix};
ghost use Rattle.cal_tzif.specs.PosixError.{IsTextError};
ghost use Rattle.cal_c.specs.Zones.{timeline_status, zone_status, IsMade, IsPartsError, IsPartsOf};

use crate::status::{
    CHANGES_OUT_OF_ORDER, INVALID_ABBREVIATION, INVALID_LOCAL_TYPE, INVALID_POSIX_OFFSET,
    INVALID_RULE_DAY, INVALID_RULE_TIME, INVALID_TYPE_INDEX, LEAP_SECONDS, MISSING_LOCAL_TYPE,
    MISSING_NEWLINE, MONTHS_TOO_CLOSE, NOT_A_ZONE_FILE, OK, OVERLAPPING_CHANGES, TRAILING_BYTES,
    UNEXPECTED_END, UNSUPPORTED_VERSION,
};
use crate::zones::checked_zone::CheckedParts;
use crate::zones::results::PartsResult;
use cal_tzif::{ZoneError, ZoneErrorKind, parse_parts, parse_posix_parts};
use cal_zone::{ChangeError, TimelineError, ZoneParts};

/// Returns the status of changes that are not in order.
fn timeline_status(error: TimelineError) -> i32
    ensures { result ≡ timeline_status error }
{
    match error {
        TimelineError::Change(ChangeError::Overlap(_)) | TimelineError::Junction => {
            OVERLAPPING_CHANGES
        }
        TimelineError::Change(ChangeError::FirstOffset) => INVALID_LOCAL_TYPE,
        TimelineError::Change(ChangeError::Offset(_)) => INVALID_LOCAL_TYPE,
        TimelineError::Change(ChangeError::Instant(_)) => CHANGES_OUT_OF_ORDER,
        TimelineError::Change(ChangeError::NotRising(_)) => CHANGES_OUT_OF_ORDER,
    }
}

/// Returns the status of an error.
fn zone_status(kind: ZoneErrorKind) -> i32
    ensures { result ≡ zone_status kind }
{
    match kind {
        ZoneErrorKind::Truncated => UNEXPECTED_END,
        ZoneErrorKind::Magic => NOT_A_ZONE_FILE,
        ZoneErrorKind::Version => UNSUPPORTED_VERSION,
        ZoneErrorKind::LeapSeconds => LEAP_SECONDS,
        ZoneErrorKind::NoType => MISSING_LOCAL_TYPE,
        ZoneErrorKind::TypeIndex => INVALID_TYPE_INDEX,
        ZoneErrorKind::Offset | ZoneErrorKind::Daylight => INVALID_LOCAL_TYPE,
        ZoneErrorKind::NameIndex | ZoneErrorKind::NotAscii | ZoneErrorKind::NameEnd => {
            INVALID_ABBREVIATION
        }
        ZoneErrorKind::Name => INVALID_ABBREVIATION,
        ZoneErrorKind::Timeline(error) => timeline_status(error),
        ZoneErrorKind::Newline => MISSING_NEWLINE,
        ZoneErrorKind::PosixOffset => INVALID_POSIX_OFFSET,
        ZoneErrorKind::Day => INVALID_RULE_DAY,
        ZoneErrorKind::Time => INVALID_RULE_TIME,
        ZoneErrorKind::Months => MONTHS_TOO_CLOSE,
        ZoneErrorKind::Trailing => TRAILING_BYTES,
    }
}

/// Returns the parts of a zone as numbers, or the status and the position of an error.
fn parts_result(parsed: Result<ZoneParts<'_>, ZoneError>) -> PartsResult
    requires { IfOk parsed AreParts }
    ensures value { IfOk parsed.entry (λ parts. IsPartsOf parts.bytes.now (made_of parts) result) }
    ensures error { IfErr parsed.entry (λ error. IsPartsError error result) }
{
    match parsed {
        Ok(parts) => PartsResult {
            status: OK,
            unused: 0,
            position: usize::MAX,
            parts: CheckedParts::new(parts),
        },
        Err(error) => PartsResult {
            status: zone_status(error.kind),
            unused: 0,
            position: error.position,
            parts: CheckedParts::unset(),
        },
    }
}

/// Checks the bytes of a TZif file once for many calls. Returns the first error, with the position
/// of the first wrong byte; then every call rejects the parts.
#[unsafe(no_mangle)]
pub extern "C" fn fots_zone_file_parts(bytes: &[u8]) -> PartsResult
    ensures { IsMade bytes.now (IsFile bytes.now) (IsFileError bytes.now) result }
{
    parts_result(parse_parts(bytes))
}

/// Checks a POSIX text, such as `CET-1CEST,M3.5.0,M10.5.0/3`, like `fots_zone_file_parts`. `CET`
/// has no offset at position 3.
#[unsafe(no_mangle)]
pub extern "C" fn fots_zone_posix_parts(text: &[u8]) -> PartsResult
    ensures { IsMade text.now (IsPosix text.now) (IsTextError text.now 0) result }
{
    parts_result(parse_posix_parts(text))
}
