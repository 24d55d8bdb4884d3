//! Errors in the bytes of a time zone.
ghost use Rattle.std.specs.Prelude.{◌≡◌, ◌≤◌, Some, length};
ghost use Rattle.cal_tzif.specs.ErrorText.{change_reason, timeline_reason, reason, error_text};

use cal_zone::{ChangeError, TimelineError};
use std::fmt;

/// A kind of error in the bytes of a time zone.
#[derive(Clone, Copy, Debug, PartialEq, Eq)]
pub enum ZoneErrorKind {
    /// The bytes end too early.
    Truncated,
    /// The header doesn't begin with `TZif`.
    Magic,
    /// The version isn't 2, 3 or 4, or the two headers have different versions.
    Version,
    /// There are leap seconds.
    LeapSeconds,
    /// The file has no local time type.
    NoType,
    /// The index of a change's local time type is too large.
    TypeIndex,
    /// The offset of a local time type is outside -25:59:59 to 25:59:59.
    Offset,
    /// The daylight flag of a local time type isn't 0 or 1.
    Daylight,
    /// The index of an abbreviation is too large.
    NameIndex,
    /// An abbreviation isn't ASCII.
    NotAscii,
    /// The last abbreviation has no NUL at its end.
    NameEnd,
    /// The changes are not in order.
    Timeline(TimelineError),
    /// A newline before or after the footer is missing.
    Newline,
    /// A footer or a POSIX text has no name of three letters or more.
    Name,
    /// A POSIX text has no offset of at most 24 hours.
    PosixOffset,
    /// A POSIX text has daylight time, but no day on which it begins or ends, such as `M3.5.0`. The
    /// forms `J60` and `59` are not supported.
    Day,
    /// A POSIX text has no time of at most 167 hours.
    Time,
    /// The months of a POSIX text are the same or neighbours.
    Months,
    /// A footer or a POSIX text has bytes after its end.
    Trailing,
}

/// An error in the bytes of a time zone, with the position of the first byte that is wrong. It
/// prints, for example, `invalid POSIX offset at 3`.
#[derive(Clone, Copy, Debug, PartialEq, Eq)]
pub struct ZoneError {
    /// The kind of the error.
    pub kind: ZoneErrorKind,
    /// The position of the wrong byte, from 0, or the length of bytes that end too early.
    pub position: usize,
}

impl ZoneErrorKind {
    /// Returns the reason of the error, at most 26 bytes. For `Daylight` it is
    /// `invalid local time type`.
    pub fn reason(self) -> &'static str
        ensures value { result.now ≡ reason self }
        ensures max_length { length result.now ≤ 26 }
    {
        match self {
            ZoneErrorKind::Truncated => "unexpected end",
            ZoneErrorKind::Magic => "not a zone file",
            ZoneErrorKind::Version => "unsupported version",
            ZoneErrorKind::LeapSeconds => "leap seconds",
            ZoneErrorKind::NoType => "missing local time type",
            ZoneErrorKind::TypeIndex => "invalid type index",
            ZoneErrorKind::Offset | ZoneErrorKind::Daylight => "invalid local time type",
            ZoneErrorKind::NameIndex
            | ZoneErrorKind::NotAscii
            | ZoneErrorKind::NameEnd
            | ZoneErrorKind::Name => "invalid abbreviation",
            ZoneErrorKind::Timeline(error) => timeline_reason(error),
            ZoneErrorKind::Newline => "missing newline",
            ZoneErrorKind::PosixOffset => "invalid POSIX offset",
            ZoneErrorKind::Day => "invalid day of a rule",
            ZoneErrorKind::Time => "invalid time of a rule",
            ZoneErrorKind::Months => "months of a rule too close",
            ZoneErrorKind::Trailing => "trailing bytes",
        }
    }

    /// Returns the error of this kind at a position.
    pub(crate) fn at(self, position: usize) -> ZoneError
        ensures { result ≡ record { kind = self; position = position } }
    {
        ZoneError {
            kind: self,
            position,
        }
    }
}

fn timeline_reason(error: TimelineError) -> &'static str
    ensures value { result.now ≡ timeline_reason error }
    ensures max_length { length result.now ≤ 26 }
{
    match error {
        TimelineError::Change(error) => change_reason(error),
        TimelineError::Junction => "overlapping changes",
    }
}

fn change_reason(error: ChangeError) -> &'static str
    ensures value { result.now ≡ change_reason error }
    ensures max_length { length result.now ≤ 26 }
{
    match error {
        ChangeError::FirstOffset | ChangeError::Offset(_) => "invalid local time type",
        ChangeError::Instant(_) | ChangeError::NotRising(_) => "changes out of order",
        ChangeError::Overlap(_) => "overlapping changes",
    }
}

impl fmt::Display for ZoneError {
    ghost output = { λ e. Some (error_text e) };

    fn fmt<W: fmt::Write>(&self, f: &mut fmt::Formatter<W>) -> fmt::Result {
        write!(f, "{} at {}", self.kind.reason(), self.position)
    }
}
