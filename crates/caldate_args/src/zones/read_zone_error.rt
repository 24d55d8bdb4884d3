//! Why a name has no zone, in words.
ghost use Rattle.std.specs.Prelude.{◌+◌, ◌≤◌, length};

use cal_tzif::ZoneError;
use caldate_lines::output::buffer::Buffer;

/// A reason why a file has no contents.
#[derive(Clone, Copy)]
pub enum FileError {
    /// The file is missing.
    NotFound,
    /// The file may not be read.
    Denied,
    /// The name is that of a folder.
    Folder,
    /// The name is that of something else, such as a FIFO.
    Irregular,
    /// The file or its path has too many bytes.
    TooLong,
    /// The read failed for another reason.
    Failed,
}

/// A reason why a name has no zone.
#[derive(Clone, Copy)]
pub enum ReadZoneError {
    /// Its file can't be read.
    File(FileError),
    /// Its file is not a zone.
    Zone(ZoneError),
}

/// Appends the reason, such as `not found` or `missing newline at 114`.
pub fn push_zone_error(line: &mut Buffer, error: ReadZoneError)
    requires { length line.old ≤ 9_000 }
    ensures short { length line.new ≤ length line.old + 64 }
{
    match error {
        ReadZoneError::File(error) => line.push(file_words(error)),
        ReadZoneError::Zone(error) => {
            line.push(error.kind.reason().as_bytes());
            line.push(b" at ");
            line.push_number(error.position as u64);
        }
    }
}

/// Returns the reason, such as `not found`.
pub(crate) fn file_words(error: FileError) -> &'static [u8]
    ensures short { length result.now ≤ 40 }
{
    match error {
        FileError::NotFound => b"not found".as_slice(),
        FileError::Denied => b"permission denied".as_slice(),
        FileError::Folder => b"is a folder".as_slice(),
        FileError::Irregular => b"is not a regular file".as_slice(),
        FileError::TooLong => b"too long".as_slice(),
        FileError::Failed => b"cannot be read".as_slice(),
    }
}
