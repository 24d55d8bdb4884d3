//! The files of zones, as the system has them.
ghost use Rattle.std.specs.Io.KnownBytes.{Consumes, IsAtEnd};
ghost use Rattle.std.specs.Prelude.{◌≡◌, ◌≤◌, ◌<◌, IfErr, IfOk, IfSome, SomeIff, Err, length, take, true};
ghost use Rattle.caldate_args.specs.Zones.{is_zone_name, path_in};

use crate::zones::read_zone_error::FileError;
use caldate_lines::input::read_some;
use caldate_lines::streams::Source;
use std::env::{Env, FillError};
use std::fs::Files;
use std::io::{Error, ErrorKind};
use std::{fs, str};

/// The maximum length of a path, in bytes.
pub const MAX_PATH_BYTES: usize = 1024;

/// The size of the buffer for the file of a zone, in bytes. The file must have fewer.
pub const MAX_FILE_BYTES: usize = 8192;

/// The folder, unless the variable `TZDIR` has another one.
const FOLDER: &[u8] = b"/usr/share/zoneinfo";

/// Returns the path of the folder of the zones: the variable `TZDIR`, which is written to the
/// buffer, or if it is missing or empty `/usr/share/zoneinfo`. Returns `None` if the variable has
/// more than 1024 bytes. No clause says which, since contracts know nothing about variables.
pub fn find_folder<'a, E: Env>(env: &E, buffer: &'a mut [u8; MAX_PATH_BYTES]) -> Option<&'a [u8]> {
    match env.var("TZDIR", buffer) {
        Ok(0) | Err(FillError::NotPresent) => Some(FOLDER),
        Ok(length) => Some(&buffer[..length]),
        Err(FillError::TooLong) => None,
    }
}

/// Opens the file of a zone in a folder.
pub(crate) fn open_zone<S: Files>(
    system: &S,
    folder: &[u8],
    name: &[u8],
) -> Result<S::File, FileError>
    requires { is_zone_name name.now ≡ true }
    ensures long { 1024 < length (path_in folder.now name.now) → result ≡ Err FileError.TooLong }
{
    let mut path = [0u8; MAX_PATH_BYTES];
    match join_path(folder, name, &mut path) {
        Some(end) => open_file(system, &path[..end]),
        None => Err(FileError::TooLong),
    }
}

/// Opens a regular file, or returns the reason why it can't be opened, such as `NotFound`. Any other
/// file isn't opened, since a FIFO could wait for ever.
pub(crate) fn open_file<S: Files>(system: &S, path: &[u8]) -> Result<S::File, FileError> {
    check_file(system, path)?;
    open_any(system, path)
}

/// Opens a file of any kind, or returns the reason why it can't be opened. A path that isn't UTF-8
/// is `Failed`.
pub(crate) fn open_any<S: Files>(system: &S, path: &[u8]) -> Result<S::File, FileError> {
    match fs::open(system, utf8_of(path)?) {
        Ok(file) => Ok(file),
        Err(error) => Err(file_error(&error)),
    }
}

fn utf8_of(path: &[u8]) -> Result<&str, FileError> {
    match str::from_utf8(path) {
        Ok(path) => Ok(path),
        Err(_) => Err(FileError::Failed),
    }
}

/// Checks that there is a regular file at a path.
fn check_file<S: Files>(system: &S, path: &[u8]) -> Result<(), FileError> {
    let path = utf8_of(path)?;
    match fs::metadata(system, path) {
        Ok(metadata) if metadata.is_file() => Ok(()),
        Ok(metadata) if metadata.is_dir() => Err(FileError::Folder),
        Ok(_) => Err(FileError::Irregular),
        Err(error) => Err(file_error(&error)),
    }
}

/// Writes the path of a file to the front of the buffer, and returns its length, or `None` if it
/// doesn't fit.
fn join_path(folder: &[u8], name: &[u8], path: &mut [u8; MAX_PATH_BYTES]) -> Option<usize>
    ensures length { let end = length (path_in folder.now name.now)
        in SomeIff result (end ≤ 1024) end }
    ensures path { IfSome result (λ end. take end path.new ≡ path_in folder.now name.now) }
{
    let between = folder.len();
    if between >= MAX_PATH_BYTES || name.len() >= MAX_PATH_BYTES - between {
        return None;
    }
    let end = between + 1 + name.len();
    path[..between].copy_from_slice(folder);
    path[between] = b'/';
    path[between + 1..end].copy_from_slice(name);
    Some(end)
}

/// Reads a file to its end into the front of the buffer, and returns its length. Returns
/// `FileError::TooLong` if the buffer is full.
pub(crate) fn read_whole<R: Source>(file: &mut R, buffer: &mut [u8]) -> Result<usize, FileError>
    ensures fits { IfOk result (λ filled. filled ≤ length buffer.old) }
    ensures whole { IfOk result (λ filled. IsAtEnd (R.remaining file.new)
        × Consumes (R.remaining file.old) (R.remaining file.new) (take filled buffer.new)) }
    ensures full { IfErr result (λ error. error ≡ FileError.TooLong
        → Consumes (R.remaining file.old) (R.remaining file.new) (take (length buffer.old) buffer.new)) }
{
    let mut filled = 0;
    while filled < buffer.len() {
        match read_some(file, &mut buffer[filled..]) {
            Ok(0) => return Ok(filled),
            Ok(count) => filled += count,
            Err(error) => return Err(file_error(&error)),
        }
    }
    Err(FileError::TooLong)
}

/// Returns the reason for an error of the system.
pub(crate) fn file_error(error: &Error) -> FileError
    ensures { result ≡ FileError.TooLong → ⊥ }
{
    match error.kind() {
        ErrorKind::NotFound => FileError::NotFound,
        ErrorKind::PermissionDenied => FileError::Denied,
        ErrorKind::IsADirectory => FileError::Folder,
        _ => FileError::Failed,
    }
}
