//! The files that the arguments name.
ghost use Rattle.std.specs.Prelude.{◌≡◌, ◌+◌, ◌<◌, ◌≤◌, ℕ, List, [], false, true, None, Ok, Err, length, IfErr, IfOk, OnOk, if◌then◌else◌};
ghost use Rattle.std.specs.IoError.{error_kind};
ghost use Rattle.caldate_lines.specs.Calls.{Writes, write_failure};
ghost use Rattle.caldate_lines.specs.Outputs.{WritesPage};
ghost use Rattle.caldate_args.specs.Files.{FailsOrKeeps, ReportsFile};

use crate::args::arguments::MAX_INDEX;
use crate::args::options::{is_option, option_after, option_before_value};
use crate::files::Texts;
use crate::zones::read_zone_error::{FileError, file_words};
use crate::zones::zone_source::{file_error, open_any};
use caldate_lines::excerpt::printable;
use caldate_lines::output::buffer::Buffer;
use caldate_lines::output::write_all;
use caldate_lines::run_error::RunError;
use caldate_lines::streams::Sink;
use std::env::{Env, FillError};
use std::fs::Files;
use std::io::{self, ErrorKind, Read};

/// The maximum length of a name, in bytes.
pub const MAX_NAME_BYTES: usize = 4096;

/// What is shown for a longer name.
const LONG_NAME: &[u8] = b"...";

/// The status if a file can't be read.
const UNREADABLE_FILE: u8 = 2;

/// A file that is open.
#[derive(Drop)]
enum Current<F: Drop> {
    /// None is open.
    Nothing,
    /// Standard input, whose name is `-`.
    Input,
    File(F),
}

/// The files that arguments name, of which one is open at a time.
#[derive(Drop)]
pub struct NamedFiles<S: Env + Files + Drop, R: Read + Drop, E: Sink + Drop> {
    system: S,
    /// The index of the argument that names the next file, or of an option before it.
    next: usize,
    /// `true` if no option comes any more, as after `--`.
    only_files: bool,
    current: Current<S::File>,
    input: R,
    errors: E,
    has_failed: bool,
}

impl<S: Env + Files + Drop, R: Read + Drop, E: Sink + Drop> NamedFiles<S, R, E> {
    /// Creates a reader of the files that the arguments from the index `first` on name, with options
    /// between them up to a `--`. None is open yet. Standard input, whose name is `-`, is `input`, and
    /// failures are written to `errors`.
    ///
    /// In `caldate to week jan --skip 1 -`, the file `jan` has the index 3, and `-` the index 6.
    pub fn new(system: S, first: usize, input: R, errors: E) -> Self
        ensures { result.has_failed ≡ false }
    {
        NamedFiles {
            system,
            next: first,
            only_files: false,
            current: Current::Nothing,
            input,
            errors,
            has_failed: false,
        }
    }

    /// Returns the status after a run with this status: 2 if a file couldn't be read.
    pub fn status(&self, status: u8) -> u8
        ensures { result ≡ (if self.now.has_failed then 2 else status) }
    {
        if self.has_failed {
            UNREADABLE_FILE
        } else {
            status
        }
    }

    /// Opens the file with this name, or writes why it can't.
    fn open(&mut self, name: &[u8])
        requires { length name.now ≤ 4096 }
        ensures leads { FailsOrKeeps self.old.has_failed self.new.has_failed
            self.old.errors self.new.errors }
    {
        if name == b"-".as_slice() {
            self.current = Current::Input;
            return;
        }
        let opened = open_any(&self.system, name);
        self.go_to(name, opened);
    }

    /// Makes this file the current one, or writes why it can't be opened.
    fn go_to(&mut self, name: &[u8], opened: Result<S::File, FileError>)
        requires { length name.now ≤ 4096 }
        ensures opened { OnOk opened ((self.new.has_failed ≡ self.old.has_failed)
            × (self.new.errors ≡ self.old.errors)) }
        ensures failed { IfErr opened (λ error. (self.new.has_failed ≡ true)
            × ReportsFile (E.contents self.old.errors) (E.contents self.new.errors)) }
    {
        match opened {
            Ok(file) => self.current = Current::File(file),
            Err(error) => self.fail(name, error),
        }
    }

    /// Writes why the file with this name can't be read.
    fn fail(&mut self, name: &[u8], error: FileError)
        requires { length name.now ≤ 4096 }
        ensures failed { self.new.has_failed ≡ true }
        ensures words { ReportsFile (E.contents self.old.errors) (E.contents self.new.errors) }
    {
        self.current = Current::Nothing;
        self.has_failed = true;
        // If this fails too, only the status reports the file.
        let _ = report_file_error(name, error, &mut self.errors);
    }

    /// Returns the result of a read of the current file. A failed read ends the file, and this writes
    /// why, unless the read was only interrupted.
    fn settle(&mut self, given: io::Result<usize>) -> io::Result<usize>
        ensures ok { IfOk given (λ n. (result ≡ Ok n)
            × (self.new.has_failed ≡ self.old.has_failed) × (self.new.errors ≡ self.old.errors)) }
        ensures interrupted { IfErr given (λ error. error_kind error ≡ ErrorKind.Interrupted
            → (result ≡ Err error)
            × (self.new.has_failed ≡ self.old.has_failed) × (self.new.errors ≡ self.old.errors)) }
        ensures failed { IfErr given (λ error. (error_kind error ≡ ErrorKind.Interrupted → ⊥)
            → (result ≡ Ok 0) × (self.new.has_failed ≡ true)
            × ReportsFile (E.contents self.old.errors) (E.contents self.new.errors)) }
    {
        match given {
            Ok(count) => Ok(count),
            Err(error) if error.kind() == ErrorKind::Interrupted => Err(error),
            Err(error) => {
                self.fail_current(file_error(&error));
                Ok(0)
            }
        }
    }

    /// Writes why the current file can't be read.
    fn fail_current(&mut self, error: FileError)
        ensures failed { self.new.has_failed ≡ true }
        ensures words { ReportsFile (E.contents self.old.errors) (E.contents self.new.errors) }
    {
        let mut name = [0u8; MAX_NAME_BYTES];
        match self.system.arg(self.next.saturating_sub(1), &mut name) {
            Ok(length) => self.fail(&name[..length], error),
            Err(_) => self.fail(b"", error),
        }
    }
}

impl<S: Env + Files + Drop, R: Read + Drop, E: Sink + Drop> Texts for NamedFiles<S, R, E> {
    ghost rest = { λ files. None };

    ghost later = { λ files. None };

    ghost leads = { λ old new. FailsOrKeeps old.has_failed new.has_failed old.errors new.errors };

    fn read(&mut self, buffer: &mut [u8]) -> io::Result<usize> {
        let result = match &mut self.current {
            Current::Nothing => Ok(0),
            Current::Input => self.input.read(buffer),
            Current::File(file) => file.read(buffer),
        };
        self.settle(result)
    }

    fn go_on(&mut self) -> bool {
        let mut name = [0u8; MAX_NAME_BYTES];
        let (index, only_files) = next_file(&self.system, self.next, self.only_files, &mut name);
        self.only_files = only_files;
        match self.system.arg(index, &mut name) {
            Ok(length) => {
                self.next = index.saturating_add(1);
                self.open(&name[..length]);
                true
            }
            Err(FillError::TooLong) => {
                self.next = index.saturating_add(1);
                self.fail(LONG_NAME, FileError::TooLong);
                true
            }
            Err(FillError::NotPresent) => false,
        }
    }
}

/// Returns the index of the first file among the arguments from an index on, and whether only files
/// come from there on, as after `--`. Before, options may come, whose words are written to `word`.
pub fn next_file<S: Env>(
    system: &S,
    from: usize,
    only_files: bool,
    word: &mut [u8; MAX_NAME_BYTES],
) -> (usize, bool) {
    if only_files {
        return (from, true);
    }
    let mut given = None;
    for i in from..=MAX_INDEX {
        let Ok(length) = system.arg(i, word) else {
            return (i, false);
        };
        let word = &word[..length];
        if let Some(option) = given {
            given = option_after(option, word);
        } else if word == b"--".as_slice() {
            return (i + 1, true);
        } else if is_option(word) {
            given = option_before_value(word);
        } else {
            return (i, false);
        }
    }
    (from, false)
}

/// Writes why a file can't be read, in one line.
#[inline(never)]
#[tactic(auto, using(caldate_lines::proofs::Calls::sent_all))]
fn report_file_error<W: Sink>(name: &[u8], error: FileError, writer: &mut W) -> Result<(), RunError>
    requires { length name.now ≤ 4096 }
    ensures words { (words : List ℕ) × (0 < length words)
        × WritesPage words result (W.contents writer.old) (W.contents writer.new) }
    ensures writes { Writes W.write_gives writer.old (write_failure result) writer.new }
{
    let mut line = Buffer::new();
    push_file_message(&mut line, name, error);
    write_all(writer, line.as_bytes())
}

/// Appends a message such as `caldate: cannot read 'jan': not found`.
fn push_file_message(line: &mut Buffer, name: &[u8], error: FileError)
    requires none { line.old ≡ [] }
    requires short { length name.now ≤ 4096 }
    ensures { 0 < length line.new }
{
    line.push(b"caldate: cannot read '");
    push_file_name(line, name);
    line.push(b"': ");
    line.push(file_words(error));
    line.push(b"\n");
}

/// Appends the name, with `?` for each byte that does not print.
pub(crate) fn push_file_name(line: &mut Buffer, name: &[u8])
    requires { length line.old + length name.now ≤ 65000 }
    ensures longer { length line.new ≡ length line.old + length name.now }
{
    for i in 0..name.len() {
        line.push(&[printable(name[i])]);
    }
}
