//! Answers each line of standard input or of files, a date or a moment, with one line on standard
//! output.
#![tactic(auto)]

ghost use Rattle.std.specs.Prelude.{IfOk};
ghost use Rattle.caldate_args.specs.Lists.{HasValidStep};

use cal_datetime::PlainDateTime;
use cal_time::Date;
use caldate_args::args::arguments::{BUFFER_BYTES, join};
use caldate_args::args::asked_by;
use caldate_args::args::usage_error::UsageError;
use caldate_args::command::Command;
use caldate_args::data_files::system_files::SystemFiles;
use caldate_args::events::MAX_CALENDAR_BYTES;
use caldate_args::files::Joined;
use caldate_args::files::named_files::NamedFiles;
use caldate_args::holidays::MAX_HOLIDAYS;
use caldate_args::zones::zone_source::{MAX_FILE_BYTES, MAX_PATH_BYTES, find_folder};
use caldate_run::clock::read_clock;
use caldate_run::program::{perform, perform_on_files};
use std::fs::Files;
use std::io;
use std::process::ExitCode;

/// Returns status 0, or another status after writing the reason to standard error.
fn main(rt: HostRuntime) -> ExitCode {
    let now = read_clock(&rt);
    let mut arguments = [0u8; BUFFER_BYTES];
    let joined = join(&rt, &mut arguments);
    let words = joined.map(|joined| joined.words);
    let mut folder = [0u8; MAX_PATH_BYTES];
    let folder = find_folder(&rt, &mut folder);
    let mut first = [0u8; MAX_FILE_BYTES];
    let mut second = [0u8; MAX_FILE_BYTES];
    let mut days = [Date::MIN; MAX_HOLIDAYS];
    let mut calendar = [0u8; MAX_CALENDAR_BYTES];
    let mut files = SystemFiles::new(
        &rt,
        folder,
        &mut first,
        &mut second,
        &mut days,
        &mut calendar,
    );
    let asked = parse_words(words, now, &mut files);
    let words = words.unwrap_or(b"");
    match joined.and_then(|joined| joined.first_file) {
        Some(first) => answer_files(rt, asked, words, &now, first),
        None => answer_input(&rt, asked, words, &now),
    }
}

/// Parses the arguments.
// Not inlined, as the two below: parsing and the run use the same part of the stack.
#[inline(never)]
fn parse_words<'a, S: Files>(
    words: Option<&'a [u8]>,
    now: Option<PlainDateTime>,
    files: &mut SystemFiles<'_, 'a, S>,
) -> Result<Command<'a>, UsageError<'a>>
    ensures steps { IfOk result HasValidStep }
{
    asked_by(words, now, files)
}

/// Answers the lines of standard input, or runs a command that reads nothing.
#[inline(never)]
fn answer_input(
    rt: &HostRuntime,
    asked: Result<Command<'_>, UsageError<'_>>,
    words: &[u8],
    now: &Option<PlainDateTime>,
) -> ExitCode
    requires { IfOk asked HasValidStep }
{
    let mut reader = rt.reader();
    let mut writer = io::writer(rt);
    let mut errors = rt.stderr();
    let ending = perform(asked, words, now, &mut reader, &mut writer, &mut errors);
    ExitCode::from(ending.status)
}

/// Answers the lines of the files from the one with this index on.
#[inline(never)]
fn answer_files(
    rt: HostRuntime,
    asked: Result<Command<'_>, UsageError<'_>>,
    words: &[u8],
    now: &Option<PlainDateTime>,
    first: usize,
) -> ExitCode
    requires { IfOk asked HasValidStep }
{
    let mut writer = io::writer(&rt);
    let mut errors = rt.stderr();
    let (reader, own_errors) = (rt.reader(), rt.stderr());
    let mut input = Joined::new(NamedFiles::new(rt, first, reader, own_errors));
    let ending = perform_on_files(asked, words, now, &mut input, &mut writer, &mut errors);
    ExitCode::from(ending.status)
}
