//! Answers each line of standard input with one line on standard output. Arguments are ignored.
#![tactic(auto)]

mod answer;
mod buffer;
mod command;
mod fault;
mod find;
mod input;
mod lines;
mod number;
mod one_answer;
mod outcome;
mod output;
mod program;
mod retries;
mod run;
mod streams;

use std::io;
use std::process::ExitCode;

/// Ends with status 0, or with status 2 and a message on standard error.
fn main(rt: HostRuntime) -> ExitCode {
    ExitCode::from(program::perform(&mut rt.reader(), &mut io::writer(&rt), &mut rt.stderr()))
}
