//! The program over any three streams.
ghost use Rattle.std.specs.Prelude.{Result};
ghost use Rattle.caltool.specs.Outcome.{ReportsOutcome};
ghost use Rattle.caltool.specs.Runs.{IsRunResult};
ghost use Rattle.caltool.specs.declared.fault.Fault.{Fault};

use crate::outcome::report;
use crate::run::run;
use std::io::{Read, Write};

/// Answers the input line by line, writes a message to `errors` if that ended early, and returns
/// the status: 0 for a run that answered its whole input, else 2.
///
/// After `julian 0` and a line end it has written `-4713 ordinal 328 julian 0` and no message, with
/// status 0. After 4097 bytes it has written only the message `input too long`, with status 2.
pub fn perform<R: Read, W: Write, E: Write>(reader: &mut R, writer: &mut W, errors: &mut E) -> u8
    ensures { (outcome : Result Unit Fault)
        × IsRunResult outcome (R.remaining reader.old) (R.remaining reader.new) (W.contents writer.old)
        (W.contents writer.new)
        × ReportsOutcome outcome result (E.contents errors.old) (E.contents errors.new) }
{
    let outcome = run(reader, writer);
    report(outcome, errors)
}
