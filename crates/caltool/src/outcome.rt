//! The end of the program: its status and its message on standard error.
ghost use Rattle.std.specs.Prelude.{◌≡◌};
ghost use Rattle.caltool.specs.Outcome.{WritesMessage, exit_status, outcome_message};

use crate::fault::Fault;
use crate::output::write_all;
use crate::retries::Retries;
use crate::streams::Sink;

/// Writes the message of the outcome, if it is an error, and returns the status: 0 for a run that
/// answered its whole input, else 2. If the writer fails, it took only a prefix of the message.
pub fn report<W: Sink>(outcome: Result<(), Fault>, writer: &mut W) -> u8
    ensures value { result ≡ exit_status outcome }
    ensures message { WritesMessage (outcome_message outcome) (W.contents writer.old) (W.contents writer.new) }
{
    let _ = write_all(writer, message(outcome), &mut Retries::new());
    match outcome {
        Ok(()) => 0,
        Err(_) => 2,
    }
}

/// Returns the message of an outcome, or nothing for a run that answered its whole input.
fn message(outcome: Result<(), Fault>) -> &'static [u8]
    ensures { result.now ≡ outcome_message outcome }
{
    match outcome {
        Ok(()) => b"".as_slice(),
        Err(Fault::TooLong) => b"input too long\n".as_slice(),
        Err(Fault::Read) => b"cannot read\n".as_slice(),
        Err(Fault::Write) => b"cannot write\n".as_slice(),
    }
}
