//! The run: an input, and the answers to its lines.
ghost use Rattle.std.specs.Prelude.{◌≡◌, ◌++◌, OnOk, OnErr, IfErr, IsErrOf, List, ℕ};
ghost use Rattle.std.specs.Io.KnownBytes.{Appends, Keeps};
ghost use Rattle.caltool.specs.Calls.{Reads, Writes, has_read_failure, has_write_failure, most_retries};
ghost use Rattle.caltool.specs.Room.{HasRoom, longest_reply};
ghost use Rattle.caltool.specs.Runs.{AppendsPrefix, ReadsAll, ReadsTooMany};
ghost use Rattle.caltool.specs.Answers.{out};

use crate::answer::reply;
use crate::buffer::Buffer;
use crate::fault::Fault;
use crate::input::{MAX_INPUT_BYTES, read_all};
use crate::lines::first_line;
use crate::output::write_all;
use crate::retries::Retries;
use crate::streams::{Sink, Source};
use std::io::{Read, Write};

/// Reads the whole input, at most 4096 bytes, and then answers it line by line.
pub fn run<R: Read, W: Write>(reader: &mut R, writer: &mut W) -> Result<(), Fault>
    ensures ok { OnOk result ((input : List ℕ)
        × ReadsAll (R.remaining reader.old) (R.remaining reader.new) input
        × Appends (W.contents writer.old) (W.contents writer.new) (out input)) }
    ensures write { IsErrOf result Fault.Write → (input : List ℕ)
        × ReadsAll (R.remaining reader.old) (R.remaining reader.new) input
        × AppendsPrefix (W.contents writer.old) (W.contents writer.new) (out input) }
    ensures read { IsErrOf result Fault.Read
        → Keeps (W.contents writer.old) (W.contents writer.new) }
    ensures too_long { IsErrOf result Fault.TooLong
        → ReadsTooMany (R.remaining reader.old) (R.remaining reader.new)
        × Keeps (W.contents writer.old) (W.contents writer.new) }
{
    run_calls(reader, writer)
}

/// Does the same over a reader and a writer whose calls a contract can name. A read failed exactly
/// if the outcome says so, and no read follows it; the same for writes.
fn run_calls<R: Source, W: Sink>(reader: &mut R, writer: &mut W) -> Result<(), Fault>
    ensures ok { OnOk result ((input : List ℕ)
        × ReadsAll (R.remaining reader.old) (R.remaining reader.new) input
        × Appends (W.contents writer.old) (W.contents writer.new) (out input)) }
    ensures write { IsErrOf result Fault.Write → (input : List ℕ)
        × ReadsAll (R.remaining reader.old) (R.remaining reader.new) input
        × AppendsPrefix (W.contents writer.old) (W.contents writer.new) (out input) }
    ensures read { IsErrOf result Fault.Read
        → Keeps (W.contents writer.old) (W.contents writer.new) }
    ensures too_long { IsErrOf result Fault.TooLong
        → ReadsTooMany (R.remaining reader.old) (R.remaining reader.new)
        × Keeps (W.contents writer.old) (W.contents writer.new) }
    ensures reads { (left : ℕ)
        × Reads R.read_gives most_retries reader.old (has_read_failure result) left reader.new }
    ensures writes { (left : ℕ)
        × Writes W.write_gives most_retries writer.old (has_write_failure result) left writer.new }
{
    let mut buffer = [0u8; MAX_INPUT_BYTES];
    let length = read_all(reader, &mut buffer)?;
    write_answers(writer, &buffer[..length])
}

/// Answers the lines in order. Collects the answers, so that few writes are needed.
#[tactic(auto, unfolding(crate::specs::Answers::out))]
fn write_answers<W: Sink>(writer: &mut W, input: &[u8]) -> Result<(), Fault>
    ensures ok { OnOk result
        (Appends (W.contents writer.old) (W.contents writer.new) (out input.now)) }
    ensures prefix { OnErr result
        (AppendsPrefix (W.contents writer.old) (W.contents writer.new) (out input.now)) }
    ensures error { IfErr result (λ fault. fault ≡ Fault.Write) }
    ensures writes { (left : ℕ)
        × Writes W.write_gives most_retries writer.old (has_write_failure result) left writer.new }
{
    let mut retries = Retries::new();
    let mut buffer = Buffer::new();
    let mut rest = input;
    while let Some((line, after)) = first_line(rest) {
        make_room(writer, &mut buffer, &mut retries)?;
        reply(&mut buffer, line);
        rest = after;
    }
    write_all(writer, buffer.as_bytes(), &mut retries)
}

/// Makes room for a reply, by writing the buffer if it has none.
fn make_room<W: Sink>(
    writer: &mut W,
    buffer: &mut Buffer,
    retries: &mut Retries,
) -> Result<(), Fault>
    ensures room { OnOk result (HasRoom longest_reply buffer.new) }
    ensures ok { OnOk result ((written : List ℕ)
        × (buffer.old ≡ written ++ buffer.new)
        × Appends (W.contents writer.old) (W.contents writer.new) written) }
    ensures prefix { OnErr result
        (AppendsPrefix (W.contents writer.old) (W.contents writer.new) buffer.old) }
    ensures error { IfErr result (λ fault. fault ≡ Fault.Write) }
    ensures writes { Writes W.write_gives retries.old writer.old
        (has_write_failure result) retries.new writer.new }
{
    if !buffer.has_room_for_a_reply() {
        write_all(writer, buffer.as_bytes(), retries)?;
        buffer.clear();
    }
    Ok(())
}
