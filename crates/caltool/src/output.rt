//! Writing bytes.
ghost use Rattle.std.specs.Prelude.{◌≡◌, OnOk, OnErr, IfErr};
ghost use Rattle.std.specs.Io.KnownBytes.{Appends};
ghost use Rattle.caltool.specs.Calls.{Writes, has_write_failure};
ghost use Rattle.caltool.specs.Runs.{AppendsPrefix};

use crate::fault::Fault;
use crate::retries::Retries;
use crate::streams::Sink;

/// Writes all bytes. If this fails, only a prefix of them was written. Retries an interrupted write
/// if a retry is left.
pub fn write_all<W: Sink>(writer: &mut W, bytes: &[u8], retries: &mut Retries) -> Result<(), Fault>
    ensures ok { OnOk result (Appends (W.contents writer.old) (W.contents writer.new) bytes.now) }
    ensures prefix { OnErr result
        (AppendsPrefix (W.contents writer.old) (W.contents writer.new) bytes.now) }
    ensures error { IfErr result (λ fault. fault ≡ Fault.Write) }
    ensures writes { Writes W.write_gives retries.old writer.old
        (has_write_failure result) retries.new writer.new }
{
    let mut rest = bytes;
    while !rest.is_empty() {
        match writer.write(rest) {
            Ok(0) => return Err(Fault::Write),
            Ok(count) => rest = &rest[count..],
            Err(error) if retries.allows(&error) => {}
            Err(_) => return Err(Fault::Write),
        }
    }
    Ok(())
}
