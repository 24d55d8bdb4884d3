//! Two runs with the same input and outcome write the same, except after a failed write.
ghost use Rattle.std.specs.Prelude.{◌≡◌, List, ℕ, Some, IsErrOf};
ghost use Rattle.caltool.specs.Runs.{IsRunResult};

use crate::fault::Fault;
use crate::run::run;
use std::io::{Read, Write};

fn runs<R: Read, W: Write>(
    reader: &mut R,
    twin: &mut R,
    writer: &mut W,
    other: &mut W,
) -> (Result<(), Fault>, Result<(), Fault>)
    ensures { (input held : List ℕ) → R.remaining reader.old ≡ Some input
        → R.remaining twin.old ≡ Some input
        → W.contents writer.old ≡ Some held → W.contents other.old ≡ Some held
        → result.0 ≡ result.1 → ¬ IsErrOf result.0 Fault.Write
        → W.contents writer.new ≡ W.contents other.new }
{
    (ended(reader, writer), ended(twin, other))
}

fn ended<R: Read, W: Write>(reader: &mut R, writer: &mut W) -> Result<(), Fault>
    ensures { IsRunResult result (R.remaining reader.old) (R.remaining reader.new) (W.contents writer.old)
        (W.contents writer.new) }
{
    run(reader, writer)
}
