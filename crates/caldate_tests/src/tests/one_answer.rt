//! Two complete lists leave the same output, in steps or by a rule.
ghost use Rattle.std.specs.Prelude.{◌≡◌, List, ℕ, Some, IsOk};
ghost use Rattle.caldate_args.specs.Lists.{IsStep};

use caldate_args::command::{Listing, Moments, Occurrences};
use caldate_lines::run_error::RunError;
use caldate_lines::streams::Sink;
use caldate_run::laws::{one_list, one_list_of_steps};
use caldate_run::list::list;
use caldate_run::list::moments::list_moments;
use caldate_run::list::recurring::list_occurrences;

fn lists<W: Sink>(
    listing: &Listing,
    writer: &mut W,
    other: &mut W,
) -> (Result<(), RunError>, Result<(), RunError>)
    requires { IsStep listing.now.step }
    ensures { (held : List ℕ) → W.contents writer.old ≡ Some held → W.contents other.old ≡ Some held
        → IsOk result.0 → IsOk result.1 → W.contents writer.new ≡ W.contents other.new }
{
    (list(listing, writer), list(listing, other))
}

fn occurrences<W: Sink>(
    asked: Occurrences<'_>,
    twin: Occurrences<'_>,
    writer: &mut W,
    other: &mut W,
) -> (Result<(), RunError>, Result<(), RunError>)
    requires { asked ≡ twin }
    ensures { (held : List ℕ) → W.contents writer.old ≡ Some held → W.contents other.old ≡ Some held
        → IsOk result.0 → IsOk result.1 → W.contents writer.new ≡ W.contents other.new }
{
    one_list(&asked);
    (
        list_occurrences(asked, writer),
        list_occurrences(twin, other),
    )
}

fn steps<W: Sink>(
    moments: &Moments<'_>,
    writer: &mut W,
    other: &mut W,
) -> (Result<(), RunError>, Result<(), RunError>)
    requires { IsStep moments.now.step }
    ensures { (held : List ℕ) → W.contents writer.old ≡ Some held → W.contents other.old ≡ Some held
        → IsOk result.0 → IsOk result.1 → W.contents writer.new ≡ W.contents other.new }
{
    one_list_of_steps(moments);
    (list_moments(moments, writer), list_moments(moments, other))
}
