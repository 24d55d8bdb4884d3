//! Each contract that isn't a plain equation allows only one result: two calls return the same.
ghost use Rattle.std.specs.Prelude.{◌≡◌, IfSome, length, take};

use crate::tests::one_answer::Twice;
use cal_recurrence::{ParseSetError, SetParts};

fn parse_set(text: &[u8]) -> Twice<Result<SetParts<'_>, ParseSetError>>
    ensures { result.0 ≡ result.1 }
{
    (
        cal_recurrence::parse_set(text),
        cal_recurrence::parse_set(text),
    )
}

fn print_set(parts: &SetParts<'_>, a: &mut [u8], b: &mut [u8]) -> Twice<Option<usize>>
    requires { length a.old ≡ length b.old }
    ensures result { result.0 ≡ result.1 }
    ensures text { IfSome result.0 (λ end. take end a.new ≡ take end b.new) }
{
    (parts.print(a), parts.print(b))
}

fn fold(text: &[u8], a: &mut [u8], b: &mut [u8]) -> Twice<Option<usize>>
    requires { length a.old ≡ length b.old }
    ensures result { result.0 ≡ result.1 }
    ensures text { IfSome result.0 (λ end. take end a.new ≡ take end b.new) }
{
    (cal_recurrence::fold(text, a), cal_recurrence::fold(text, b))
}

fn unfold(text: &[u8], a: &mut [u8], b: &mut [u8]) -> Twice<Option<usize>>
    requires { length a.old ≡ length b.old }
    ensures result { result.0 ≡ result.1 }
    ensures text { IfSome result.0 (λ end. take end a.new ≡ take end b.new) }
{
    (
        cal_recurrence::unfold(text, a),
        cal_recurrence::unfold(text, b),
    )
}
