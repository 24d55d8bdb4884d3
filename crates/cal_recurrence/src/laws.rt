//! Laws of the text of a rule: what its parts say, in any order.
ghost use Rattle.std.specs.Prelude.{◌≡◌, ◌↔◌, Ok, IsPermutation};
ghost use Rattle.cal_recurrence.specs.Text.{parts_in, SaysRule};
ghost use Rattle.cal_recurrence.specs.declared.recurrence.Recurrence.{Recurrence};

use crate::fault::ParseRuleError;
use crate::parsing::parse;
use crate::recurrence::Recurrence;

/// Parses a text. It returns a recurrence if and only if the parts of the text say that recurrence.
pub(crate) fn rule_said(text: &[u8]) -> Result<Recurrence, ParseRuleError>
    ensures { (r : Recurrence) → (result ≡ Ok r) ↔ SaysRule (parts_in text.now) r }
{
    parse(text)
}

/// Parses two texts. If both have the same parts, in any order, one says a recurrence if and only
/// if the other says the same recurrence.
pub(crate) fn any_order(
    text: &[u8],
    other: &[u8],
) -> (
    Result<Recurrence, ParseRuleError>,
    Result<Recurrence, ParseRuleError>,
)
    ensures { IsPermutation (parts_in text.now) (parts_in other.now) → (r : Recurrence) → (result.0 ≡ Ok r) ↔ (result.1 ≡ Ok r) }
{
    (parse(text), parse(other))
}
