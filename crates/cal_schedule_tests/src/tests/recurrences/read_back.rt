//! The text of a recurrence or of a set is parsed as that recurrence or set, by only the clauses of
//! the calls.
ghost use Rattle.std.specs.Prelude.{◌≡◌, IfSome, Ok};
ghost use Rattle.cal_recurrence.specs.SetText.{IsSetOf};
ghost use Rattle.cal_recurrence.specs.Spelled.{IsSpelled};
ghost use Rattle.cal_recurrence.specs.Text.{recurrence_of};

use cal_recurrence::{ParseRuleError, ParseSetError, Recurrence, SetParts, parse, parse_set};

/// Formats and parses a recurrence that has a text.
fn read_back(recurrence: &Recurrence) -> Result<Recurrence, ParseRuleError>
    requires { IsSpelled recurrence.now }
    ensures { result ≡ Ok recurrence.now }
{
    parse(recurrence.text().as_bytes())
}

/// Parses a text, formats the recurrence and parses it again.
fn read_again(text: &[u8]) -> Result<Recurrence, ParseRuleError>
    ensures { result ≡ recurrence_of text.now }
{
    let recurrence = parse(text)?;
    parse(recurrence.text().as_bytes())
}

/// Parses the lines of a set, prints the set and parses it again. Returns `None` if the buffer is
/// too short.
fn read_set_again<'a>(
    text: &'a [u8],
    buffer: &'a mut [u8],
) -> Option<Result<SetParts<'a>, ParseSetError>>
    ensures { IfSome result (λ again. IsSetOf text.now again) }
{
    match parse_set(text) {
        Ok(parts) => {
            let end = parts.print(buffer)?;
            Some(parse_set(&buffer[..end]))
        }
        Err(error) => Some(Err(error)),
    }
}
