//! The string of a number of any width.
ghost use Rattle.std.specs.Prelude.{◌≡◌, ◌≤◌, length};
ghost use Rattle.std.specs.Fmt.{signed_decimal};

use cal_time::ShortText;

/// Formats a number in decimal.
#[tactic(auto, using(cal_time::proofs::TextLengths::text_lengths))]
pub fn signed_text(number: i128) -> ShortText
    ensures text { result ≡ signed_decimal number }
    ensures short { length result ≤ 40 }
{
    let mut text = ShortText::new();
    text.push_i128(number);
    text
}
