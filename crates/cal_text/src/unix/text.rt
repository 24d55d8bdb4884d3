//! The text of a Unix time.
ghost use Rattle.std.specs.Prelude.{◌≡◌, ◌+◌, ◌≤◌, ◌++◌, Some, length};
ghost use Rattle.std.specs.Fmt.{padded};
ghost use Rattle.cal_time.specs.ShortText.{HasRoom};
ghost use Rattle.cal_datetime.specs.OffsetDateTime.{instant, unix_nanoseconds};
ghost use Rattle.cal_text.specs.UnixText.{HasUnixForm, unix_text};

use crate::fraction::push_fraction;
use cal_datetime::OffsetDateTime;
use cal_time::{ShortText, SignedDuration};
use std::fmt;

/// A moment that prints as its Unix time, such as `@1709164800.5`. A time before 1970 has a minus
/// sign. The fraction of the second has no trailing zeros and is left out if it is 0. A width pads
/// the whole text.
#[derive(Clone, Copy, Debug, PartialEq, Eq)]
pub struct Text {
    since_epoch: SignedDuration,
}

impl Text {
    /// Creates the text of a moment at any offset. 2024-02-29 1:00:00.5 +01:00:00 prints
    /// `@1709164800.5`.
    pub fn new(moment: OffsetDateTime) -> Self
        ensures value { result.since_epoch ≡ unix_nanoseconds (instant moment) }

        // The text has the form of this time.
        ensures text { HasUnixForm (unix_text result.since_epoch)
            (unix_nanoseconds (instant moment)) }
    {
        // These calls state how far the moment can be from the epoch. They cost nothing.
        let _ = moment.date();
        let _ = moment.offset();
        Text {
            since_epoch: moment - OffsetDateTime::unix_epoch(),
        }
    }

    /// Returns the text, at most 32 bytes. Half a second before 1970 it is `@-0.5`.
    pub fn text(self) -> ShortText
        ensures value { result ≡ unix_text self.since_epoch }
        ensures max_length { length result ≤ 32 }
    {
        let mut text = ShortText::new();
        self.push_to(&mut text);
        text
    }

    /// Appends what [`Self::text`] returns, at most 32 bytes, which must fit. This saves a move of the
    /// text.
    #[tactic(auto, using(crate::proofs::NumberTexts::few_digits))]
    pub fn push_to(self, text: &mut ShortText)
        requires { HasRoom 32 text.old }
        ensures appended { text.new ≡ text.old ++ unix_text self.since_epoch }
        ensures max_length { length text.new ≤ length text.old + 32 }
    {
        let (seconds, nanosecond) = self.since_epoch.unsigned_abs();
        text.push("@");
        if self.since_epoch.is_negative() {
            text.push("-");
        }
        text.push_number(seconds);
        push_fraction(text, nanosecond);
    }
}

impl fmt::Display for Text {
    ghost output = { λ t. Some (unix_text t.since_epoch) };

    ghost styled_output = { λ t spec. Some (padded spec (unix_text t.since_epoch)) };

    fn fmt<W: fmt::Write>(&self, f: &mut fmt::Formatter<W>) -> fmt::Result {
        f.pad(self.text().as_str())
    }
}
