//! The error of a duration in text.
ghost use Rattle.std.specs.Prelude.{◌≡◌, ◌<◌, ◌≤◌, ◌++◌, None, Some, codes, length};
ghost use Rattle.cal_duration.specs.ErrorText.{component_name, error_text};
ghost use Rattle.cal_duration.specs.Parsing.{component_of};
ghost use Rattle.cal_duration.specs.declared.error.ParseDurationError.TheVariants.{UnexpectedByte, UnexpectedEnd};

use std::fmt;

/// A part of a duration, as an error names it.
#[derive(Clone, Copy, Debug, PartialEq, Eq, Hash)]
pub enum DurationComponent {
    /// The years, from -2147483648 to 2147483647.
    Years,
    /// The months past the years, from -2147483648 to 2147483647.
    Months,
    /// The weeks, from -2147483648 to 2147483647.
    Weeks,
    /// The days past the weeks, from -2147483648 to 2147483647.
    Days,
    /// The hours of the exact duration, from -2562047788015215 to 2562047788015215.
    Hours,
    /// The minutes of the exact duration, whose range depends on the hours.
    Minutes,
    /// The seconds of the exact duration, whose range depends on the hours and the minutes.
    Seconds,
}

impl DurationComponent {
    /// Returns the name in lower case, such as `years`. It has at most 7 bytes.
    pub fn name(self) -> &'static str
        ensures value { result.now ≡ component_name self }
        ensures max_length { length result.now ≤ 7 }
    {
        match self {
            DurationComponent::Years => "years",
            DurationComponent::Months => "months",
            DurationComponent::Weeks => "weeks",
            DurationComponent::Days => "days",
            DurationComponent::Hours => "hours",
            DurationComponent::Minutes => "minutes",
            DurationComponent::Seconds => "seconds",
        }
    }
}

/// An error: a text is not a duration, or a part of the duration is out of range. It prints, for
/// example, `unexpected byte at 4`, `unexpected end at 2` or `years was not in range`.
#[derive(Clone, Copy, Debug, PartialEq, Eq)]
pub enum ParseDurationError {
    /// The position, from 0, of the first byte that no text of the form has there.
    UnexpectedByte(usize),
    /// The length of a text that ends too early: more bytes could complete it.
    UnexpectedEnd(usize),
    /// A part is out of range in a text that has the form.
    OutOfRange(DurationComponent),
}

impl ParseDurationError {
    /// Creates the error of a text of `len` bytes that stops matching a form at `position`, which
    /// is `len` or less.
    pub(crate) fn unexpected(position: usize, len: usize) -> Self
        requires { position ≤ len }
        ensures byte { position < len → result ≡ UnexpectedByte position }
        ensures end { position ≡ len → result ≡ UnexpectedEnd len }
        ensures form { component_of result ≡ None }
    {
        if position < len {
            ParseDurationError::UnexpectedByte(position)
        } else {
            ParseDurationError::UnexpectedEnd(len)
        }
    }
}

impl fmt::Display for ParseDurationError {
    ghost output = { λ e. Some (error_text e) };

    fn fmt<W: fmt::Write>(&self, f: &mut fmt::Formatter<W>) -> fmt::Result {
        match self {
            ParseDurationError::UnexpectedByte(position) => {
                write!(f, "unexpected byte at {position}")
            }
            ParseDurationError::UnexpectedEnd(position) => {
                write!(f, "unexpected end at {position}")
            }
            ParseDurationError::OutOfRange(component) => {
                write!(f, "{} was not in range", component.name())
            }
        }
    }
}
