//! The errors of an interval.
ghost use Rattle.std.specs.Prelude.{◌≡◌, ◌<◌, ◌≤◌, None, Some};
ghost use Rattle.cal_interval.specs.ErrorText.{error_text, interval_error_text};
ghost use Rattle.cal_interval.specs.Parsing.{component_of};
ghost use Rattle.cal_interval.specs.declared.error.ParseIntervalError.TheVariants.{UnexpectedByte, UnexpectedEnd};

use cal_duration::DurationComponent;
use cal_time::error::ComponentRange;
use std::fmt;

/// A part of an interval, as an error names it.
#[derive(Clone, Copy, Debug, PartialEq, Eq)]
pub enum IntervalComponent {
    /// A component of the start or of the end, such as its month.
    End(ComponentRange),
    /// A part of the period, such as its years.
    Period(DurationComponent),
}

/// Why an interval has no range, or can't be repeated. It prints, for example, `the end is before
/// the start`.
#[derive(Clone, Copy, Debug, PartialEq, Eq, Hash)]
pub enum IntervalError {
    /// The end is before the start.
    EndBeforeStart,
    /// The ends are dates, and the period has hours, minutes or seconds.
    HasDuration,
    /// The start or the end that the period leads to is out of range.
    OutOfRange,
    /// The interval to repeat has no start.
    MissingStart,
    /// The interval to repeat has a period that is zero or negative.
    NotPositive,
    /// The number of repetitions isn't from 1 to 4294967295.
    CountOutOfRange,
}

/// An error: a string is not an interval, or a part of the interval is out of range. It prints,
/// for example, `unexpected byte at 4`, `unexpected end at 2`, `month was not in range` or
/// `years was not in range`.
#[derive(Clone, Copy, Debug, PartialEq, Eq)]
pub enum ParseIntervalError {
    /// The position, from 0, of the first byte that no string of the form has there.
    UnexpectedByte(usize),
    /// The length of a string that ends too early: more bytes could complete it.
    UnexpectedEnd(usize),
    /// A part is out of range in a string that has the form.
    OutOfRange(IntervalComponent),
}

impl ParseIntervalError {
    /// Creates the error of a string of `len` bytes that stops matching a form at `position`, which
    /// is `len` or less.
    pub(crate) fn unexpected(position: usize, len: usize) -> Self
        requires { position ≤ len }
        ensures byte { position < len → result ≡ UnexpectedByte position }
        ensures end { position ≡ len → result ≡ UnexpectedEnd len }
        ensures form { component_of result ≡ None }
    {
        if position < len {
            ParseIntervalError::UnexpectedByte(position)
        } else {
            ParseIntervalError::UnexpectedEnd(len)
        }
    }
}

impl fmt::Display for ParseIntervalError {
    ghost output = { λ e. Some (error_text e) };

    fn fmt<W: fmt::Write>(&self, f: &mut fmt::Formatter<W>) -> fmt::Result {
        match self {
            ParseIntervalError::UnexpectedByte(position) => {
                write!(f, "unexpected byte at {position}")
            }
            ParseIntervalError::UnexpectedEnd(position) => {
                write!(f, "unexpected end at {position}")
            }
            ParseIntervalError::OutOfRange(IntervalComponent::End(error)) => write!(f, "{error}"),
            ParseIntervalError::OutOfRange(IntervalComponent::Period(component)) => {
                write!(f, "{} was not in range", component.name())
            }
        }
    }
}

impl fmt::Display for IntervalError {
    ghost output = { λ e. Some (interval_error_text e) };

    fn fmt<W: fmt::Write>(&self, f: &mut fmt::Formatter<W>) -> fmt::Result {
        let words = match self {
            IntervalError::EndBeforeStart => "the end is before the start",
            IntervalError::HasDuration => "the period has hours, minutes or seconds",
            IntervalError::OutOfRange => "the start or the end is out of range",
            IntervalError::MissingStart => "the interval has no start",
            IntervalError::NotPositive => "the period is not positive",
            IntervalError::CountOutOfRange => "the number of occurrences is out of range",
        };
        f.write_str(words)
    }
}
