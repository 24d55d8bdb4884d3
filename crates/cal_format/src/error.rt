//! The error of a parser.
ghost use Rattle.std.specs.Prelude.{Some};
ghost use Rattle.cal_format.specs.ErrorText.{error_text};

use cal_time::error::{Component, ComponentRange};
use std::fmt;

/// An error: a text is not the text of a value that the format holds. It prints, for example,
/// `unexpected byte at 4`, `unexpected end at 9`, `day was not in range` or
/// `weekday contradicts the other components`.
#[derive(Clone, Copy, Debug, PartialEq, Eq)]
pub enum ParseError {
    /// The position, from 0, of the first byte that no text of the format has there.
    UnexpectedByte(usize),
    /// The length of a text that ends too early: more bytes could complete it.
    UnexpectedEnd(usize),
    /// A component is out of range in a text that has the form of the format.
    OutOfRange(ComponentRange),
    /// A component isn't the component of the value that the others determine: the weekday of
    /// `Mon, 29 Feb 2024`, which was a Thursday.
    Contradiction(Component),
}

impl fmt::Display for ParseError {
    ghost output = { λ e. Some (error_text e) };

    fn fmt<W: fmt::Write>(&self, f: &mut fmt::Formatter<W>) -> fmt::Result {
        match self {
            ParseError::UnexpectedByte(position) => write!(f, "unexpected byte at {position}"),
            ParseError::UnexpectedEnd(position) => write!(f, "unexpected end at {position}"),
            ParseError::OutOfRange(error) => write!(f, "{error}"),
            ParseError::Contradiction(component) => {
                write!(f, "{} contradicts the other components", component.name())
            }
        }
    }
}
