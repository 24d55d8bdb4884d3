//! The error of a parser.
ghost use Rattle.std.specs.Prelude.{◌≡◌, ◌<◌, ◌≤◌, None, Some};
ghost use Rattle.cal_text.specs.ErrorText.{error_text};
ghost use Rattle.cal_text.specs.Parsing.{component_of};
ghost use Rattle.cal_text.specs.declared.error.ParseError.TheVariants.{UnexpectedByte, UnexpectedEnd};

use cal_time::error::ComponentRange;
use std::fmt;

/// An error: a text has the wrong form, or a component is out of range. It prints, for example,
/// `unexpected byte at 4`, `unexpected end at 9` or `day was not in range`.
#[derive(Clone, Copy, Debug, PartialEq, Eq)]
pub enum ParseError {
    /// The position, from 0, of the first byte that no text of the form has there.
    UnexpectedByte(usize),
    /// The length of a text that ends too early: more bytes could complete it.
    UnexpectedEnd(usize),
    /// A component is out of range in a text that has the form.
    OutOfRange(ComponentRange),
}

impl ParseError {
    /// Creates the error of a text of `len` bytes that stops matching a form at `position`, which
    /// is `len` or less. `unexpected(4, 4)` is `UnexpectedEnd(4)`, and `unexpected(4, 5)` is
    /// `UnexpectedByte(4)`.
    pub fn unexpected(position: usize, len: usize) -> Self
        requires { position ≤ len }
        ensures byte { position < len → result ≡ UnexpectedByte position }
        ensures end { position ≡ len → result ≡ UnexpectedEnd len }
        ensures form { component_of result ≡ None }
    {
        if position < len {
            ParseError::UnexpectedByte(position)
        } else {
            ParseError::UnexpectedEnd(len)
        }
    }
}

impl fmt::Display for ParseError {
    ghost output = { λ e. Some (error_text e) };

    fn fmt<W: fmt::Write>(&self, f: &mut fmt::Formatter<W>) -> fmt::Result {
        match self {
            ParseError::UnexpectedByte(position) => write!(f, "unexpected byte at {position}"),
            ParseError::UnexpectedEnd(position) => write!(f, "unexpected end at {position}"),
            ParseError::OutOfRange(error) => write!(f, "{error}"),
        }
    }
}
