//! The quotes of a line.
ghost use Rattle.std.specs.Prelude.{◌≡◌};
ghost use Rattle.caldate_lines.specs.Fields.{is_open, quoting_after};

/// A state of the quotes between two bytes of a line.
#[derive(Clone, Copy, Debug, PartialEq, Eq)]
pub enum Quoting {
    /// The line isn't a record: a quote is an ordinary byte.
    Off,
    /// At the start of a field, or just after a closing quote: a quote opens quotes.
    Ready,
    /// Within quotes.
    Open,
    /// In the rest of a field: a quote is an ordinary byte.
    Bare,
}

impl Quoting {
    /// Returns the state after a byte. In `a,"b"`, it is `Ready` after the comma, and `Open` after the
    /// first quote.
    #[inline(always)]
    pub fn after(self, separator: u8, byte: u8) -> Self
        ensures { result ≡ quoting_after separator self byte }
    {
        match self {
            Quoting::Off => Quoting::Off,
            Quoting::Open if byte == b'"' => Quoting::Ready,
            Quoting::Open => Quoting::Open,
            Quoting::Ready if byte == b'"' => Quoting::Open,
            _ if byte == separator => Quoting::Ready,
            _ => Quoting::Bare,
        }
    }

    /// Returns whether quotes are open.
    #[inline(always)]
    pub fn is_open(self) -> bool
        ensures { result ≡ is_open self }
    {
        match self {
            Quoting::Open => true,
            Quoting::Off | Quoting::Ready | Quoting::Bare => false,
        }
    }
}
