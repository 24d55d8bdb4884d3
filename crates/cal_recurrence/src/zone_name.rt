//! Names of zones in the text of a recurrence set.
ghost use Rattle.std.specs.Prelude.{⊤, ◌≡◌, nat_eq};
ghost use Rattle.std.specs.Cmp.{partial_equiv_from_equiv};
ghost use Rattle.std.specs.Cmp.Lexicographic.{pointwise, nat_list_eq_equiv};

use std::alloc::AllocError;
use std::fmt;
use std::marker::Model;

/// The name of a zone (`TZID`), such as `Europe/Berlin`, as bytes of the text. Contracts see the
/// bytes.
#[derive(Drop)]
pub struct ZoneName<'a> {
    bytes: &'a [u8],
}

impl<'a> Model for ZoneName<'a> {
    ghost use Rattle.std.specs.Prelude.{ℕ, List};

    ghost Value = { List ℕ };

    ghost view = { λ name. name.bytes.now };
}

impl<'a> ZoneName<'a> {
    /// Creates the name of these bytes.
    pub fn new(bytes: &'a [u8]) -> Self
        ensures { result ≡ bytes.now }
    {
        ZoneName { bytes }
    }

    /// Returns the bytes of the name, such as `Europe/Berlin`.
    pub fn as_bytes(&self) -> &'a [u8]
        ensures { result.now ≡ self.now }
    {
        self.bytes
    }
}

impl Clone for ZoneName<'_> {
    ghost is_clone = { λ name clone. clone ≡ name };

    ghost is_infallible = { λ _. ⊤ };

    fn clone(&self) -> Result<Self, AllocError> {
        Ok(ZoneName { bytes: self.bytes })
    }
}

/// Two names are equal if their bytes are equal.
impl PartialEq for ZoneName<'_> {
    ghost eq = { pointwise nat_eq };

    ghost laws = { partial_equiv_from_equiv nat_list_eq_equiv };

    fn eq(&self, other: &Self) -> bool {
        self.bytes == other.bytes
    }
}

impl Eq for ZoneName<'_> {
    ghost laws = { nat_list_eq_equiv };
}

/// Formats the list of the bytes.
impl fmt::Debug for ZoneName<'_> {
    fn fmt<W: fmt::Write>(&self, f: &mut fmt::Formatter<W>) -> fmt::Result {
        fmt::Debug::fmt(self.bytes, f)
    }
}
