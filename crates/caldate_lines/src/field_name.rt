//! Names of fields.
ghost use Rattle.std.specs.Prelude.{◌≡◌};

use std::marker::Model;

/// A name of a field in the arguments.
#[derive(Drop)]
pub struct FieldName<'a> {
    bytes: &'a [u8],
}

impl<'a> Model for FieldName<'a> {
    ghost use Rattle.std.specs.Prelude.{ℕ, List};

    ghost Value = { List ℕ };

    ghost view = { λ name. name.bytes.now };
}

impl<'a> FieldName<'a> {
    /// Creates a name of these bytes.
    pub fn new(bytes: &'a [u8]) -> Self
        ensures { result ≡ bytes.now }
    {
        FieldName { bytes }
    }

    /// Returns the bytes.
    pub fn as_bytes(&self) -> &[u8]
        ensures { result.now ≡ self.now }
    {
        self.bytes
    }
}
