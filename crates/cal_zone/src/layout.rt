//! The positions of the parts of a TZif file.
ghost use Rattle.std.specs.Prelude.{◌≡◌};

/// A layout: the positions of the parts of a TZif file's data block (RFC 9636, 3.2).
#[repr(C)]
#[derive(Clone, Copy, Debug)]
pub struct Layout {
    /// The position of the times of the changes, of eight bytes each.
    pub times: usize,
    /// The position of the type of each change, an index of one byte each.
    pub indexes: usize,
    /// The position of the local time types, of six bytes each.
    pub types: usize,
    /// The position of the abbreviations.
    pub names: usize,
    /// The position after the abbreviations.
    pub names_end: usize,
    /// The number of changes.
    pub changes: usize,
    /// The number of local time types.
    pub kinds: usize,
}

impl Layout {
    /// Creates a layout without changes and without types.
    pub fn empty() -> Self
        ensures { result ≡ record { times = 0; indexes = 0; types = 0; names = 0; names_end = 0; changes = 0; kinds = 0 } }
    {
        Layout {
            times: 0,
            indexes: 0,
            types: 0,
            names: 0,
            names_end: 0,
            changes: 0,
            kinds: 0,
        }
    }
}
