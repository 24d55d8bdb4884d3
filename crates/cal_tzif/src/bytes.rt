//! Bytes of a file.
ghost use Rattle.std.specs.Prelude.{◌≡◌, ℕ, ◌+◌, ◌^◌, ◌<◌, ◌≤◌, ◌↔◌, length, IsTrue};
ghost use Rattle.cal_tzif.specs.Bytes.{byte, count_at, IsMagic};

/// Returns the byte at a position, or 0 after the end.
pub(crate) fn byte(bytes: &[u8], at: usize) -> u8
    ensures value { result ≡ byte bytes.now at }
    ensures inside { ¬ (result ≡ 0) → at < length bytes.now }
{
    if at < bytes.len() { bytes[at] } else { 0 }
}

/// Returns the unsigned number of the four bytes at a position.
#[tactic(auto, unfolding(crate::specs::Bytes::count_at))]
pub(crate) fn count_at(bytes: &[u8], at: usize) -> usize
    requires { at + 4 ≤ length bytes.now }
    ensures value { result ≡ count_at bytes.now at }
    ensures bound { result < 2 ^ 32 }
{
    let high = bytes[at] as usize * 256 + bytes[at + 1] as usize;
    (high * 256 + bytes[at + 2] as usize) * 256 + bytes[at + 3] as usize
}

/// Checks that a header begins at a position.
pub(crate) fn is_magic(bytes: &[u8], at: usize) -> bool
    requires { at + 4 ≤ length bytes.now }
    ensures { IsTrue result ↔ IsMagic bytes.now at }
{
    bytes[at] == b'T' && bytes[at + 1] == b'Z' && bytes[at + 2] == b'i' && bytes[at + 3] == b'f'
}
