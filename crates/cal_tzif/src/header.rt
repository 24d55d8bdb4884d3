//! Headers of TZif files.
ghost use Rattle.std.specs.Prelude.{◌≡◌, ℕ, ◌+◌, ◌*◌, ◌^◌, ◌<◌, ◌≤◌, length, IfOk, IfErr, OnOk};
ghost use Rattle.cal_zone.specs.Table.{IsInside};
ghost use Rattle.cal_tzif.specs.Header.{header_at, IsHeader, IsHeaderError, layout_at, layout_of, second_header, HasHeaders, IsHeadersError};

use crate::bytes::{count_at, is_magic};
use crate::zone_error::{ZoneError, ZoneErrorKind};
use cal_zone::Layout;

/// The counts of a header (RFC 9636, 3.1).
#[derive(Clone, Copy)]
pub(crate) struct Header {
    pub(crate) version: u8,
    pub(crate) leaps: usize,
    pub(crate) changes: usize,
    pub(crate) types: usize,
    pub(crate) letters: usize,
    /// The position after the data block.
    pub(crate) end: usize,
}

impl Header {
    /// Reads the counts of a header, before a data block with times of `size` bytes.
    #[tactic(auto, unfolding(crate::specs::Header::block_end))]
    fn counts(bytes: &[u8], at: usize, size: usize) -> Header
        requires room { at + 44 ≤ length bytes.now }
        requires size { size ≤ 8 }
        ensures value { result ≡ header_at bytes.now at size }
        ensures end { at + 44 + result.changes * (size + 1) + result.types * 6 + result.letters
            ≤ result.end }
    {
        let _ = bytes.len();
        let leaps = count_at(bytes, at + 28);
        let changes = count_at(bytes, at + 32);
        let types = count_at(bytes, at + 36);
        let letters = count_at(bytes, at + 40);
        let rest = leaps * (size + 4) + count_at(bytes, at + 24) + count_at(bytes, at + 20);
        Header {
            version: bytes[at + 4],
            leaps,
            changes,
            types,
            letters,
            end: at + 44 + changes * (size + 1) + types * 6 + letters + rest,
        }
    }

    /// Reads the header at a position, before a data block with times of `size` bytes.
    fn read(bytes: &[u8], at: usize, size: usize) -> Result<Header, ZoneError>
        requires at { at ≤ length bytes.now }
        requires size { size ≤ 8 }
        ensures value { IfOk result (λ h. h ≡ header_at bytes.now at size) }
        ensures valid { OnOk result (IsHeader bytes.now at size) }
        ensures end { IfOk result (λ h. (h.end ≤ length bytes.now)
            × (at + 44 + h.changes * (size + 1) + h.types * 6 + h.letters ≤ h.end)) }
        ensures error { IfErr result (IsHeaderError bytes.now at size) }
    {
        if bytes.len() - at < 44 {
            return Err(ZoneErrorKind::Truncated.at(bytes.len()));
        }
        if !is_magic(bytes, at) {
            return Err(ZoneErrorKind::Magic.at(at));
        }
        let header = Header::counts(bytes, at, size);
        if header.version < b'2' || header.version > b'4' {
            return Err(ZoneErrorKind::Version.at(at + 4));
        }
        if bytes.len() < header.end {
            return Err(ZoneErrorKind::Truncated.at(bytes.len()));
        }
        Ok(header)
    }

    /// Returns where the parts of the data block are after the header at a position.
    fn layout(self, at: usize) -> Layout
        requires { at + 44 + 9 * self.changes + 6 * self.types + self.letters < 2 ^ 63 }
        ensures value { result ≡ layout_at self at }
    {
        let times = at + 44;
        let indexes = times + 8 * self.changes;
        let types = indexes + self.changes;
        let names = types + 6 * self.types;
        Layout {
            times,
            indexes,
            types,
            names,
            names_end: names + self.letters,
            changes: self.changes,
            kinds: self.types,
        }
    }
}

/// Reads both headers. Returns where the parts of the second data block are, and the position after
/// it.
pub(crate) fn read_headers(bytes: &[u8]) -> Result<(Layout, usize), ZoneError>
    ensures value { IfOk result (λ r. (r.0 ≡ layout_of bytes.now)
        × (r.1 ≡ (second_header bytes.now).end)) }
    ensures valid { OnOk result (HasHeaders bytes.now) }
    ensures inside { IfOk result (λ r. IsInside bytes.now r.0 × (r.0.names_end ≤ length bytes.now)
        × (r.0.names ≤ r.0.names_end) × (0 < r.0.kinds) × (r.1 ≤ length bytes.now)) }
    ensures error { IfErr result (IsHeadersError bytes.now) }
{
    let first = Header::read(bytes, 0, 4)?;
    let at = first.end;
    let second = Header::read(bytes, at, 8)?;
    if second.version != first.version {
        return Err(ZoneErrorKind::Version.at(at + 4));
    }
    if second.leaps != 0 {
        return Err(ZoneErrorKind::LeapSeconds.at(at + 28));
    }
    if second.types == 0 {
        return Err(ZoneErrorKind::NoType.at(at + 36));
    }
    Ok((second.layout(at), second.end))
}
