//! Local time types.
ghost use Rattle.std.specs.Prelude.{◌≡◌, take, drop};
ghost use Rattle.cal_zone.specs.Abbreviation.{abbreviation, until_zero};

/// A local time type: how clocks are set from one change of a zone to the next (RFC 9636, 3.2).
#[derive(Clone, Copy, Debug, PartialEq, Eq)]
pub struct LocalType {
    /// The seconds by which clocks are ahead of UTC, negative if they are behind: 3600 for CET.
    pub offset: i32,
    /// `true` for daylight saving time.
    pub is_daylight: bool,
    /// The position of the abbreviation in the zone's bytes.
    pub name_start: usize,
    /// The position in the zone's bytes where the abbreviation ends, unless a zero byte ends it
    /// before.
    pub name_end: usize,
}

/// Returns the bytes before a position.
fn before(bytes: &[u8], end: usize) -> &[u8]
    ensures { result.now ≡ take end bytes.now }
{
    if end < bytes.len() {
        &bytes[..end]
    } else {
        bytes
    }
}

/// Returns the bytes from a position on.
fn from(bytes: &[u8], start: usize) -> &[u8]
    ensures { result.now ≡ drop start bytes.now }
{
    if start < bytes.len() {
        &bytes[start..]
    } else {
        &[]
    }
}

/// Returns the bytes before the first zero byte.
fn until_zero(bytes: &[u8]) -> &[u8]
    ensures { result.now ≡ until_zero bytes.now }
{
    for (index, b) in bytes.iter().enumerate() {
        if *b == 0 {
            return &bytes[..index];
        }
    }
    bytes
}

impl LocalType {
    /// Returns the abbreviation, such as `CET`, from the bytes that the zone was parsed from. From
    /// other bytes the result can be anything, even empty.
    pub fn abbreviation<'a>(self, bytes: &'a [u8]) -> &'a [u8]
        ensures { result.now ≡ abbreviation bytes.now self.name_start self.name_end }
    {
        until_zero(from(before(bytes, self.name_end), self.name_start))
    }
}
