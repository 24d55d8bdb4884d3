//! Time zones by name, from files.
ghost use Rattle.std.specs.Prelude.{◌≡◌, is_none, not, position};
ghost use Rattle.caldate_answers.specs.Offsets.{is_letter};
ghost use Rattle.caldate_args.specs.Zones.{IsReadZone, is_name_byte, is_zone_name};

pub mod read_zone_error;
pub mod zone_source;

use crate::args::offset::offset_of;
use crate::zones::read_zone_error::ReadZoneError;
use crate::zones::zone_source::{MAX_FILE_BYTES, read_whole};
use cal_time::UtcOffset;
use cal_tzif::parse;
use cal_zone::{LocalType, Table, Zone};
use caldate_answers::scan::is_letter;
use caldate_lines::streams::Source;

/// Returns whether the word may be the name of a zone: letters, digits, `_`, `-`, `+` and `/`, of
/// which the first is a letter. So its file lies in the folder.
pub fn is_zone_name(word: &[u8]) -> bool
    ensures { result ≡ is_zone_name word.now }
{
    match word {
        [first, ..] => {
            let letter = is_letter(*first);
            let others = has_name_bytes(word);
            letter && others
        }
        [] => false,
    }
}

/// Returns whether all bytes may be in the name of a zone.
fn has_name_bytes(word: &[u8]) -> bool
    ensures { result ≡ is_none (position (λ b. not (is_name_byte b)) word.now) }
{
    let mut rest = word;
    while let [first, others @ ..] = rest {
        if !is_name_byte(*first) {
            return false;
        }
        rest = others;
    }
    true
}

fn is_name_byte(byte: u8) -> bool
    ensures { result ≡ is_name_byte byte }
{
    is_letter(byte)
        || (byte >= b'0' && byte <= b'9')
        || byte == b'_'
        || byte == b'-'
        || byte == b'+'
        || byte == b'/'
}

/// Returns whether the word is read as the name of a zone, and not as an offset.
pub fn is_zone_like(word: &[u8]) -> bool {
    is_zone_name(word) && offset_of(word).is_none()
}

/// Returns a zone whose clocks always have this offset.
pub(crate) fn zone_with<'a>(offset: UtcOffset) -> Option<Zone<'a>> {
    let clocks = LocalType {
        offset: offset.whole_seconds(),
        is_daylight: false,
        name_start: 0,
        name_end: 0,
    };
    match Zone::new(clocks, Table::empty(b""), None) {
        Ok(zone) => Some(zone),
        Err(_) => None,
    }
}

/// Reads the file of a zone into the buffer, and returns the zone.
pub(crate) fn read_zone<'a, R: Source>(
    file: &mut R,
    buffer: &'a mut [u8; MAX_FILE_BYTES],
) -> Result<Zone<'a>, ReadZoneError>
    ensures { IsReadZone (R.remaining file.old) (R.remaining file.new) result }
{
    match read_whole(file, buffer) {
        Ok(length) => match parse(&buffer[..length]) {
            Ok(zone) => Ok(zone),
            Err(error) => Err(ReadZoneError::Zone(error)),
        },
        Err(error) => Err(ReadZoneError::File(error)),
    }
}
