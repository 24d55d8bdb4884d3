//! Reads time zones from the bytes of TZif files (RFC 9636) and from POSIX texts such as
//! `CET-1CEST,M3.5.0,M10.5.0/3`.
#![tactic(auto)]

mod bytes;
mod file;
mod footer;
mod header;
mod number;
mod posix;
mod types;
mod zone_error;

pub use file::{parse, parse_parts, parse_posix, parse_posix_parts};
pub use zone_error::{ZoneError, ZoneErrorKind};
