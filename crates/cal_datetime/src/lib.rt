//! Date-times: a date with a time of day, with or without an offset from UTC.
//!
//! A [`PlainDateTime`] has no offset. An [`OffsetDateTime`] has one; it compares and hashes by
//! instant.
#![tactic(auto)]

mod constructors;
pub mod laws;
mod offset_date_time;
mod plain_date_time;

pub use constructors::{
    midnight, with_hms, with_hms_micro, with_hms_milli, with_hms_nano, with_time,
};
pub use offset_date_time::OffsetDateTime;
pub use plain_date_time::PlainDateTime;
