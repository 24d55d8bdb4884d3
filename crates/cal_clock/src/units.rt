//! Units of time in smaller units. Each number has the type that the code computes with.

pub(crate) const NANOSECONDS_PER_MICROSECOND: u64 = 1_000;

pub(crate) const NANOSECONDS_PER_MILLISECOND: u64 = 1_000_000;

pub(crate) const NANOSECONDS_PER_SECOND: u64 = 1_000_000_000;

pub(crate) const NANOSECONDS_PER_MINUTE: u64 = 60_000_000_000;

pub(crate) const NANOSECONDS_PER_HOUR: u64 = 3_600_000_000_000;

pub(crate) const NANOSECONDS_PER_DAY: u64 = 86_400_000_000_000;

pub(crate) const SECONDS_PER_MINUTE: u32 = 60;

pub(crate) const SECONDS_PER_HOUR: u32 = 3_600;

pub(crate) const SECONDS_PER_DAY: i64 = 86_400;
