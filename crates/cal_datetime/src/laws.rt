//! Properties that callers need and that no clause of a method states: the constants, clones, and
//! the numbers by which values compare and hash.
ghost use Rattle.std.specs.Prelude.{◌≡◌, ◌↔◌, ◌<ℤ◌, Ok, pos, IsTrue, IsSome, IfSome};
ghost use Rattle.std.specs.Hash as fed;
ghost use Rattle.std.specs.Hash.DefaultHasher as hasher;
ghost use Rattle.std.specs.List.{fold};
ghost use Rattle.std.specs.Ordering.{int_cmp};
ghost use Rattle.cal_datetime.specs.DateTime.{last_date_time, IsDateTime};
ghost use Rattle.cal_datetime.specs.OffsetDateTime.{instant, local_at};

use crate::{OffsetDateTime, PlainDateTime};
use cal_time::UtcOffset;
use std::alloc::AllocError;
use std::cmp::Ordering;
use std::hash::{DefaultHasher, Hash, Hasher};

pub mod replacement;

/// Returns the first date-time, -999999-01-01 0:00:00.0. Its number is 0.
pub fn min_date_time() -> PlainDateTime
    ensures { result ≡ pos 0 }
{
    PlainDateTime::MIN
}

/// Returns the last date-time, 999999-12-31 23:59:59.999999999.
pub fn max_date_time() -> PlainDateTime
    ensures { result ≡ pos last_date_time }
{
    PlainDateTime::MAX
}

/// Clones both values. Each clone equals its original, including the offset.
pub fn clones(
    plain: PlainDateTime,
    moment: OffsetDateTime,
) -> Result<(PlainDateTime, OffsetDateTime), AllocError>
    ensures { result ≡ Ok (plain, moment) }
{
    Ok((plain.clone()?, moment.clone()?))
}

/// Returns `true` if two date-times are the same.
pub fn is_same(a: PlainDateTime, b: PlainDateTime) -> bool
    ensures { IsTrue result ↔ (a ≡ b) }
{
    a == b
}

/// Returns `true` if `a` is earlier than `b`.
pub fn is_before(a: PlainDateTime, b: PlainDateTime) -> bool
    ensures { IsTrue result ↔ (a <ℤ b) }
{
    a < b
}

/// Compares two date-times by their numbers, the nanoseconds since the first date-time.
pub fn order(a: PlainDateTime, b: PlainDateTime) -> Ordering
    ensures { result ≡ int_cmp a b }
{
    a.cmp(&b)
}

/// Returns `true` if two date-times have the same instant, such as 2024-02-29 8:00 +01:00:00 and
/// 2024-02-29 9:00 +02:00:00.
pub fn is_same_instant(a: OffsetDateTime, b: OffsetDateTime) -> bool
    ensures { IsTrue result ↔ (instant a ≡ instant b) }
{
    a == b
}

/// Returns `true` if the instant of `a` is earlier than the instant of `b`.
pub fn is_earlier(a: OffsetDateTime, b: OffsetDateTime) -> bool
    ensures { IsTrue result ↔ (instant a <ℤ instant b) }
{
    a < b
}

/// Compares two date-times by instant.
pub fn order_of_instants(a: OffsetDateTime, b: OffsetDateTime) -> Ordering
    ensures { result ≡ int_cmp (instant a) (instant b) }
{
    a.cmp(&b)
}

/// Converts to `offset` and back, which gives `moment` again. Returns `None` only if the local
/// date-time at `offset` is out of range.
pub fn round_trip(moment: OffsetDateTime, offset: UtcOffset) -> Option<OffsetDateTime>
    ensures some { IsSome result ↔ IsDateTime (local_at (instant moment) offset) }
    ensures value { IfSome result (λ back. back ≡ moment) }
{
    let _ = moment.local();
    match moment.checked_to_offset(offset) {
        Some(moved) => Some(moved.to_offset(moment.offset())),
        None => None,
    }
}

/// Returns the default hash of a date-time, which depends only on its number.
pub fn hash_of(plain: PlainDateTime) -> u64
    ensures { result ≡ hasher.finish (fold hasher.write hasher.initial (fed.i128 plain)) }
{
    let mut state = DefaultHasher::new();
    plain.hash(&mut state);
    state.finish()
}

/// Returns the default hash of a date-time at an offset, which depends only on its instant.
pub fn hash_of_instant(moment: OffsetDateTime) -> u64
    ensures { result ≡ hasher.finish
        (fold hasher.write hasher.initial (fed.i128 (instant moment))) }
{
    let mut state = DefaultHasher::new();
    moment.hash(&mut state);
    state.finish()
}
