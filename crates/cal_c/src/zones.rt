//! Time zones, from the bytes of TZif files or from POSIX strings.
//!
//! A zone is its bytes and what a call found in them, which checks them once. Other calls check in
//! a few steps that the bytes have all parts. No call keeps a pointer.

pub mod changes;
pub mod checked_zone;
pub mod laws;
mod moves;
mod offsets;
pub mod parsing;
pub mod policy;
mod printing;
mod resolution;
pub mod results;
mod rounding;
mod until;
mod zoned;
