//! Columns: each call treats every row like its single call.
//!
//! A column is an array for each part of a value, and an array of status bytes. The arrays that a
//! call writes can be passed to the next call. A call returns the number of rows with an error, or
//! `usize::MAX` if its arrays differ in length; then it writes nothing.
ghost use Rattle.std.specs.Prelude.{◌≡◌, ◌≤◌, count_by, length, if◌then◌else◌};
ghost use Rattle.cal_c.specs.Columns.{is_error};

/// Writes the result of a function for each row of the inputs to the outputs and the statuses, and
/// returns the number of rows with an error. Returns `LENGTH_MISMATCH` if the lengths differ.
macro_rules! write_rows {
    ($function:ident($first:ident $(, $input:ident)* $(; $($shared:expr),+)?)
        => $($output:ident),+; $statuses:ident) => {{
        let rows = $first.len();
        if $($input.len() != rows ||)* $($output.len() != rows ||)+ $statuses.len() != rows {
            return LENGTH_MISMATCH;
        }
        for row in 0..rows {
            ($($output[row],)+ $statuses[row]) = $function($first[row] $(, $input[row])* $($(, $shared)+)?);
        }
        count_errors($statuses)
    }};
}

mod arithmetic;
mod checked_workdays;
mod components;
mod constructors;
mod months;
mod rounding;
mod statuses;
mod texts;
mod zoned;
mod zones;

use crate::status::OK;

/// The result of a call whose arrays differ in length.
const LENGTH_MISMATCH: usize = usize::MAX;

/// The number of rows that are counted in one byte.
const BLOCK: usize = 192;

/// The date or the year of a row with an error.
const NO_VALUE: i32 = i32::MIN;

/// Returns the number of rows with an error.
fn count_errors(statuses: &[u8]) -> usize
    ensures { result ≡ count_by is_error statuses.now }
{
    let mut refused = 0;
    let mut counted = 0;
    while counted < statuses.len() {
        let end = statuses.len().min(counted + BLOCK);
        refused += usize::from(count_errors_in_block(&statuses[counted..end]));
        counted = end;
    }
    refused
}

/// Returns the number of rows with an error among at most 192. A `u8` counts many rows at once.
fn count_errors_in_block(statuses: &[u8]) -> u8
    requires { length statuses.now ≤ 192 }
    ensures { result ≡ count_by is_error statuses.now }
{
    let mut refused = 0;
    for status in statuses {
        refused += error_bit(*status);
    }
    refused
}

/// Returns 1 for an error, else 0.
#[inline(always)]
fn error_bit(status: u8) -> u8
    ensures { result ≡ (if is_error status then 1 else 0) }
{
    if status == OK as u8 { 0 } else { 1 }
}
