//! Statuses as bytes: each status is below 256.
ghost use Rattle.std.specs.Prelude.{◌≡◌, pos};
ghost use Rattle.cal_c.specs.Columns.{IsByte};
ghost use Rattle.cal_c.specs.Statuses.{component_status};

use crate::status;
use cal_time::error::ComponentRange;

/// Returns the status of an error.
#[tactic(auto, using(crate::proofs::TextRows::is_byte))]
pub(super) fn status_byte(error: ComponentRange) -> u8
    ensures { pos result ≡ component_status error.component }
{
    byte_status(status::error_status(error))
}

/// Returns a status as a byte.
pub(super) fn byte_status(status: i32) -> u8
    ensures { IsByte status → pos result ≡ status }
{
    u8::try_from(status).unwrap_or(u8::MAX)
}
