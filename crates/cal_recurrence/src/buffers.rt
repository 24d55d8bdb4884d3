//! Buffers of a caller.
ghost use Rattle.std.specs.Prelude.{◌+◌, ◌-◌, ◌≤◌, length};
ghost use Rattle.cal_recurrence.specs.Buffers.{IsPut};

/// Writes bytes to the buffer, from this position on. Returns the end, or `None` if the buffer is
/// too short.
pub fn put(buffer: &mut [u8], at: usize, bytes: &[u8]) -> Option<usize>
    requires { at ≤ length buffer.old }
    ensures { IsPut at bytes.now buffer.old buffer.new result }
{
    if bytes.len() > buffer.len() - at {
        return None;
    }
    let end = at + bytes.len();
    buffer[at..end].copy_from_slice(bytes);
    Some(end)
}
