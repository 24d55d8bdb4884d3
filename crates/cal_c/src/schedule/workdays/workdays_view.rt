//! Working days with any number of holidays, which stay in the caller's memory, for C.

/// A weekmask and holidays in the caller's memory. `fots_holidays_count` fills the second array.
#[repr(C)]
#[derive(Clone, Copy, Debug)]
pub struct WorkdaysView<'a> {
    pub weekmask: u32,
    /// 0, in place of padding.
    pub unused: u32,
    /// The holidays in ascending order.
    pub holidays: &'a [i32],
    /// The number of holidays before each index that have a marked weekday. It has one index more
    /// than there are holidays.
    pub marked_before: &'a [u32],
}
