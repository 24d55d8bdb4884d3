//! Working days whose holidays are checked once, for C.

/// The maximum number of holidays.
pub const MAX: usize = 1024;

/// The number of indexes up to the maximum number of holidays.
pub const MAX_INDEXES: usize = 1025;

/// A weekmask and holidays. `fots_workdays_new` checks and fills it.
#[repr(C)]
#[derive(Clone, Copy, Debug)]
pub struct CheckedWorkdays {
    pub weekmask: u32,
    pub holidays_length: u32,
    /// The holidays in ascending order, then zeros.
    pub holidays: [i32; MAX],
    /// The number of holidays before each index that have a marked weekday.
    pub marked_before: [u32; MAX_INDEXES],
}

/// Checked working days.
#[repr(C)]
#[derive(Clone, Copy, Debug)]
pub struct WorkdaysResult {
    pub status: i32,
    pub workdays: CheckedWorkdays,
}
