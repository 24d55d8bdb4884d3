//! The errors of dates.

pub use cal_units::error::{Component, ComponentRange};
