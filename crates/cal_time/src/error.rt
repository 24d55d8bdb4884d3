//! The errors of the calendar.

pub use cal_units::error::{Component, ComponentRange, ConversionRange, InvalidVariant};
