//! Laws that hold between calls. The contract of each function is its law.

pub mod cycles;
pub mod dates;
pub mod moves;
pub mod times;
pub mod values;
pub mod walks;
