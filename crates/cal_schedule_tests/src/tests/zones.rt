//! Zones.

mod occurrences;
mod tzif;
