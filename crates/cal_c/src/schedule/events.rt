//! Events of calendar files (RFC 5545).
//!
//! The lines of a file are unfolded first. An event is its lines, without those that begin and end
//! it. Positions count from the start of the bytes that a call gets.

mod days;
mod finding;
mod folding;
mod laws;
mod moments;
mod readings;
mod recurrence_lines;
mod results;
mod start;
mod values;
