//! Columns of strings: the bytes of all strings, and the bounds between which the strings are.
mod durations;
mod formats;
mod formatting;
mod iso;
mod parsing;
