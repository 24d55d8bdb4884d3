//! Each contract that isn't a plain equation allows only one result: two calls return the same.
//!
//! A proof knows only the clauses, so a second result would leave the line of its call open.

/// The results of two calls.
type Twice<T> = (T, T);

macro_rules! twice {
    ($call:expr) => {
        ($call, $call)
    };
}

mod constructors;
mod moments;
mod plain;
