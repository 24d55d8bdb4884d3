//! Each contract that isn't a plain equation leaves one result: two equal calls return the same. A
//! proof knows only the clauses of a call, so it stays open if they allow a second result.

/// The results of two calls.
type Twice<T> = (T, T);

macro_rules! twice {
    ($call:expr) => {
        ($call, $call)
    };
}

mod arithmetic;
mod counted;
mod cycles;
mod dates;
mod durations;
mod months;
mod offsets;
mod times;
mod walks;
mod weekdays;
