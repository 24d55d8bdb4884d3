//! The code of the guide for users of `cal_time`, a module for each task.
#![tactic(auto)]

mod arithmetic;
mod arrival;
mod bills;
mod callers;
mod clauses;
mod components;
mod constructors;
mod counts;
mod datetimes;
mod days;
mod durations;
mod errors;
mod generic;
mod holidays;
mod names;
mod order;
mod periods;
mod printing;
mod recurrences;
mod rounding;
mod sets;
mod texts;
mod times;
mod walking;
mod zones;

use std::io;

fn main(rt: HostRuntime) -> io::Result<()> {
    constructors::show(&rt)?;
    errors::show(&rt)?;
    components::show(&rt)?;
    arithmetic::show(&rt)?;
    datetimes::show(&rt)?;
    walking::show(&rt)?;
    order::show(&rt)?;
    printing::show(&rt)?;
    generic::show(&rt)?;
    clauses::show(&rt)?;
    callers::show(&rt)?;
    days::show(&rt)?;
    texts::show(&rt)?;
    times::show(&rt)?;
    bills::show(&rt)?;
    recurrences::show(&rt)?;
    counts::show(&rt)?;
    sets::show(&rt)?;
    zones::show(&rt)?;
    periods::show(&rt)?;
    rounding::show(&rt)?;
    durations::show(&rt)?;
    names::show(&rt)?;
    holidays::show(&rt)?;
    arrival::main(rt)
}
