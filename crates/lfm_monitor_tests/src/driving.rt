//! Steps that one thread makes on a new monitor, by its one pass or its two. It has no test.

use crate::passes::{closed_by_one, monitor_of_one, monitor_of_two};
use crate::steps::{By, Step, make_all, make_alone};
use lfm_model::Total;
use std::alloc::Global;
use std::process::Abort;
use std::sync::Wait;
use std::test::Fail;

/// The one pass of a new monitor, which may write this number of entries, makes these steps. Returns the total that the monitor
/// is closed with. None if it can't be closed.
pub fn one_makes<R: Wait + Abort>(
    rt: &R,
    alloc: Global,
    entries: u64,
    conditions: u64,
    steps: &[Step],
) -> Result<Option<Total>, Fail> {
    let (monitor, mut pass) = monitor_of_one(alloc, entries, conditions).ok_or("a monitor")?;
    make_alone(rt, &monitor, &mut pass, steps);
    Ok(closed_by_one(monitor, pass, Vec::new(alloc)))
}

/// The two passes of a new monitor, each of which may write this number of entries, make these steps.
pub fn two_make<R: Wait + Abort>(
    rt: &R,
    alloc: Global,
    entries: u64,
    conditions: u64,
    steps: &[(By, Step)],
) -> Result<(), Fail> {
    let (monitor, mut first, mut second) = monitor_of_two(alloc, entries, conditions).ok_or(
        "a monitor",
    )?;
    make_all(rt, &monitor, &mut first, &mut second, steps);
    Ok(())
}
