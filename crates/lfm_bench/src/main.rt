//! The program `lfm_bench` compares the running mutex with the bare atomic steps of its calls and with std's mutex, mutexes of a
//! pool with both, and the two kinds of running condvars with std's. It prints tables of medians.
//!
//! It measures how fast they are on one machine. Nothing is proved about time.
#![tactic(auto)]

mod bench;
mod measure;
mod peers;
mod tables;
mod workloads;

use crate::measure::Plan;
use std::io;

/// Measures by the plan of the arguments, and prints the tables.
fn main(rt: HostRuntime) -> io::Result<()> {
    let plan = Plan::from_arguments(&rt)?;
    tables::measure(&rt, plan)
}
