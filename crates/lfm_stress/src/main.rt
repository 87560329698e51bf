//! The program `lfm_stress`: threads make many calls on one mutex, its condition variables, a plain condition variable or a
//! monitor. At the end no addition, no wake-up and no item may be lost.
//!
//! It tests what is not proved: that real threads reach the end of long runs. `scripts/further/stress` runs it, by hand.
#![tactic(auto)]

mod arguments;
mod commands;
mod loads;
mod plan;
mod progress;
mod running;
mod sums;
mod waits;

use std::process::ExitCode;

/// Runs what the command line asks for, and exits with its status.
fn main(rt: HostRuntime) -> ExitCode {
    ExitCode::from(commands::run(&rt))
}
