//! The program `lfm`. It reads a schedule of atomic steps and shows the mutex after each line. Or it reads a script of workers,
//! runs them on one monitor, and reports what they added.
#![tactic(auto)]

mod commands;

use std::process::ExitCode;

/// Runs what the command line asks for, and exits with its status.
fn main(rt: HostRuntime) -> ExitCode {
    ExitCode::from(commands::run(&rt))
}
