//! The program `lfm_explain`: it reads a schedule of atomic steps, as `lfm replay` does. It prints the same lines, and before
//! each of them the atomic steps that the line makes: each with its word, what was found there and where the responsibility
//! went. With the word `drive` it drives a running mutex through the schedule instead, and shows the outcome of each line. With
//! the word `states` it prints the states that the schedule passes, as a graph.
#![tactic(auto)]

mod commands;
mod driving;
mod explaining;
mod passing;
mod shown;

use std::process::ExitCode;

/// Runs what the command line asks for, and exits with its status.
fn main(rt: HostRuntime) -> ExitCode {
    ExitCode::from(commands::run(&rt))
}
