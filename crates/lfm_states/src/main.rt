//! The program `lfm_states` finds every state that a mutex of two seats can reach. Over all of them it measures the counts that
//! the laws of `lfm_laws` bound.
//!
//! It shows what no proof states: which of the bounds are reached, and how close the greatest counts are to the others.
//! `scripts/further/search_states` runs it. With the word `graph` it prints all states of a small mutex, for the pages.
#![tactic(auto)]

mod arguments;
mod calls;
mod codes;
mod commands;
mod comparing;
mod counts;
mod events;
mod graph;
mod keys;
mod measures;
mod points;
mod printing;
mod readings;
mod rows;
mod search;
mod service;
#[cfg(test)]
mod tests;
mod weights;

use std::process::ExitCode;

/// Runs what the command line asks for, and exits with its status.
fn main(rt: HostRuntime) -> ExitCode {
    ExitCode::from(commands::run(&rt))
}
