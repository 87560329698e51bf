//! A script of workers: how many workers and conditions there are, and what each worker does. The modules below read a script
//! and list the commands of each worker.

mod commands;
pub mod grammar_laws;
mod limits;
mod reading;

pub use commands::commands_by_worker;
pub use reading::read_script;

/// The most workers of a script: as many as a mutex may have seats.
pub const MAX_WORKERS: u64 = 4_095;

/// The most conditions of a script: as many as a monitor may have.
pub const MAX_CONDITIONS: u64 = 16;

/// The most that one command may add, or wait for.
pub const MAX_NUMBER: u64 = 1_000_000_000;

/// A command of a worker. In `Until` the condition comes first.
#[derive(Clone, Copy, Debug, PartialEq, Eq)]
pub enum Command {
    /// The worker adds this number to the total.
    Add(u64),
    /// The worker waits on this condition until the total is at least this number.
    Until(u64, u64),
    /// The worker wakes the oldest waiter of this condition.
    One(u64),
    /// The worker wakes all waiters of this condition.
    All(u64),
}

/// A line of a script after the first.
#[derive(Clone, Copy, Debug, PartialEq, Eq)]
pub struct ScriptLine {
    /// The number of the worker, from 1.
    pub worker: u64,
    /// What it does.
    pub command: Command,
}

/// A script: how many workers and conditions there are, and what the workers do.
#[derive(Debug, Drop)]
pub struct Script {
    /// The number of workers: 1 to 4,095 in a script that was read.
    pub workers: u64,
    /// The number of conditions: at most 16 in a script that was read.
    pub conditions: u64,
    /// The lines after the first, in order: fewer than 65,536 in a script that was read.
    pub lines: Vec<ScriptLine>,
}
