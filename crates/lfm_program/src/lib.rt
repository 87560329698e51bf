//! Runs a script of workers. Each worker is a thread, and all of them use one monitor. `lfm_script` defines scripts and their
//! reports. Of the names of other crates, only `Command`, `WorkFault` and the functions that turn the outcome of a run or of a
//! replay into an exit status are re-exported.
#![tactic(auto)]

pub mod gates;
pub mod performed;
mod script_run;
pub mod starting_line;
mod workers;
pub mod working;

pub use gates::{Gate, Meet, OpenGate};
pub use lfm_core::replay_status;
pub use lfm_script::{Command, WorkFault, status};
pub use performed::{Performed, perform};
pub use starting_line::StartingLine;
pub use working::work;
