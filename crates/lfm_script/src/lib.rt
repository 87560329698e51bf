//! Scripts of workers and the reports of their runs, and how the outcome of a run becomes a message and an exit status. No
//! thread, mutex or monitor is used here: the crates that depend on this one run scripts.
#![tactic(auto)]

mod counted_rows;
pub mod faults;
pub mod report_laws;
pub mod reporting;
pub mod rows;
pub mod script;
pub mod statuses;
pub mod work_report;

pub use counted_rows::rows_of;
pub use faults::WorkFault;
pub use reporting::report_work;
pub use rows::Row;
pub use script::{
    Command, MAX_CONDITIONS, MAX_NUMBER, MAX_WORKERS, Script, ScriptLine, commands_by_worker,
    read_script,
};
pub use statuses::status;
pub use work_report::{write_fault, write_report};
