//! Schedules and traces as text, the replay of a schedule into a trace, and what a program reports at its end.

pub mod faults;
pub mod grammar_laws;
mod reading;
mod replaying;
mod reporting;
pub mod schedule;
mod schedule_runs;
pub mod trace;

pub use faults::ReplayFault;
pub use reading::schedule_from;
pub use replaying::{replay, start_run};
pub use reporting::{replay_status, report};
pub use schedule::{Act, Line, MAX_STEPS, Schedule, line_number, read_schedule};
pub use schedule_runs::run;
