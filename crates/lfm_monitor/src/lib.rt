//! A guarded object with a journal of what its holders did, built on the mutex. A call is made through the monitor and one of
//! its passes. At every hold the journal is lawful, and its replay from the opening object is the object.
#![tactic(auto)]

mod apply;
mod apply_until;
pub mod apply_until_for;
mod close;
mod debug;
mod enter;
mod hold;
pub mod journaled;
pub mod laws;
mod leave;
pub mod monitor;
mod open;
pub mod pass;
mod plain_open;
mod plain_paces;
mod plain_wait;
mod plain_wake;
mod run;
mod timed_wait;
mod wait;
mod wake;
mod write;

pub use apply_until_for::LastReply;
pub use hold::CriticalSection;
pub use journaled::Journaled;
pub use lfm_plain_condvar::Waited;
pub use monitor::Monitor;
pub use open::{MAX_CONDITIONS, MAX_ENTRIES};
pub use pass::Pass;
