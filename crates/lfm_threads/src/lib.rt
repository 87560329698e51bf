//! Threads that are started together: each does its job only after all have been started, and none does if one of them can't be
//! started. This crate doesn't use the mutex.
#![tactic(auto)]

mod arrivals;
mod not_started;
mod sharing;
mod start_latch;
mod task;
mod together;
mod workers;

pub use not_started::{NotStarted, StartFault};
pub use sharing::share;
