//! What tests and loads of the plain condition variable share: a mutex around a number with a plain condvar, a hand of both
//! for each thread, calls by these hands, and threads that each do a task with one. Only tests and loads call it, so nothing
//! that a user needs is here.
#![tactic(auto)]

pub mod calls;
pub mod hands;
pub mod many_hands;
pub mod tasks;
