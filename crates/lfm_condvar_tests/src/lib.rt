//! Tests of the running condvar, with and without threads: two threads of which one waits, a wait in two halves, a send past the
//! condvar, 32 threads that are woken at once, two condvars of one mutex, waits while a condition holds, refusals and limits.
#![tactic(auto)]

#[cfg(test)]
mod begun_waits;
#[cfg(test)]
mod calls;
#[cfg(test)]
mod driving;
pub mod in_hand;
#[cfg(test)]
mod limits;
#[cfg(test)]
mod many_waiters;
#[cfg(test)]
pub mod pairs;
#[cfg(test)]
mod past_the_condvar;
#[cfg(test)]
mod refusals;
#[cfg(test)]
mod refused_calls;
#[cfg(test)]
mod repeated_waits;
#[cfg(test)]
mod seeing;
#[cfg(test)]
mod steps;
#[cfg(test)]
mod two_condvars;
#[cfg(test)]
mod two_threads;
