//! Tests with one thread: worked examples of the public calls, scripts of workers, devices that fail, and memory that runs out.
//! Tests with several threads are in `lfm_thread_tests`, those of the condition variable in `lfm_condvar_tests`, and those of the
//! monitor in `lfm_monitor_tests`. Schedules with their traces are data in the folder `examples`.
//!
//! Many tests are lists of steps with their expected answers, since the proof of a test grows with each call in it. To see how
//! the library is used, read the programs `example_..`, in `rust/tests/threads.rs` and in `c_tests/bounded_buffer.c`.
#![tactic(auto)]

#[cfg(test)]
mod out_of_memory;
#[cfg(test)]
mod packing;
#[cfg(test)]
mod refused_memory;
#[cfg(test)]
mod replaying;
#[cfg(test)]
mod rounds;
#[cfg(test)]
mod running;
#[cfg(test)]
mod scripts;
#[cfg(test)]
mod seeing;
#[cfg(test)]
mod stepping;
