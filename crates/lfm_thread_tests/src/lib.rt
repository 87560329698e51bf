//! Tests that start threads, of the running mutex, of `share` and of runs of workers, and what a condvar, a monitor and a run answer
//! when memory is refused. Of the tests of the running mutex, those in `flags` and `many_seats` start no thread. The others
//! without threads are in `lfm_tests`, those of the condvar in `lfm_condvar_tests`, and those of the monitor in
//! `lfm_monitor_tests`.
#![tactic(auto)]

#[cfg(test)]
mod mutex;
#[cfg(test)]
mod out_of_memory;
#[cfg(test)]
mod refused_memory;
#[cfg(test)]
mod seeing;
#[cfg(test)]
mod sharing;
#[cfg(test)]
mod work;
