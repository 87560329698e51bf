//! Tests of the monitor on its public calls, in one thread and in several: takes, ops, critical sections, rounds, waits and
//! wakes, refusals, limits and time limits; and of the commands of one worker, which are calls of a monitor.
#![tactic(auto)]

#[cfg(test)]
mod calls;
#[cfg(test)]
mod conditions;
#[cfg(test)]
mod driving;
#[cfg(test)]
mod limit_refusals;
#[cfg(test)]
mod limits;
#[cfg(test)]
mod monitors;
#[cfg(test)]
pub mod passes;
#[cfg(test)]
mod performing;
#[cfg(test)]
mod plain_passes;
#[cfg(test)]
mod plain_threads;
#[cfg(test)]
mod producers;
#[cfg(test)]
mod rounds;
#[cfg(test)]
mod sections;
#[cfg(test)]
mod seeing;
pub mod slot;
#[cfg(test)]
mod steps;
#[cfg(test)]
mod time_limits;
#[cfg(test)]
mod tries;
