//! Tests of the plain condition variable, with and without threads. What its contracts say is not tested again: the tests show
//! that waits end, that a time limit is kept, and that threads wake each other.
#![tactic(auto)]

#[cfg(test)]
mod behind_waker;
#[cfg(test)]
mod beside_limits;
#[cfg(test)]
mod broadcast;
#[cfg(test)]
mod limits;
#[cfg(test)]
mod many_limits;
#[cfg(test)]
mod queue;
#[cfg(test)]
mod seeing;
#[cfg(test)]
mod two_threads;
#[cfg(test)]
mod woken_together;
