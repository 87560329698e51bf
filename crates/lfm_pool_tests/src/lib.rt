//! Tests of a pool of mutexes, with and without threads. What its contracts say is not tested again: the tests show that each
//! call ends as its doc says, that a seat holds and waits in several mutexes, and that threads exclude and wake each other.
#![tactic(auto)]

#[cfg(test)]
mod depths;
#[cfg(test)]
mod opening;
#[cfg(test)]
mod queue;
#[cfg(test)]
mod seeing;
#[cfg(test)]
mod threads;
#[cfg(test)]
mod two_seats;
