//! The plain condition variable: a list of those that wait, guarded by a mutex of its own, and a word for each seat on which
//! its thread sleeps. A wake takes the oldest waiter, or all, out of the list and notifies them. A woken thread locks the
//! user mutex again by itself. A wait may have a time limit. `PlainCondvar` says when to choose it, and when `Condvar` of
//! `lfm_condvar`.
#![tactic(auto)]

mod close;
pub mod condvar;
mod debug;
mod hold;
mod kept;
mod open;
pub mod owed;
pub mod parkers;
pub mod plain_seat;
pub mod polls;
pub mod tickets;
mod time_is_over;
mod unlocked_wait;
mod user;
mod wait;
pub mod wait_for;
mod wait_while;
pub mod waiters;
mod wake;

pub use condvar::PlainCondvar;
pub use owed::OwedWakeUp;
pub use plain_seat::PlainSeat;
pub use wait_for::Waited;
pub use waiters::WaitCounts;
