//! The laws of condition variables over the core. Each function here does nothing. Its contract is the law, and its comment
//! names the definition of the law and the file that proves it.
//!
//! The laws are about one user mutex and any number of condvars, and about every list of starts of calls and of single steps,
//! by any seats in any order, for every number of seats and every budget within the limits. A `wait` takes the lock of its
//! condvar, adds its seat to the list, makes the steps of `start_wait`, releases the lock, and receives until it holds. A wake
//! takes the lock, makes the steps of `send_lock` for the oldest waiter, removes it from the list, continues with the next one
//! if it wakes all, and releases the lock. The lock is modelled as one atomic lock. All other calls of the mutex may come
//! between any two steps. But a `start_wait` is made only by a `wait`, and a `send_lock` only by a wake; this is the premise of
//! the laws. The definitions are those of `specs/Condvars.antt`, `specs/Events.antt`, `specs/Claims.antt`, `specs/Pushes.antt`
//! and `specs/Rounds.antt`.
#![tactic(auto)]

pub mod claims;
pub mod lists;
pub mod user_mutex;
pub mod waits;

pub use claims::{
    claims_are_in_order, claims_never_fail, pushes_are_in_order, tickets_are_claimed_once,
};
pub use lists::{
    lists_are_in_order, locks_are_given_back, sleepers_are_listed, waiters_are_listed,
    wakes_empty_the_list,
};
pub use user_mutex::{cores_are_reached, own_calls_are_free};
pub use waits::{
    sent_waiters_hold_in_rounds, waits_are_new, waits_are_sent, waits_can_end, waits_end_holding,
    waits_sleep_until_sent,
};
