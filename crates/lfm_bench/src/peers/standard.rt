//! How a thread waits on std's condvars, and wakes another.

use crate::peers::participants::Waking;
use std::sync::{Condvar, MutexGuard, Wait};

/// Waits on the condvar until the number under the mutex is at least this.
pub fn wait_until<'a, R: Wait>(
    rt: &R,
    condvar: &Condvar,
    guard: MutexGuard<'a, u64>,
    least: u64,
) -> MutexGuard<'a, u64> {
    condvar.wait_while(rt, guard, |number| *number < least)
}

/// Unlocks the mutex and notifies one thread that waits on the condvar, in the order that `waking` says.
pub fn unlock_and_notify<T>(guard: MutexGuard<T>, condvar: &Condvar, waking: Waking) {
    match waking {
        Waking::InHold => {
            condvar.notify_one();
            drop(guard);
        }
        Waking::AfterUnlock => {
            drop(guard);
            condvar.notify_one();
        }
    }
}
