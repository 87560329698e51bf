//! One thread acquires a mutex that no other thread uses by try_lock, and unlocks it.

use crate::measure::Steps;
use crate::peers::ours::Users;
use crate::workloads::alone::{Call, StandardCall};
use std::sync::{Mutex, Wait};

/// `try_lock` and `unlock`, or `try_lock` of std's mutex and the drop of its guard.
pub struct Hit;

impl Call for Hit {
    /// `try_lock` and `unlock`.
    #[inline(always)]
    fn ours<R: Wait>(_rt: &R, users: &mut Users) -> bool {
        users.user.try_lock() && users.user.unlock()
    }

    /// The steps of a try_lock that acquires the mutex, and of its unlock.
    #[inline(always)]
    fn bare(steps: &mut Steps) -> bool {
        steps.hit()
    }
}

impl StandardCall for Hit {
    /// `try_lock`, and the drop of its guard.
    #[inline(always)]
    fn standard<R: Wait>(_rt: &R, mutex: &Mutex<u64>) -> bool {
        match mutex.try_lock() {
            Some(guard) => {
                drop(guard);
                true
            }
            None => false,
        }
    }
}
