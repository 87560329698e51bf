//! The condvar: its inner mutex around the list. Its calls are in `open`, `wait`, `wait_while`, `wake` and `close`.
ghost use Rattle.std.specs.Prelude.{◌≡◌};
ghost use Rattle.lfm_mutex.specs.Belongs.{limits_of};

use crate::waiters::Waiters;
use lfm_mutex::{Mutex, Pace};

/// A condition variable: user seats wait on it, and wakes *send* them in the order in which they started to wait. To send a
/// seat is to lock the user mutex on its behalf. A condvar serves one user mutex, and the caller has to pass the same one to
/// every call. No precondition checks this: if another mutex is passed, a wait may be refused as Busy, and a wake may be
/// refused as NotWaiting, or send a seat of that mutex. Each call requires that the cond seat is one of this condvar, and the
/// user seat one of the mutex that is passed.
///
/// Both of these calls are compiled in the crate `lfm_condvar_tests`:
///
/// ```
/// // the seat holds the mutex: it gives the mutex up, sleeps until a wake sends it, and holds the mutex again
/// condvar.wait(rt, cond, mutex, seat)
/// // another seat wakes the one that has waited longest
/// condvar.wake_one(rt, cond, mutex, seat)
/// ```
///
/// `wait_while` waits while a condition is true of the guarded value, here that the number is 0:
///
/// ```
/// condvar.wait_while(&rt, &mut cond, &mutex, &mut seat, |number| *number == 0)?;
/// ```
#[derive(Drop)]
pub struct Condvar {
    pub(crate) inner: Mutex<Waiters>,
    pub(crate) seats: u64,
    pub ghost numbered: { seats ≡ (limits_of inner).seats },
}

impl Condvar {
    /// Sets how often a seat that waits for the condvar's list tries before it queues, and how often it polls for its grant
    /// before it sleeps. A seat that waits to be sent polls by the pace of the user mutex, as `wait` says. The pace is set
    /// before threads share the condvar.
    pub fn set_pace(&mut self, pace: Pace)
        ensures pace { self.new.inner.pace ≡ pace }
        ensures same { (self.new.inner.table ≡ self.old.inner.table) × (self.new.inner.limits ≡ self.old.inner.limits) × (self.new.seats ≡ self.old.seats) }
    {
        self.inner.set_pace(pace);
    }
}
