//! The plain condvar: its inner mutex around the list, and the parkers of its seats. Its calls are in `open`, `wait`,
//! `wait_for`, `wait_while`, `wake` and `close`.
ghost use Rattle.std.specs.Prelude.{◌≡◌};
ghost use Rattle.lfm_mutex.specs.Belongs.{limits_of};

use crate::parkers::Parkers;
use crate::waiters::Waiters;
use lfm_mutex::{Mutex, Pace};

/// A condition variable as `std::sync::Condvar` is one: a woken thread locks the user mutex again by itself. It does so by
/// `lock` if one wake took several waiters out of the list: by `lock_barging`, most of them would nap while another of them
/// holds. A thread that was woken alone, or whose time is over, may try before it queues, as `wait` says. Waiters are woken in
/// the order in which they began to wait. A thread that never waited may lock the mutex before a thread that was woken earlier.
/// `wait_for` and `wait_until` end at a time limit. No wait ends unless a wake took that wait out of the list, or its time is
/// over.
///
/// Choose between this and `Condvar` of `lfm_condvar` by what a woken thread needs. That one puts a woken thread into the
/// queue of the user mutex, so that it holds the mutex in the order of the wakes, and no thread that locks later is served
/// before it. In exchange its wakes have to pass a seat of the user mutex, it serves one mutex, and it has no time limits.
/// This one is for bounded queues, broadcasts and time limits: it does less at each wait and wake, one condvar may serve
/// several mutexes, and a wake needs no seat of any mutex. The threads that use a condvar have to agree which mutex guards
/// what they wait for.
///
/// ```
/// // the seat holds the mutex: it gives the mutex up, sleeps until a wake takes it out, and holds the mutex again
/// condvar.wait(rt, cond, mutex, seat)
/// // another seat wakes the one that has waited longest
/// condvar.wake_one(rt, cond)
/// ```
#[derive(Drop)]
pub struct PlainCondvar {
    pub(crate) inner: Mutex<Waiters>,
    pub(crate) parkers: Parkers,
    pub ghost one: { parkers.seats ≡ (limits_of inner).seats },
}

impl PlainCondvar {
    /// Sets how often a seat that locks the condvar's list tries before it queues, and how often it polls for its grant
    /// before it sleeps. A seat that waits for a wake polls by the pace of the user mutex, as `wait` says. The pace is set
    /// before threads share the condvar.
    pub fn set_pace(&mut self, pace: Pace)
        ensures pace { self.new.inner.pace ≡ pace }
        ensures same { (self.new.inner.table ≡ self.old.inner.table) × (self.new.inner.limits ≡ self.old.inner.limits) × (self.new.parkers ≡ self.old.parkers) }
    {
        self.inner.set_pace(pace);
    }
}
