//! One hold of the inner mutex: a seat locks it, changes the list, and unlocks it. The lock and the unlock are private to
//! this module and its children, and these offer only whole holds.
ghost use Rattle.std.specs.Prelude.{◌≡◌, ◌<◌, false};
ghost use Rattle.lfm_mutex.specs.Belongs.{Beside, OfMutex, limits_of, tries_of};
ghost use Rattle.lfm_mutex.specs.calls.Sight.{sight, LeavesOff, MayLeave};
ghost use Rattle.lfm_mutex.specs.calls.Woken.{PollsAndWakesAsGranted, WokenAsGranted};
ghost use Rattle.lfm_plain_condvar.specs.Belongs.{parkers_of, seats_of};
ghost use Rattle.lfm_plain_condvar.specs.Holds.{InHand, LocksList, SeatKept, Unlocks};
ghost use Rattle.lfm_plain_condvar.specs.Keeping.{WaitersFollow};

mod append;
mod notify_all;
mod take_oldest;
mod take_out;

use crate::condvar::PlainCondvar;
use crate::waiters::Waiters;
pub(crate) use append::ListedWait;
use lfm_model::Locked;
use lfm_mutex::{Mutex, Seat};
use std::sync::Wait;

/// Unlocks the inner mutex.
fn leave_list(inner: &Mutex<Waiters>, cond: &mut Seat<Waiters>)
    requires belongs { OfMutex cond.old inner.now }
    requires held { ((sight cond.old).depth ≡ 1) × ((sight cond.old).asleep ≡ false) }
    requires leaves { MayLeave WaitersFollow (λ _ _. Unit {0}) (sight cond.old) }
    ensures belongs { Beside cond.old cond.new }
    ensures woken { WokenAsGranted cond.old cond.new }
    ensures leaves { LeavesOff (sight cond.old) (sight cond.new) }
    ensures steps { Unlocks (limits_of inner.now) (sight cond.old) (sight cond.new) }
    ensures keeps { ((sight cond.new).takes ≡ (sight cond.old).takes) × ((sight cond.new).asleep ≡ (sight cond.old).asleep) }
{
    match inner.unlock(cond) {
        Ok(_) => {}
        Err(_) => unreachable!(),
    }
}

impl PlainCondvar {
    /// Locks the inner mutex by `lock_barging`.
    fn lock_list<R: Wait>(&self, rt: &R, cond: &mut Seat<Waiters>)
        requires belongs { OfMutex cond.old self.now.inner }
        requires kept { SeatKept (parkers_of self.now) (seats_of self.now) (sight cond.old) }
        requires spare { (sight cond.old).takes < (limits_of self.now.inner).budget }
        ensures belongs { Beside cond.old cond.new }
        ensures woken { PollsAndWakesAsGranted cond.old cond.new }
        ensures held { (v : _) × InHand (parkers_of self.now) (seats_of self.now) (limits_of self.now.inner).budget (sight cond.old) (sight cond.new) v v }
        ensures steps { LocksList (limits_of self.now.inner) (tries_of self.now.inner) (sight cond.old) (sight cond.new) }
    {
        match self.inner.lock_barging(rt, cond) {
            Ok(locked) => match locked {
                Locked::Held(_) => {}
                Locked::Again(_) => unreachable!(),
            },
            Err(_) => unreachable!(),
        }
    }
}
