//! One hold of the inner mutex: a cond seat locks it, changes the list, and unlocks it. The lock and the unlock are private to
//! this module and its children, and these offer only whole holds.
ghost use Rattle.std.specs.Prelude.{◌≡◌, ◌≤◌, IfErr, IfOk, false};
ghost use Rattle.lfm_model.specs.declared.refusals.Refusal.TheVariants.{Spent};
ghost use Rattle.lfm_mutex.specs.Belongs.{Beside, OfMutex, limits_of, tries_of};
ghost use Rattle.lfm_mutex.specs.calls.Sight.{sight, LeavesOff, MayLeave};
ghost use Rattle.lfm_mutex.specs.calls.Woken.{PollsAndWakesAsGranted, WokenAsGranted};
ghost use Rattle.lfm_condvar.specs.Holds.{CondKept, InHand, LeavesList, LocksList, MadeFor};
ghost use Rattle.lfm_condvar.specs.Keeping.{WaitersFollow};

mod enlist;
mod send;

use crate::waiters::Waiters;
pub(crate) use enlist::Enlisted;
use lfm_model::{Locked, Refusal};
use lfm_mutex::{Mutex, Seat};
use std::sync::Wait;

/// Locks the inner mutex by `lock_barging`. Its only refusal is Spent.
fn lock_list<R: Wait>(
    inner: &Mutex<Waiters>,
    rt: &R,
    cond: &mut Seat<Waiters>,
) -> Result<(), Refusal>
    requires belongs { OfMutex cond.old inner.now }
    requires made { MadeFor (limits_of inner.now) (sight cond.old) }
    requires kept { CondKept (sight cond.old) }
    ensures belongs { Beside cond.old cond.new }
    ensures woken { PollsAndWakesAsGranted cond.old cond.new }
    ensures held { IfOk result (λ _. (v : _) × InHand (limits_of inner.now) (sight cond.old) (sight cond.new) v v) }
    ensures steps { IfOk result (λ _. LocksList (limits_of inner.now) (tries_of inner.now) (sight cond.old) (sight cond.new)) }
    ensures refused { IfErr result (λ r. (r ≡ Spent) × ((limits_of inner.now).budget ≤ (sight cond.old).takes) × (sight cond.new ≡ sight cond.old)) }
{
    let locked = inner.lock_barging(rt, cond)?;
    match locked {
        Locked::Held(_) => Ok(()),
        Locked::Again(_) => unreachable!(),
    }
}

/// Unlocks the inner mutex.
fn leave_list(inner: &Mutex<Waiters>, cond: &mut Seat<Waiters>)
    requires belongs { OfMutex cond.old inner.now }
    requires held { ((sight cond.old).depth ≡ 1) × ((sight cond.old).asleep ≡ false) }
    requires leaves { MayLeave WaitersFollow (λ _ _. Unit {0}) (sight cond.old) }
    ensures belongs { Beside cond.old cond.new }
    ensures woken { WokenAsGranted cond.old cond.new }
    ensures leaves { LeavesOff (sight cond.old) (sight cond.new) }
    ensures steps { LeavesList (limits_of inner.now) (sight cond.old) (sight cond.new) }
    ensures keeps { ((sight cond.new).takes ≡ (sight cond.old).takes) × ((sight cond.new).asleep ≡ (sight cond.old).asleep) }
{
    match inner.unlock(cond) {
        Ok(_) => {}
        Err(_) => unreachable!(),
    }
}
