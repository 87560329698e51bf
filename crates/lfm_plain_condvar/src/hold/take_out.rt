//! How a seat whose time is over takes itself out of the list, in one hold of the inner mutex.
ghost use Rattle.std.specs.Prelude.{◌≡◌, ◌<◌};
ghost use Rattle.lfm_mutex.specs.Belongs.{Beside, OfMutex, limits_of, tries_of};
ghost use Rattle.lfm_mutex.specs.calls.Sight.{sight};
ghost use Rattle.lfm_mutex.specs.calls.Woken.{PollsAndWakesAsGranted, WakesNobody};
ghost use Rattle.lfm_plain_condvar.specs.Belongs.{parkers_of, seats_of};
ghost use Rattle.lfm_plain_condvar.specs.Holds.{HeldOnce, IsOf, Rewrites, SeatKept, StepsOfOneHold};
ghost use Rattle.lfm_plain_condvar.specs.Keeping.{Leaves};

use super::leave_list;
use crate::condvar::PlainCondvar;
use crate::waiters::{Waiter, Waiters};
use lfm_mutex::Seat;
use std::sync::Wait;

/// Takes this waiter out of the list that the seat holds.
fn take_out_in_hand(cond: &mut Seat<Waiters>, number: u64, ticket: u64) -> Option<Waiter>
    requires held { 0 < (sight cond.old).depth }
    requires own { number ≡ (sight cond.old).number }
    ensures belongs { Beside cond.old cond.new }
    ensures woken { WakesNobody cond.old cond.new }
    ensures does { (v : _) × (w : _) × Rewrites (sight cond.old) (sight cond.new) v w × Leaves number ticket v w result }
{
    let Some(waiters) = cond.value_mut() else {
        unreachable!()
    };
    waiters.take_out(number, ticket)
}

impl PlainCondvar {
    /// Takes this waiter out of the list, in one hold.
    pub(crate) fn take_out_in_one_hold<R: Wait>(
        &self,
        rt: &R,
        cond: &mut Seat<Waiters>,
        number: u64,
        ticket: u64,
    ) -> Option<Waiter>
        requires belongs { OfMutex cond.old self.now.inner }
        requires kept { SeatKept (parkers_of self.now) (seats_of self.now) (sight cond.old) }
        requires spare { (sight cond.old).takes < (limits_of self.now.inner).budget }
        requires own { number ≡ (sight cond.old).number }
        ensures belongs { Beside cond.old cond.new }
        ensures kept { SeatKept (parkers_of self.now) (seats_of self.now) (sight cond.new) }
        ensures woken { PollsAndWakesAsGranted cond.old cond.new }
        ensures held { (v : _) × (w : _) × HeldOnce (limits_of self.now.inner).budget (sight cond.old) (sight cond.new) v w × IsOf (parkers_of self.now) (seats_of self.now) v × Leaves number ticket v w result }
        ensures steps { StepsOfOneHold (limits_of self.now.inner) (tries_of self.now.inner) (sight cond.old) (sight cond.new) }
    {
        self.lock_list(rt, cond);
        let done = take_out_in_hand(cond, number, ticket);
        leave_list(&self.inner, cond);
        done
    }
}
