//! How a seat is added to the list in one hold of the inner mutex. Its caller shows the user seat, which holds its mutex, and
//! is given a `ListedWait`, without which no seat sleeps. So a wait is in the list before its user mutex is unlocked, and no
//! wake of a thread that locks that mutex later misses it.
ghost use Rattle.std.specs.Prelude.{◌≡◌, ◌<◌, ◌≤◌, Some};
ghost use Rattle.lfm_mutex.specs.Belongs.{Beside, OfMutex, limits_of, tries_of};
ghost use Rattle.lfm_mutex.specs.calls.Sight.{sight};
ghost use Rattle.lfm_mutex.specs.calls.Woken.{PollsAndWakesAsGranted, WakesNobody};
ghost use Rattle.lfm_plain_condvar.specs.Belongs.{parkers_of, seats_of};
ghost use Rattle.lfm_plain_condvar.specs.Holds.{HeldOnce, Rewrites, SeatKept, StepsOfOneHold};
ghost use Rattle.lfm_plain_condvar.specs.Keeping.{Adds};
ghost use Rattle.lfm_plain_condvar.specs.ListedWaits.{AddsWait, IsListed};

use super::leave_list;
use crate::condvar::PlainCondvar;
use crate::parkers::Waker;
use crate::waiters::{Enlisted, Waiters};
use lfm_mutex::{Kept, Seat};
use std::marker::PhantomData;
use std::sync::Wait;

/// A wait that was added to the list while its user seat held a mutex that guards a `T`. Only `append_in_one_hold` makes one.
#[derive(Drop)]
pub(crate) struct ListedWait<T: Drop> {
    number: u64,
    enlisted: Enlisted,
    guarded: PhantomData<T>,
}

impl<T: Kept> ListedWait<T> {
    /// The number of the plain seat that waits.
    pub(crate) fn number(&self) -> u64
        ensures { result ≡ self.now.number }
    {
        self.number
    }

    /// The ticket of the wait.
    pub(crate) fn ticket(&self) -> u64
        ensures { result ≡ self.now.enlisted.ticket }
    {
        self.enlisted.ticket
    }

    /// How many waited ahead of it.
    pub(crate) fn ahead(&self) -> usize
        ensures { result ≡ self.now.enlisted.ahead }
    {
        self.enlisted.ahead
    }
}

/// The wait of the plain seat with this number, if it was added.
fn listed<T: Kept>(number: u64, done: Result<Enlisted, Waker>) -> Result<ListedWait<T>, Waker>
    ensures { IsListed number done result }
{
    match done {
        Ok(enlisted) => Ok(ListedWait {
            number,
            enlisted,
            guarded: PhantomData,
        }),
        Err(back) => Err(back),
    }
}

/// Adds the waker to the list that the seat holds.
fn append_in_hand(cond: &mut Seat<Waiters>, waker: Waker) -> Result<Enlisted, Waker>
    requires held { 0 < (sight cond.old).depth }
    requires own { waker.number ≡ (sight cond.old).number }
    requires known { (v : _) → (sight cond.old).value ≡ Some v → (waker.number ≤ v.seats) × (waker.seat.table_id ≡ v.name.root.table_id) × (0 < waker.number) }
    ensures belongs { Beside cond.old cond.new }
    ensures woken { WakesNobody cond.old cond.new }
    ensures does { (v : _) × (w : _) × Rewrites (sight cond.old) (sight cond.new) v w × Adds waker v w result }
{
    let Some(waiters) = cond.value_mut() else {
        unreachable!()
    };
    waiters.append(waker)
}

impl PlainCondvar {
    /// Adds the waker to the list in one hold, while the user seat holds its mutex once.
    pub(crate) fn append_in_one_hold<T: Kept, R: Wait>(
        &self,
        rt: &R,
        cond: &mut Seat<Waiters>,
        waker: Waker,
        _holder: &Seat<T>,
    ) -> Result<ListedWait<T>, Waker>
        requires belongs { OfMutex cond.old self.now.inner }
        requires kept { SeatKept (parkers_of self.now) (seats_of self.now) (sight cond.old) }
        requires spare { (sight cond.old).takes < (limits_of self.now.inner).budget }
        requires own { waker.number ≡ (sight cond.old).number }
        requires waker { (waker.number ≤ seats_of self.now) × (waker.seat.table_id ≡ parkers_of self.now) × (0 < waker.number) }
        requires holder { (sight _holder.now).depth ≡ 1 }
        ensures belongs { Beside cond.old cond.new }
        ensures kept { SeatKept (parkers_of self.now) (seats_of self.now) (sight cond.new) }
        ensures woken { PollsAndWakesAsGranted cond.old cond.new }
        ensures held { (v : _) × (w : _) × HeldOnce (limits_of self.now.inner).budget (sight cond.old) (sight cond.new) v w × AddsWait waker v w result }
        ensures steps { StepsOfOneHold (limits_of self.now.inner) (tries_of self.now.inner) (sight cond.old) (sight cond.new) }
    {
        let number = waker.number;
        self.lock_list(rt, cond);
        let done = append_in_hand(cond, waker);
        leave_list(&self.inner, cond);
        listed(number, done)
    }
}
