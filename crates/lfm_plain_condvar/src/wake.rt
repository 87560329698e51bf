//! How waiters are woken: in one hold of the inner mutex, the oldest or all are taken out of the list with their wakers.
//! Each of them is then notified by its waker.
ghost use Rattle.std.specs.Prelude.{◌≡◌, ◌++◌, ◌∷◌, []};
ghost use Rattle.lfm_mutex.specs.Belongs.{limits_of, tries_of};
ghost use Rattle.lfm_mutex.specs.calls.Woken.{PollsAndWakesAsGranted};
ghost use Rattle.lfm_plain_condvar.specs.Belongs.{IsOwedBy, OfPlain, OwedBy, notified_by};
ghost use Rattle.lfm_plain_condvar.specs.Wakes.{WakeAllEnds, WakeLaterEnds, WakeOneEnds, WakeOneWithNumberEnds, ticket_in};

use crate::condvar::PlainCondvar;
use crate::owed::OwedWakeUp;
use crate::plain_seat::PlainSeat;
use crate::waiters::Waiter;
use lfm_model::{Refusal, SeatNo};
use std::sync::Wait;

/// The ticket that a wake returned, without the number of the seat.
fn without_number(woken: Result<Option<(SeatNo, u64)>, Refusal>) -> Result<Option<u64>, Refusal>
    ensures { result ≡ ticket_in woken }
{
    match woken {
        Ok(Some((_, ticket))) => Ok(Some(ticket)),
        Ok(None) => Ok(None),
        Err(refusal) => Err(refusal),
    }
}

impl PlainCondvar {
    /// Takes the seat that has waited longest out of the list, and returns the wake-up that it is owed, or None if no seat
    /// waits. The caller passes that to `notify`, best after it has unlocked the user mutex: a thread that wakes earlier has
    /// to wait for the mutex. The caller need not hold the user mutex.
    ///
    /// Refuses with Spent if the plain seat has no take left. It costs one take. It allocates no memory, may sleep until it
    /// has the list, and wakes no waiter.
    pub fn wake_one_later<R: Wait>(
        &self,
        rt: &R,
        cond: &mut PlainSeat,
    ) -> Result<Option<OwedWakeUp>, Refusal>
        requires belongs { OfPlain cond.old self.now }
        ensures belongs { OfPlain cond.new self.now }
        ensures cond_woken { PollsAndWakesAsGranted cond.old.seat cond.new.seat }
        ensures owes { OwedBy result self.now }
        ensures wakes { WakeLaterEnds (limits_of self.now.inner) (tries_of self.now.inner) cond.old cond.new result }
    {
        if cond.seat.left() == 0 {
            return Err(Refusal::Spent);
        }
        match self.take_oldest_in_one_hold(rt, &mut cond.seat) {
            Some(waiter) => Ok(Some(OwedWakeUp { waiter })),
            None => Ok(None),
        }
    }

    /// Notifies a waiter that a wake took out of the list, and wakes its thread if that is parked. It costs no take,
    /// allocates no memory and never waits. It makes one system call at most.
    pub fn notify(&self, cond: &mut PlainSeat, owed: OwedWakeUp)
        requires belongs { OfPlain cond.old self.now }
        requires owed { IsOwedBy owed self.now }
        ensures belongs { OfPlain cond.new self.now }
        ensures same { cond.new.seat ≡ cond.old.seat }
        ensures notifies { notified_by cond.new ≡ notified_by cond.old ++ owed.waiter.waker.number ∷ [] }
    {
        let OwedWakeUp { waiter } = owed;
        let Waiter { waker, ticket: _ } = waiter;
        self.parkers.notify(waker, &mut cond.log);
    }

    /// Notifies the waiter, and returns its number and its ticket.
    fn notify_now(&self, cond: &mut PlainSeat, owed: OwedWakeUp) -> (SeatNo, u64)
        requires belongs { OfPlain cond.old self.now }
        requires owed { IsOwedBy owed self.now }
        ensures belongs { OfPlain cond.new self.now }
        ensures same { cond.new.seat ≡ cond.old.seat }
        ensures notifies { notified_by cond.new ≡ notified_by cond.old ++ owed.waiter.waker.number ∷ [] }
        ensures number { result.0 ≡ owed.waiter.waker.number }
        ensures ticket { result.1 ≡ owed.waiter.ticket }
    {
        let number = owed.number();
        let ticket = owed.waiter.ticket;
        self.notify(cond, owed);
        (number, ticket)
    }

    /// Wakes the seat that has waited longest, and returns its ticket, or None if no seat waits. It is `wake_one_later` and
    /// then `notify`, with the same refusal and cost.
    pub fn wake_one<R: Wait>(&self, rt: &R, cond: &mut PlainSeat) -> Result<Option<u64>, Refusal>
        requires belongs { OfPlain cond.old self.now }
        ensures belongs { OfPlain cond.new self.now }
        ensures cond_woken { PollsAndWakesAsGranted cond.old.seat cond.new.seat }
        ensures wakes { WakeOneEnds (limits_of self.now.inner) (tries_of self.now.inner) cond.old cond.new result }
    {
        without_number(self.wake_one_with_number(rt, cond))
    }

    /// `wake_one`, which also returns the number of the plain seat that was woken.
    pub fn wake_one_with_number<R: Wait>(
        &self,
        rt: &R,
        cond: &mut PlainSeat,
    ) -> Result<Option<(SeatNo, u64)>, Refusal>
        requires belongs { OfPlain cond.old self.now }
        ensures belongs { OfPlain cond.new self.now }
        ensures cond_woken { PollsAndWakesAsGranted cond.old.seat cond.new.seat }
        ensures wakes { WakeOneWithNumberEnds (limits_of self.now.inner) (tries_of self.now.inner) cond.old cond.new result }
    {
        match self.wake_one_later(rt, cond) {
            Err(refusal) => Err(refusal),
            Ok(None) => Ok(None),
            Ok(Some(owed)) => Ok(Some(self.notify_now(cond, owed))),
        }
    }

    /// Wakes all that wait, and returns how many there were. They are notified in one hold of the list, oldest first. After
    /// it the threads that are parked are woken, in the order of their seats, by one system call each. If the wake took
    /// out several, each locks its user mutex by `lock`. The caller need not hold the user mutex.
    ///
    /// Refuses with Spent if the plain seat has no take left. It costs one take, however many are woken. It allocates no
    /// memory and may sleep until it has the list.
    pub fn wake_all<R: Wait>(&self, rt: &R, cond: &mut PlainSeat) -> Result<u64, Refusal>
        requires belongs { OfPlain cond.old self.now }
        ensures belongs { OfPlain cond.new self.now }
        ensures cond_woken { PollsAndWakesAsGranted cond.old.seat cond.new.seat }
        ensures wakes { WakeAllEnds (limits_of self.now.inner) (tries_of self.now.inner) cond.old cond.new result }
    {
        if cond.seat.left() == 0 {
            return Err(Refusal::Spent);
        }
        Ok(self.notify_all_in_one_hold(rt, &mut cond.seat, &mut cond.log))
    }
}
