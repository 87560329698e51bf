//! How a seat waits: it is added to the list while its user seat holds the user mutex, gives that mutex up, sleeps until it
//! is notified, and locks the mutex again.
ghost use Rattle.std.specs.Prelude.{◌≡◌, ◌+◌, ◌<◌};
ghost use Rattle.lfm_mutex.specs.Belongs.{Beside, OfMutex, limits_of, tries_of};
ghost use Rattle.lfm_mutex.specs.calls.RunGoesOn.{RunGoesOnFrom};
ghost use Rattle.lfm_mutex.specs.calls.Sight.{sight, MayRelease};
ghost use Rattle.lfm_mutex.specs.calls.Woken.{PollsAndWakesAsGranted};
ghost use Rattle.lfm_plain_condvar.specs.Belongs.{NotifiesNobody, OfPlain, WaitsAt};
ghost use Rattle.lfm_plain_condvar.specs.Waits.{Enlists, WaitEnds, WaitWithHowEnds};

use crate::condvar::PlainCondvar;
use crate::hold::ListedWait;
use crate::parkers::{TakenWaker, Woken};
use crate::plain_seat::PlainSeat;
use crate::unlocked_wait::UnlockedWait;
use crate::user::{Relock, bars_wait, come_back, give_up};
use lfm_model::{How, Refusal};
use lfm_mutex::{Kept, Mutex, Pace, Seat};
use std::mem::replace;
use std::sync::Wait;

/// How many times a seat polls at most before it sleeps. A seat that waits alone may be woken soon, as when two threads take
/// turns. Its polls then cost less than a sleep and a wake-up. If others wait ahead of it, it sleeps at once.
pub(crate) fn polls_behind(pace: Pace, ahead: usize) -> u32
    ensures alone { ahead ≡ 0 → result ≡ pace.polls }
    ensures behind { 0 < ahead → result ≡ 0 }
{
    if ahead == 0 { pace.looks() } else { 0 }
}

impl PlainCondvar {
    /// Adds the seat to the list in one hold, while the user seat holds its mutex. The seat's waker is then in the list. If
    /// it is refused, as Busy, the seat has its waker again.
    pub(crate) fn enlist<T: Kept, R: Wait>(
        &self,
        rt: &R,
        cond: &mut PlainSeat,
        holder: &Seat<T>,
    ) -> Result<ListedWait<T>, Refusal>
        requires belongs { OfPlain cond.old self.now }
        requires holder { (sight holder.now).depth ≡ 1 }
        requires spare { (sight cond.old.seat).takes < (limits_of self.now.inner).budget }
        ensures cond_woken { PollsAndWakesAsGranted cond.old.seat cond.new.seat }
        ensures waits { WaitsAt cond.new self.now × NotifiesNobody cond.old cond.new }
        ensures takes { (sight cond.new.seat).takes ≡ (sight cond.old.seat).takes + 1 }
        ensures enlists { Enlists (limits_of self.now.inner) (tries_of self.now.inner) (sight cond.old.seat) (sight cond.new.seat) (OfPlain cond.new self.now) result }
    {
        let Some(waker) = replace(&mut cond.waker, None) else {
            unreachable!()
        };
        match self.append_in_one_hold(rt, &mut cond.seat, waker, holder) {
            Ok(enlisted) => Ok(enlisted),
            Err(back) => {
                cond.waker = Some(back);
                Err(Refusal::Busy)
            }
        }
    }

    /// Sleeps until the seat is notified, and takes its waker back. Returns how the seat was woken.
    pub(crate) fn sleep<T: Kept, R: Wait>(
        &self,
        rt: &R,
        cond: &mut PlainSeat,
        wait: UnlockedWait<T>,
        polls: u32,
    ) -> Woken
        requires waits { WaitsAt cond.old self.now }
        requires own { wait.listed.number ≡ (sight cond.old.seat).number }
        ensures belongs { OfPlain cond.new self.now × NotifiesNobody cond.old cond.new }
        ensures same { cond.new.seat ≡ cond.old.seat }
    {
        let TakenWaker { waker, woken } = self.parkers.park(rt, &wait, polls, &mut cond.credit);
        cond.waker = Some(waker);
        woken
    }

    /// Gives up the user mutex, which the seat holds at depth 1, waits until a wake takes this seat out of the list and
    /// notifies it, and locks the user mutex again: by `lock` if that wake took out others too, and otherwise by
    /// `lock_barging`, or by one try and then `lock`, as said below. It returns the ticket: 1 for the first that waited on this
    /// condvar, and so on. It never returns without a wake. The seat is in the list before the user mutex is unlocked, so no
    /// wake that is made after another thread has locked that mutex misses it.
    ///
    /// Refuses, in this order, before anything is changed: Asleep (the user seat sleeps, or a call of it is open), NotOwner,
    /// Nested (it holds above depth 1), Spent (either seat has no take left). The contract has Busy too, which is not
    /// reached: as many would have to wait as there are seats.
    ///
    /// A wait costs each seat one take. It allocates no memory, sleeps, and wakes the seat that it grants a mutex, if any.
    /// If no other seat waits when this one is added to the list, it may poll before it sleeps, as often as the pace of the
    /// user mutex says. Otherwise it sleeps at once. Of these waits, a seat polls at each if it was notified in one of its last
    /// five rounds of polls. So does a new seat until four rounds have failed. Any other seat polls at one of 32.
    ///
    /// A seat that was woken alone locks by `lock_barging`, except in two cases. In both, no other seat waited when it was
    /// added, and the mutex counts one seat. That is mostly its waker, which still holds.
    /// - It yields once before `lock_barging`, if its last round failed and it may still poll at its next wait, or if it has
    ///   never polled.
    /// - It tries once and then queues by `lock`, if its last rounds have failed and it polls only at one of 32 waits. If the
    ///   pace has no spins, it calls `lock_barging` here too.
    pub fn wait<T: Kept, R: Wait>(
        &self,
        rt: &R,
        cond: &mut PlainSeat,
        mutex: &Mutex<T>,
        seat: &mut Seat<T>,
    ) -> Result<u64, Refusal>
        requires belongs { OfPlain cond.old self.now × OfMutex seat.old mutex.now }
        requires leaves { MayRelease T.follows T.fits (sight seat.old) }
        ensures belongs { OfPlain cond.new self.now × Beside seat.old seat.new }
        ensures run { RunGoesOnFrom seat.old seat.new }
        ensures cond_woken { PollsAndWakesAsGranted cond.old.seat cond.new.seat }
        ensures woken { PollsAndWakesAsGranted seat.old seat.new }
        ensures notifies { NotifiesNobody cond.old cond.new }
        ensures waits { WaitEnds T.follows T.fits (limits_of mutex.now) (limits_of self.now.inner) (tries_of self.now.inner) (tries_of mutex.now) (sight cond.old.seat) (sight cond.new.seat) (sight seat.old) (sight seat.new) result }
    {
        match self.wait_with_how(rt, cond, mutex, seat) {
            Ok((_, ticket)) => Ok(ticket),
            Err(refusal) => Err(refusal),
        }
    }

    /// `wait`, which also returns how the seat acquired the user mutex again.
    pub fn wait_with_how<T: Kept, R: Wait>(
        &self,
        rt: &R,
        cond: &mut PlainSeat,
        mutex: &Mutex<T>,
        seat: &mut Seat<T>,
    ) -> Result<(How, u64), Refusal>
        requires belongs { OfPlain cond.old self.now × OfMutex seat.old mutex.now }
        requires leaves { MayRelease T.follows T.fits (sight seat.old) }
        ensures belongs { OfPlain cond.new self.now × Beside seat.old seat.new }
        ensures run { RunGoesOnFrom seat.old seat.new }
        ensures cond_woken { PollsAndWakesAsGranted cond.old.seat cond.new.seat }
        ensures woken { PollsAndWakesAsGranted seat.old seat.new }
        ensures notifies { NotifiesNobody cond.old cond.new }
        ensures waits { WaitWithHowEnds T.follows T.fits (limits_of mutex.now) (limits_of self.now.inner) (tries_of self.now.inner) (tries_of mutex.now) (sight cond.old.seat) (sight cond.new.seat) (sight seat.old) (sight seat.new) result }
    {
        if let Some(refusal) = bars_wait(seat) {
            return Err(refusal);
        }
        if cond.seat.left() == 0 {
            return Err(Refusal::Spent);
        }
        let enlisted = self.enlist(rt, cond, seat)?;
        give_up(mutex, seat);
        let ahead = enlisted.ahead();
        let polls = polls_behind(mutex.pace(), ahead);
        let ticket = enlisted.ticket();
        let woken = self.sleep(rt, cond, UnlockedWait::new(enlisted, seat), polls);
        let behind_waker = cond.credit.behind_waker(ahead);
        let relock = Relock {
            woken,
            behind_waker,
        };
        let how = come_back(rt, mutex, seat, relock);
        Ok((how, ticket))
    }
}
