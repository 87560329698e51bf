//! How a seat waits: it is enlisted in one hold of the inner mutex, and sleeps until it is sent. If no other seat waits, and at
//! most one seat holds or wants the user mutex, it polls for a while before it sleeps.
ghost use Rattle.std.specs.Prelude.{◌≡◌, ◌<◌, ◌≤◌, Some, IfOk, length};
ghost use Rattle.lfm_mutex.specs.Belongs.{Beside, OfMutex, limits_of};
ghost use Rattle.lfm_mutex.specs.calls.RunGoesOn.{RunGoesOnFrom};
ghost use Rattle.lfm_mutex.specs.calls.Sight.{sight, MayRelease};
ghost use Rattle.lfm_mutex.specs.calls.Woken.{PollsAndWakesAsGranted, WokenAsGranted};
ghost use Rattle.lfm_condvar.specs.Belongs.{CondWokenAsGranted, OfCondvar, cond_limits, cond_sight, cond_tries};
ghost use Rattle.lfm_condvar.specs.Waits.{BeginWaitEnds, WaitEnds, ticket_of};

use crate::cond_seat::{CondSeat, Enlisted};
use crate::condvar::Condvar;
use crate::waiters::bars_wait;
use lfm_model::{How, Refusal};
use lfm_mutex::{Holder, Kept, Mutex, Pace, Seat};
use std::sync::Wait;

/// How many times a seat polls before it sleeps, by the number of seats that waited ahead of it and the count of the user
/// mutex. A seat that waits alone, with one other thread at work, may be sent soon, as when two threads take turns. Its polls
/// then cost less than a sleep and a wake-up. If several seats wait, or were just sent, most of them wait long. Their polls
/// would only take processor time from the threads that run.
fn polls_behind(pace: Pace, ahead: usize, counted: u64) -> u32
    ensures alone { ahead ≡ 0 → counted ≤ 1 → result ≡ pace.polls }
    ensures behind { 0 < ahead → result ≡ 0 }
    ensures beside { 1 < counted → result ≡ 0 }
{
    if ahead == 0 && counted <= 1 {
        pace.looks()
    } else {
        0
    }
}

impl Condvar {
    /// The first half of `wait`: in one hold of the list, the user seat is added to the list, gives up its mutex and falls
    /// asleep. When it returns, the list is released and the user seat sleeps until a wake of another seat sends it. The second
    /// half is a `receive_lock` or `try_receive` of the user mutex. It returns the ticket: 1 for the first that waited on this
    /// condvar, and so on.
    ///
    /// Refuses as `wait`, in the same order, and costs what `wait` costs. It may sleep until it has the list. It allocates no
    /// memory, and wakes the seat that it grants a mutex, if any. A seat that is granted the user mutex is woken after the list
    /// is released.
    pub fn begin_wait<T: Kept, R: Wait>(
        &self,
        rt: &R,
        cond: &mut CondSeat,
        mutex: &Mutex<T>,
        seat: &mut Seat<T>,
    ) -> Result<u64, Refusal>
        requires belongs { OfCondvar cond.old self.now × OfMutex seat.old mutex.now }
        requires leaves { MayRelease T.follows T.fits (sight seat.old) }
        ensures belongs { OfCondvar cond.new self.now × Beside seat.old seat.new }
        ensures run { RunGoesOnFrom seat.old seat.new }
        ensures cond_woken { CondWokenAsGranted cond.old cond.new }
        ensures woken { WokenAsGranted seat.old seat.new }
        ensures begins { BeginWaitEnds (limits_of mutex.now) (cond_limits self.now) (cond_tries self.now) (cond_sight cond.old) (cond_sight cond.new) (sight seat.old) (sight seat.new) result }
    {
        match self.begin_wait_counted(rt, cond, mutex, seat) {
            Ok(enlisted) => Ok(enlisted.ticket),
            Err(refusal) => Err(refusal),
        }
    }

    /// `begin_wait`, which also returns how many seats waited ahead of this one in the list that the cond seat found.
    fn begin_wait_counted<T: Kept, R: Wait>(
        &self,
        rt: &R,
        cond: &mut CondSeat,
        mutex: &Mutex<T>,
        seat: &mut Seat<T>,
    ) -> Result<Enlisted, Refusal>
        requires belongs { OfCondvar cond.old self.now × OfMutex seat.old mutex.now }
        requires leaves { MayRelease T.follows T.fits (sight seat.old) }
        ensures belongs { OfCondvar cond.new self.now × Beside seat.old seat.new }
        ensures run { RunGoesOnFrom seat.old seat.new }
        ensures cond_woken { CondWokenAsGranted cond.old cond.new }
        ensures woken { WokenAsGranted seat.old seat.new }
        ensures begins { BeginWaitEnds (limits_of mutex.now) (cond_limits self.now) (cond_tries self.now) (cond_sight cond.old) (cond_sight cond.new) (sight seat.old) (sight seat.new) (ticket_of result) }
        ensures ahead { IfOk result (λ e. (v : _) × ((cond_sight cond.new).found ≡ Some v) × (e.ahead ≡ length v.list.items)) }
    {
        // `enlist` repeats the first and the last of these checks. They are made here too, before the list is locked, since
        // that lock costs the cond seat a take.
        if let Some(refusal) = bars_wait(seat) {
            return Err(refusal);
        }
        if cond.seat().left() == 0 {
            return Err(Refusal::Spent);
        }
        if seat.number().get() > self.seats {
            return Err(Refusal::NoSuchSeat);
        }
        let (enlisted, wake_up) = self.enlist_in_one_hold(rt, cond, mutex, seat);
        mutex.wake_from(seat, wake_up);
        enlisted
    }

    /// Gives up the user mutex, which the seat holds at depth 1, and waits until another seat sends this one by a wake. It
    /// returns how the seat came to hold the user mutex again, and its ticket. It is `begin_wait` and then `receive_lock`.
    ///
    /// Refuses, in this order, before anything is changed: Asleep (the user seat sleeps, or a call of it is open), NotOwner,
    /// Nested (it holds above depth 1), Spent (either seat has no take left), NoSuchSeat (its number is above the condvar's
    /// seats). Then Busy: the user seat is still in the list, which only a send that bypasses this condvar can cause. Busy is
    /// found under the inner mutex, costs the cond seat its take, and changes nothing else.
    ///
    /// A wait costs each seat one take. It allocates no memory, sleeps, and wakes the seat that it grants a mutex, if any. If
    /// no other seat waited when this one was added to the list, and at most one seat holds or wants the user mutex, it polls
    /// before it sleeps, as often as the pace of the user mutex says. Otherwise it sleeps at once.
    pub fn wait<T: Kept, R: Wait>(
        &self,
        rt: &R,
        cond: &mut CondSeat,
        mutex: &Mutex<T>,
        seat: &mut Seat<T>,
    ) -> Result<(How, u64), Refusal>
        requires belongs { OfCondvar cond.old self.now × OfMutex seat.old mutex.now }
        requires leaves { MayRelease T.follows T.fits (sight seat.old) }
        ensures belongs { OfCondvar cond.new self.now × Beside seat.old seat.new }
        ensures run { RunGoesOnFrom seat.old seat.new }
        ensures cond_woken { CondWokenAsGranted cond.old cond.new }
        ensures woken { PollsAndWakesAsGranted seat.old seat.new }
        ensures waits { WaitEnds T.follows T.fits (limits_of mutex.now) (cond_limits self.now) (cond_tries self.now) (cond_sight cond.old) (cond_sight cond.new) (sight seat.old) (sight seat.new) result }
    {
        let enlisted = self.begin_wait_counted(rt, cond, mutex, seat)?;
        let polls = polls_behind(mutex.pace(), enlisted.ahead, mutex.count_from(seat));
        match mutex.receive_lock_within(rt, seat, polls) {
            Ok(how) => Ok((how, enlisted.ticket)),
            Err(_) => unreachable!(),
        }
    }
}
