//! Waits with a time limit: a seat whose time is over takes itself out of the list. It needs a `TimeIsOver` of its deadline
//! for that. If it is no longer in the list, a wake has taken it out, and it sleeps on until it is notified. So no wake is
//! lost to a wait that timed out.
ghost use Rattle.std.specs.Prelude.{◌≡◌, ◌<◌, IfErr, MatchBool, MatchResult};
ghost use Rattle.lfm_mutex.specs.Belongs.{Beside, OfMutex, limits_of, tries_of};
ghost use Rattle.lfm_mutex.specs.calls.RunGoesOn.{RunGoesOnFrom};
ghost use Rattle.lfm_mutex.specs.calls.Sight.{sight, MayRelease};
ghost use Rattle.lfm_mutex.specs.calls.Woken.{PollsAndWakesAsGranted};
ghost use Rattle.lfm_plain_condvar.specs.Belongs.{NotifiesNobody, OfPlain, WaitsAt};
ghost use Rattle.lfm_plain_condvar.specs.Waits.{LeftList, NoLonger, SleepEnds, WaitForEnds, WaitWithinEnds, waited_of};

use crate::condvar::PlainCondvar;
use crate::parkers::{TakenWaker, Woken};
use crate::plain_seat::PlainSeat;
use crate::polls::BehindWaker;
use crate::time_is_over::TimeIsOver;
use crate::unlocked_wait::UnlockedWait;
use crate::user::{Relock, bars_wait, come_back, give_up};
use crate::wait::polls_behind;
use crate::waiters::Waiter;
use lfm_model::{How, Refusal};
use lfm_mutex::deadlines::{Deadline, deadline_after};
use lfm_mutex::{Kept, Mutex, Seat};
use std::sync::Wait;
use std::time::{Clock, Duration, Instant};

/// How a wait with a time limit ended, with its ticket.
#[derive(Clone, Copy, Debug, PartialEq, Eq)]
pub enum Waited {
    /// A wake took it out of the list, and notified it.
    Woken(u64),
    /// It took itself out of the list. No wake had done so.
    TimedOut(u64),
}

/// How a wait ended, without how the seat acquired the user mutex again.
fn without_how(ended: Result<(How, Waited), Refusal>) -> Result<Waited, Refusal>
    ensures { result ≡ waited_of ended }
{
    match ended {
        Ok((_, waited)) => Ok(waited),
        Err(refusal) => Err(refusal),
    }
}

impl PlainCondvar {
    /// Sleeps until the seat is notified or the deadline of the wait has passed. If the seat was notified, it has its waker
    /// back, and the call returns how it was woken. Otherwise the call returns that the time is over.
    fn sleep_until<T: Kept, R: Wait + Clock>(
        &self,
        rt: &R,
        cond: &mut PlainSeat,
        wait: &UnlockedWait<T>,
        polls: u32,
    ) -> Result<Woken, TimeIsOver>
        requires waits { WaitsAt cond.old self.now }
        requires own { wait.now.listed.number ≡ (sight cond.old.seat).number }
        ensures belongs { MatchResult result (λ _. OfPlain cond.new self.now) (λ _. WaitsAt cond.new self.now) }
        ensures over { IfErr result (λ over. over.deadline ≡ wait.now.deadline) }
        ensures same { (cond.new.seat ≡ cond.old.seat) × NotifiesNobody cond.old cond.new }
    {
        match self.parkers.park_until(rt, wait, polls, &mut cond.credit) {
            Ok(taken) => {
                let TakenWaker { waker, woken } = taken;
                cond.waker = Some(waker);
                Ok(woken)
            }
            Err(over) => Err(over),
        }
    }

    /// In one hold of the list, the seat takes itself out of it. Returns whether it was in the list. It then has its waker
    /// back.
    fn leave<R: Wait>(&self, rt: &R, cond: &mut PlainSeat, ticket: u64) -> bool
        requires waits { WaitsAt cond.old self.now }
        requires spare { (sight cond.old.seat).takes < (limits_of self.now.inner).budget }
        ensures cond_woken { PollsAndWakesAsGranted cond.old.seat cond.new.seat }
        ensures belongs { MatchBool result (OfPlain cond.new self.now) (WaitsAt cond.new self.now) }
        ensures notifies { NotifiesNobody cond.old cond.new }
        ensures leaves { MatchBool result (LeftList (limits_of self.now.inner) (tries_of self.now.inner) (sight cond.old.seat) (sight cond.new.seat) ticket) (NoLonger (limits_of self.now.inner) (tries_of self.now.inner) (sight cond.old.seat) (sight cond.new.seat) ticket) }
    {
        let number = cond.seat.number().get();
        match self.take_out_in_one_hold(rt, &mut cond.seat, number, ticket) {
            Some(waiter) => {
                let Waiter { waker, ticket: _ } = waiter;
                self.parkers.clear(&waker);
                cond.waker = Some(waker);
                true
            }
            None => false,
        }
    }

    /// The time of the wait is over: the seat takes itself out of the list. If it isn't there, a wake has taken it out and is
    /// about to notify it, and it sleeps until then. Returns how the wait ended, and how the seat was woken. A seat that took
    /// itself out counts as woken alone.
    fn end_at_deadline<T: Kept, R: Wait>(
        &self,
        rt: &R,
        cond: &mut PlainSeat,
        wait: UnlockedWait<T>,
        _over: TimeIsOver,
    ) -> (Waited, Woken)
        requires waits { WaitsAt cond.old self.now }
        requires own { wait.listed.number ≡ (sight cond.old.seat).number }
        requires over { _over.deadline ≡ wait.deadline }
        requires spare { (sight cond.old.seat).takes < (limits_of self.now.inner).budget }
        ensures cond_woken { PollsAndWakesAsGranted cond.old.seat cond.new.seat }
        ensures belongs { OfPlain cond.new self.now × NotifiesNobody cond.old cond.new }
        ensures ends { SleepEnds (limits_of self.now.inner) (tries_of self.now.inner) (sight cond.old.seat) (sight cond.new.seat) wait.entry.listed.enlisted.ticket result.0 }
        ensures timed_out { (t : _) → result.0 ≡ Waited.TimedOut t → result.1 ≡ Woken.Alone }
    {
        let ticket = wait.ticket();
        if self.leave(rt, cond, ticket) {
            return (Waited::TimedOut(ticket), Woken::Alone);
        }
        let woken = self.sleep(rt, cond, wait, 0);
        (Waited::Woken(ticket), woken)
    }

    /// Sleeps until the seat is notified, or has taken itself out of the list after the deadline. Returns what
    /// `end_at_deadline` returns.
    fn sleep_or_leave<T: Kept, R: Wait + Clock>(
        &self,
        rt: &R,
        cond: &mut PlainSeat,
        wait: UnlockedWait<T>,
        polls: u32,
    ) -> (Waited, Woken)
        requires waits { WaitsAt cond.old self.now }
        requires own { wait.listed.number ≡ (sight cond.old.seat).number }
        requires spare { (sight cond.old.seat).takes < (limits_of self.now.inner).budget }
        ensures cond_woken { PollsAndWakesAsGranted cond.old.seat cond.new.seat }
        ensures belongs { OfPlain cond.new self.now × NotifiesNobody cond.old cond.new }
        ensures ends { SleepEnds (limits_of self.now.inner) (tries_of self.now.inner) (sight cond.old.seat) (sight cond.new.seat) wait.entry.listed.enlisted.ticket result.0 }
        ensures timed_out { (t : _) → result.0 ≡ Waited.TimedOut t → result.1 ≡ Woken.Alone }
    {
        match self.sleep_until(rt, cond, &wait, polls) {
            Ok(woken) => (Waited::Woken(wait.ticket()), woken),
            Err(over) => self.end_at_deadline(rt, cond, wait, over),
        }
    }

    /// `wait` until the deadline, as `wait_for` does. It also returns how the seat acquired the user mutex again.
    pub fn wait_within<T: Kept, R: Wait + Clock>(
        &self,
        rt: &R,
        cond: &mut PlainSeat,
        mutex: &Mutex<T>,
        seat: &mut Seat<T>,
        deadline: Deadline,
    ) -> Result<(How, Waited), Refusal>
        requires belongs { OfPlain cond.old self.now × OfMutex seat.old mutex.now }
        requires leaves { MayRelease T.follows T.fits (sight seat.old) }
        ensures belongs { OfPlain cond.new self.now × Beside seat.old seat.new }
        ensures run { RunGoesOnFrom seat.old seat.new }
        ensures cond_woken { PollsAndWakesAsGranted cond.old.seat cond.new.seat }
        ensures woken { PollsAndWakesAsGranted seat.old seat.new }
        ensures notifies { NotifiesNobody cond.old cond.new }
        ensures waits { WaitWithinEnds T.follows T.fits (limits_of mutex.now) (limits_of self.now.inner) (tries_of self.now.inner) (tries_of mutex.now) (sight cond.old.seat) (sight cond.new.seat) (sight seat.old) (sight seat.new) result }
    {
        if let Some(refusal) = bars_wait(seat) {
            return Err(refusal);
        }
        if cond.seat.left() < 2 {
            return Err(Refusal::Spent);
        }
        let enlisted = self.enlist(rt, cond, seat)?;
        give_up(mutex, seat);
        let ahead = enlisted.ahead();
        let polls = polls_behind(mutex.pace(), ahead);
        let wait = UnlockedWait::until(enlisted, seat, deadline);
        let (waited, woken) = self.sleep_or_leave(rt, cond, wait, polls);
        let behind_waker = match waited {
            Waited::Woken(_) => cond.credit.behind_waker(ahead),
            Waited::TimedOut(_) => BehindWaker::Barges,
        };
        let relock = Relock {
            woken,
            behind_waker,
        };
        let how = come_back(rt, mutex, seat, relock);
        Ok((how, waited))
    }

    /// `wait` for at most this time from now. Returns Woken as `wait` does. Returns TimedOut if the time was over and no
    /// wake had taken the seat out of the list: the seat has then taken itself out. In both cases the seat holds the user
    /// mutex again, at depth 1. That lock has no time limit, and is by `lock_barging` after TimedOut. If the clock can't be
    /// read, the time is over at once.
    ///
    /// Refuses as `wait`, in the same order, but as Spent also if the plain seat has only one take left. A wait costs the
    /// user seat one take, and the plain seat one, or two if it looked for itself in the list.
    ///
    /// ```
    /// match condvar.wait_for(rt, cond, mutex, seat, Duration::from_millis(10))? {
    ///     Waited::Woken(ticket) => .. // a wake took this wait out of the list
    ///     Waited::TimedOut(ticket) => .. // none did, and the time is over
    /// }
    /// ```
    pub fn wait_for<T: Kept, R: Wait + Clock>(
        &self,
        rt: &R,
        cond: &mut PlainSeat,
        mutex: &Mutex<T>,
        seat: &mut Seat<T>,
        time: Duration,
    ) -> Result<Waited, Refusal>
        requires belongs { OfPlain cond.old self.now × OfMutex seat.old mutex.now }
        requires leaves { MayRelease T.follows T.fits (sight seat.old) }
        ensures belongs { OfPlain cond.new self.now × Beside seat.old seat.new }
        ensures run { RunGoesOnFrom seat.old seat.new }
        ensures cond_woken { PollsAndWakesAsGranted cond.old.seat cond.new.seat }
        ensures woken { PollsAndWakesAsGranted seat.old seat.new }
        ensures notifies { NotifiesNobody cond.old cond.new }
        ensures waits { WaitForEnds T.follows T.fits (limits_of mutex.now) (limits_of self.now.inner) (tries_of self.now.inner) (tries_of mutex.now) (sight cond.old.seat) (sight cond.new.seat) (sight seat.old) (sight seat.new) result }
    {
        without_how(self.wait_within(rt, cond, mutex, seat, deadline_after(rt, time)))
    }

    /// `wait_for` until this time of the monotonic clock.
    pub fn wait_until<T: Kept, R: Wait + Clock>(
        &self,
        rt: &R,
        cond: &mut PlainSeat,
        mutex: &Mutex<T>,
        seat: &mut Seat<T>,
        end: Instant,
    ) -> Result<Waited, Refusal>
        requires belongs { OfPlain cond.old self.now × OfMutex seat.old mutex.now }
        requires leaves { MayRelease T.follows T.fits (sight seat.old) }
        ensures belongs { OfPlain cond.new self.now × Beside seat.old seat.new }
        ensures run { RunGoesOnFrom seat.old seat.new }
        ensures cond_woken { PollsAndWakesAsGranted cond.old.seat cond.new.seat }
        ensures woken { PollsAndWakesAsGranted seat.old seat.new }
        ensures notifies { NotifiesNobody cond.old cond.new }
        ensures waits { WaitForEnds T.follows T.fits (limits_of mutex.now) (limits_of self.now.inner) (tries_of self.now.inner) (tries_of mutex.now) (sight cond.old.seat) (sight cond.new.seat) (sight seat.old) (sight seat.new) result }
    {
        without_how(self.wait_within(rt, cond, mutex, seat, Deadline::At(end)))
    }
}
