//! `lock_barging`: a `lock` that first tries to acquire the mutex, and queues only if that fails. A failed try gives its charge
//! back and leaves the seat as it was, so a seat that tries has no place in the queue yet. From its push on, the order of the
//! queue applies to it, as after `lock`. Linux's mutex also spins before it queues (optimistic spinning), and so do the locks
//! of parking_lot and absl.
ghost use Rattle.std.specs.Prelude.{◌≡◌, ◌+◌, ◌-◌, ◌<◌, MatchBool, None, Some};
ghost use Rattle.lfm_mutex.specs.Belongs.{Beside, OfMutex, limits_of, tries_of};
ghost use Rattle.lfm_mutex.specs.calls.Acts.{ActsWakingNobody, PollsWakingNobody};
ghost use Rattle.lfm_mutex.specs.calls.Barging.{BargesBy, FailedTry, GainsIf, MayTry, TriesBy, TriesFirst, TryHeld};
ghost use Rattle.lfm_mutex.specs.calls.RunGoesOn.{RunGoesOnFrom};
ghost use Rattle.lfm_mutex.specs.calls.Sight.{sight, LocksWaiting};
ghost use Rattle.lfm_mutex.specs.calls.Woken.{PollsAndWakesAsGranted};

use crate::mutex::Mutex;
use crate::pace::pause_for;
use crate::seat::Seat;
use crate::try_lock::try_without_hold;
use lfm_model::{How, Locked, Refusal};
use lfm_table::layout::wake_at;
use lfm_table::parking::park_for;
use lfm_table::{Kept, OffTrail};
use std::sync::Wait;
use std::thread::yield_now;
use std::time::Duration;

/// How long a nap should last, in microseconds. The system may add about 50.
const NAP_MICROSECONDS: u64 = 20;

/// The number of pauses before a read of the count doubles from one read to the next, up to 2 to the power of this.
const MOST_DOUBLINGS: u32 = 8;

/// If more than the holder and one other seat are counted, others queue already. More spins would only take the cache line of
/// the count away from the holder.
const HOLDER_AND_ONE_MORE: u64 = 2;

/// Whether the seat is awake, doesn't hold and has a take left. A try of such a seat acquires the mutex or is refused as Busy.
#[inline(always)]
fn may_try<T: Kept>(seat: &Seat<T>) -> bool
    ensures { MatchBool result (MayTry seat.now.table_seat.limits.budget (sight seat.now)) (MayTry seat.now.table_seat.limits.budget (sight seat.now) → ⊥) }
{
    seat.takes() < seat.table_seat.limits.budget && seat.depth() == 0 && !seat.asleep()
}

impl<T: Kept> Mutex<T> {
    /// Acquires the mutex, or deepens the hold, with the answers and refusals of `lock`. A seat that doesn't hold first makes a
    /// bounded number of tries by `try_lock`, as the pace of the mutex says: one at once, if the pace has spins, and one after
    /// each read of the count that finds 0. Between these reads it pauses, and later naps. Such a read is no atomic step of the
    /// protocol. If no try acquires the mutex, the seat queues as by `lock`.
    ///
    /// So a thread may acquire the mutex before threads that came earlier and still try. It overtakes a queued thread only by
    /// accepting a post, as `try_lock` may. The number of tries is bounded: at most one for each spin and each nap of the pace.
    /// After that the thread queues, and no thread that queues later is served before it.
    ///
    /// Refuses, as `lock` and in this order: Asleep, DepthFull, Spent. An acquisition is charged one take, and a failed try
    /// none. It may sleep, wakes as `lock` does, and allocates nothing.
    ///
    /// ```
    /// mutex.set_pace(Pace::of_machine(&rt)?);
    /// let locked = mutex.lock_barging(&rt, &mut seat)?;
    /// ```
    #[inline(always)]
    pub fn lock_barging<R: Wait>(&self, rt: &R, seat: &mut Seat<T>) -> Result<Locked, Refusal>
        requires belongs { OfMutex seat.old self.now }
        ensures belongs { Beside seat.old seat.new }
        ensures woken { PollsAndWakesAsGranted seat.old seat.new }
        ensures run { RunGoesOnFrom seat.old seat.new }
        ensures locks { LocksWaiting T.follows T.fits (limits_of self.now).budget (sight seat.old) (sight seat.new) result }
        ensures steps { BargesBy (limits_of self.now) (tries_of self.now) (sight seat.old) (sight seat.new) result }
        ensures first { 0 < self.now.pace.spins → MayTry (limits_of self.now).budget (sight seat.old) → TriesFirst (limits_of self.now) (self.now.pace.spins - 1 + self.now.pace.naps) (sight seat.old) (sight seat.new) result }
    {
        if !may_try(seat) {
            return self.lock(rt, seat);
        }
        match self.try_first(seat) {
            Some(how) => Ok(Locked::Held(how)),
            None => self.barge(rt, seat),
        }
    }

    /// The fast path: the try of the first spin. It doesn't read the count first: mostly no seat holds, and the read would be
    /// one more load of a cache line that another processor has.
    #[inline(always)]
    fn try_first(&self, seat: &mut Seat<T>) -> Option<How>
        requires belongs { OfMutex seat.old self.now }
        requires free { MayTry (limits_of self.now).budget (sight seat.old) }
        ensures acts { ActsWakingNobody seat.old seat.new }
        ensures gains { GainsIf T.follows T.fits (limits_of self.now).budget (sight seat.old) (sight seat.new) result }
        ensures tries { TriesBy (limits_of self.now) (self.now.pace.spins - (self.now.pace.spins - 1)) (sight seat.old) (sight seat.new) result }
        ensures held { (how : _) → result ≡ Some how → TryHeld (limits_of self.now) (sight seat.old) (sight seat.new) how }
        ensures failed { 0 < self.now.pace.spins → result ≡ None → FailedTry (limits_of self.now) (sight seat.old) (sight seat.new) }
    {
        if self.pace.spins == 0 {
            return None;
        }
        self.try_if_free(seat, 0)
    }

    /// The slow path: spins, then naps, and then queues.
    #[inline(never)]
    fn barge<R: Wait>(&self, rt: &R, seat: &mut Seat<T>) -> Result<Locked, Refusal>
        requires belongs { OfMutex seat.old self.now }
        requires free { MayTry (limits_of self.now).budget (sight seat.old) }
        ensures belongs { Beside seat.old seat.new }
        ensures woken { PollsAndWakesAsGranted seat.old seat.new }
        ensures run { RunGoesOnFrom seat.old seat.new }
        ensures locks { LocksWaiting T.follows T.fits (limits_of self.now).budget (sight seat.old) (sight seat.new) result }
        ensures steps { BargesBy (limits_of self.now) (self.now.pace.spins - 1 + self.now.pace.naps) (sight seat.old) (sight seat.new) result }
    {
        match self.spin_and_nap(rt, seat) {
            Some(how) => Ok(Locked::Held(how)),
            None => self.lock(rt, seat),
        }
    }

    /// Tries for as long as the pace says, after the first try.
    #[inline(always)]
    fn spin_and_nap<R: Wait>(&self, rt: &R, seat: &mut Seat<T>) -> Option<How>
        requires belongs { OfMutex seat.old self.now }
        requires free { MayTry (limits_of self.now).budget (sight seat.old) }
        ensures acts { PollsWakingNobody seat.old seat.new }
        ensures gains { GainsIf T.follows T.fits (limits_of self.now).budget (sight seat.old) (sight seat.new) result }
        ensures tries { TriesBy (limits_of self.now) (self.now.pace.spins - 1 + self.now.pace.naps) (sight seat.old) (sight seat.new) result }
    {
        match self.spin(seat) {
            Some(how) => Some(how),
            None => self.nap(rt, seat),
        }
    }

    /// The spins after the first. Each is some pauses, a read of the count, and a try if it reads 0. The pauses double from one
    /// read to the next, so that the holder keeps the cache line of the count for most of the time. The spins end early if
    /// others queue already.
    #[inline(always)]
    fn spin(&self, seat: &mut Seat<T>) -> Option<How>
        requires belongs { OfMutex seat.old self.now }
        requires free { MayTry (limits_of self.now).budget (sight seat.old) }
        ensures acts { PollsWakingNobody seat.old seat.new }
        ensures gains { GainsIf T.follows T.fits (limits_of self.now).budget (sight seat.old) (sight seat.new) result }
        ensures tries { TriesBy (limits_of self.now) (self.now.pace.spins - 1) (sight seat.old) (sight seat.new) result }
    {
        'spins: for made in 1..self.pace.spins {
            pause_for(1 << (made - 1).min(MOST_DOUBLINGS));
            let count = self.table.poll_count(&mut seat.off_trail);
            match self.try_if_free(seat, count) {
                Some(how) => return Some(how),
                None => {}
            }
            if count > HOLDER_AND_ONE_MORE {
                return None;
            }
        }
        None
    }

    /// Naps as often as the pace says. A nap is a read of the count, a sleep, and another read. Threads that sleep leave the
    /// processors to the holder, and a queue can drain meanwhile. The first nap is a yield if the mutex may just have been
    /// handed over. The naps end early if many seats hold or wait: it is then better to queue at once.
    #[inline(always)]
    fn nap<R: Wait>(&self, rt: &R, seat: &mut Seat<T>) -> Option<How>
        requires belongs { OfMutex seat.old self.now }
        requires free { MayTry (limits_of self.now).budget (sight seat.old) }
        ensures acts { PollsWakingNobody seat.old seat.new }
        ensures gains { GainsIf T.follows T.fits (limits_of self.now).budget (sight seat.old) (sight seat.new) result }
        ensures tries { TriesBy (limits_of self.now) self.now.pace.naps (sight seat.old) (sight seat.new) result }
    {
        let wake = wake_at(seat.table_seat.limits.seats, seat.table_seat.number);
        'naps: for made in 0..self.pace.naps {
            let found = self.table.poll_count(&mut seat.off_trail);
            if self.pace.is_crowd(found) {
                return None;
            }
            let count = self.later_count(rt, wake, made == 0, found, &mut seat.off_trail);
            match self.try_if_free(seat, count) {
                Some(how) => return Some(how),
                None => {}
            }
        }
        None
    }

    /// The count after a nap, or 0 at once if this count is 0 already.
    #[inline(always)]
    fn later_count<R: Wait>(
        &self,
        rt: &R,
        wake: usize,
        is_first: bool,
        found: u64,
        off_trail: &mut OffTrail,
    ) -> u64
        requires { wake < self.now.table.table_id.words }
        ensures { off_trail.new.woken ≡ off_trail.old.woken }
    {
        if found == 0 {
            return 0;
        }
        if is_first && self.is_handed_over(found, off_trail) {
            return self.count_after_yield(off_trail);
        }
        self.count_after_nap(rt, wake, off_trail)
    }

    /// Whether the mutex may have been handed over to a seat whose thread has not run since: one seat is counted, and none
    /// owns.
    fn is_handed_over(&self, count: u64, off_trail: &mut OffTrail) -> bool
        ensures { off_trail.new.woken ≡ off_trail.old.woken }
    {
        count == 1 && self.table.poll_owner(off_trail) == 0
    }

    /// The count after a sleep.
    fn count_after_nap<R: Wait>(&self, rt: &R, wake: usize, off_trail: &mut OffTrail) -> u64
        requires { wake < self.now.table.table_id.words }
        ensures { off_trail.new.woken ≡ off_trail.old.woken }
    {
        let nap = Duration::from_micros(NAP_MICROSECONDS);
        park_for(rt, &self.table, wake, nap);
        self.table.poll_count(off_trail)
    }

    /// The count after a yield. The thread to which the mutex was handed over may be ready on this processor. A yield lets it
    /// run at once; a nap would last longer than its section. On a busy processor a yield costs a whole time slice, so
    /// all other naps are sleeps.
    fn count_after_yield(&self, off_trail: &mut OffTrail) -> u64
        ensures { off_trail.new.woken ≡ off_trail.old.woken }
    {
        yield_now();
        self.table.poll_count(off_trail)
    }

    /// Makes one try if this count is 0, and none otherwise. Reading the count costs the holder less than a failed try. It
    /// calls the fast path of `try_lock` directly: the preconditions of that path are known here.
    #[inline(always)]
    pub(crate) fn try_if_free(&self, seat: &mut Seat<T>, count: u64) -> Option<How>
        requires belongs { OfMutex seat.old self.now }
        requires free { MayTry (limits_of self.now).budget (sight seat.old) }
        ensures acts { ActsWakingNobody seat.old seat.new }
        ensures gains { GainsIf T.follows T.fits (limits_of self.now).budget (sight seat.old) (sight seat.new) result }
        ensures tries { TriesBy (limits_of self.now) 1 (sight seat.old) (sight seat.new) result }
        ensures held { (how : _) → result ≡ Some how → TryHeld (limits_of self.now) (sight seat.old) (sight seat.new) how }
        ensures failed { count ≡ 0 → result ≡ None → FailedTry (limits_of self.now) (sight seat.old) (sight seat.new) }
    {
        if count != 0 {
            return None;
        }
        match try_without_hold(self, seat) {
            Ok(Locked::Held(how)) => Some(how),
            Ok(Locked::Again(_)) => unreachable!(),
            Err(_) => None,
        }
    }
}
