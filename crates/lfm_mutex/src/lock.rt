//! `ask` locks or queues; `lock` also waits for the grant. Fast path: the mutex is free, the seat holds it already, or the seat
//! queues (`push`). It writes only the fields of the seat that change. Everything else is the slow path (`calls::finish`).
ghost use Rattle.std.specs.Prelude.{◌≡◌, ◌+◌, ◌<◌};
ghost use Rattle.lfm_protocol.specs.declared.answers.Answer.TheVariants as Answered;
ghost use Rattle.lfm_protocol.specs.declared.answers.Call.{Call as CallNow};
ghost use Rattle.lfm_protocol.specs.declared.answers.Turn.TheVariants.{Ended};
ghost use Rattle.lfm_protocol.specs.declared.points.Point.TheVariants.{LockOwnerLoad};
ghost use Rattle.lfm_mutex.specs.Belongs.{Beside, OfMutex, limits_of};
ghost use Rattle.lfm_mutex.specs.calls.FailedPushes.{MakesBesideFailures};
ghost use Rattle.lfm_mutex.specs.calls.RunGoesOn.{RunGoesOnFrom};
ghost use Rattle.lfm_mutex.specs.calls.Runs.{errand, locking};
ghost use Rattle.lfm_mutex.specs.calls.Sight.{sight, Asks, LocksWaiting};
ghost use Rattle.lfm_mutex.specs.calls.FastPath.{ComesTo, MayAcquire, MayDeepen};
ghost use Rattle.lfm_mutex.specs.calls.Trails.{MakesCall, LocksBy};
ghost use Rattle.lfm_mutex.specs.calls.WakeUps.{Wakes};
ghost use Rattle.lfm_mutex.specs.calls.Woken.{PollsAndWakesAsGranted, WakesNobody, WokenAsGranted};
ghost use Rattle.lfm_mutex.specs.calls.OpenCalls.{AtTableOf, WithinDue, FinishesAs};
ghost use Rattle.lfm_mutex.specs.calls.Acts.{ActsOwing};

use crate::calls::{asleep, begin_and_finish, finish};
use crate::mutex::Mutex;
use crate::push::{Pushed, push};
use crate::seat::Seat;
use crate::stops::{Stop, stop_at, stop_at_push};
use lfm_model::{Asked, How, Locked, Refusal};
use lfm_protocol::points::{Entrant, Point, Pusher, Sleeper};
use lfm_protocol::{Answer, Call, MAX_DEPTH, SeatState, Turn, Why};
use lfm_table::operations::{CountAdd, CountSubtract, OwnerLoad, OwnerStore};
use lfm_table::table_steps::{gain, keep_held, load_other_owner};
use lfm_table::{Kept, WakeUp};
use std::sync::Wait;

impl<T: Kept> Mutex<T> {
    /// `lock` up to the point at which it would sleep: acquires the mutex, deepens the hold, or queues the seat. A queued seat
    /// sleeps until a receive finds its grant. A seat that acquires the mutex or queues is charged one take.
    ///
    /// Refuses, in this order: Asleep (the seat sleeps, or a call of it is open), DepthFull (it holds at depth 65,535), Spent
    /// (it doesn't hold, and has no take left). It never waits. If it takes over a posted hand-off and a record older than its
    /// own is queued, it grants the mutex to the seat of that record and wakes it. It makes at most N + 9 atomic steps, N being
    /// the number of seats, and two more for each exchange of the push word that fails because another seat has changed the
    /// word. It corresponds to `lock` of LFthreads' mutex and of OSv's lfmutex.
    #[inline(always)]
    pub fn ask(&self, seat: &mut Seat<T>) -> Result<Asked, Refusal>
        requires belongs { OfMutex seat.old self.now }
        ensures belongs { Beside seat.old seat.new }
        ensures woken { WokenAsGranted seat.old seat.new }
        ensures run { RunGoesOnFrom seat.old seat.new }
        ensures asks { Asks T.follows T.fits (limits_of self.now).budget (sight seat.old) (sight seat.new) result }
        ensures steps { MakesCall (limits_of self.now) (λ x. Answered.Asked x) CallNow.Lock (sight seat.old) (sight seat.new) result }
        ensures bounded { MakesBesideFailures ((limits_of self.now).seats + 9) (sight seat.old) (sight seat.new) }
    {
        let (asked, wake_up) = self.ask_without_waking(seat);
        self.wake_seat(wake_up, &mut seat.off_trail);
        asked
    }

    /// `ask`, with the same answers and refusals, but it wakes no thread. It also returns the wake-up of the seat to which it
    /// granted the mutex, if any. The caller has to pass that to `wake`, or to wake that seat's thread by other means.
    #[inline(always)]
    pub fn ask_without_waking(&self, seat: &mut Seat<T>) -> (Result<Asked, Refusal>, Option<WakeUp>)
        requires belongs { OfMutex seat.old self.now }
        ensures belongs { Beside seat.old seat.new }
        ensures woken { WakesNobody seat.old seat.new }
        ensures run { RunGoesOnFrom seat.old seat.new }
        ensures asks { Asks T.follows T.fits (limits_of self.now).budget (sight seat.old) (sight seat.new) result.0 }
        ensures steps { MakesCall (limits_of self.now) (λ x. Answered.Asked x) CallNow.Lock (sight seat.old) (sight seat.new) result.0 }
        ensures bounded { MakesBesideFailures ((limits_of self.now).seats + 9) (sight seat.old) (sight seat.new) }
        ensures wakes { Wakes (limits_of self.now).seats result.1 (sight seat.old).trail (sight seat.new).trail }
    {
        if asleep(&seat.state) {
            return ask_slow(self, seat);
        }
        if seat.state.depth == 0 {
            let budget = seat.table_seat.limits.budget;
            if seat.state.takes < budget {
                let (asked, wake_up) = ask_without_hold(self, seat);
                return (Ok(asked), wake_up);
            }
            return ask_slow(self, seat);
        }
        if seat.state.depth < MAX_DEPTH {
            let (asked, wake_up) = ask_with_hold(self, seat);
            return (Ok(asked), wake_up);
        }
        ask_slow(self, seat)
    }

    /// Acquires the mutex, or deepens the hold: `ask`, and then `receive_lock` if that answered Asleep. Returns Held with how
    /// the seat acquired the mutex, or Again with the new depth. Queued seats are served in the order in which they queued.
    ///
    /// Refuses as `ask`: Asleep, DepthFull, Spent, in this order. It may sleep, may wake a seat as `ask` does, and allocates
    /// nothing.
    ///
    /// ```
    /// mutex.lock(&rt, &mut seat)?;
    /// mutex.unlock(&mut seat)?;
    /// ```
    #[inline(always)]
    pub fn lock<R: Wait>(&self, rt: &R, seat: &mut Seat<T>) -> Result<Locked, Refusal>
        requires belongs { OfMutex seat.old self.now }
        ensures belongs { Beside seat.old seat.new }
        ensures woken { PollsAndWakesAsGranted seat.old seat.new }
        ensures run { RunGoesOnFrom seat.old seat.new }
        ensures locks { LocksWaiting T.follows T.fits (limits_of self.now).budget (sight seat.old) (sight seat.new) result }
        ensures steps { LocksBy (limits_of self.now) (sight seat.old) (sight seat.new) result }
    {
        match self.ask(seat)? {
            Asked::Held(how) => Ok(Locked::Held(how)),
            Asked::Again(depth) => Ok(Locked::Again(depth)),
            Asked::Asleep => {
                let how = self.receive_lock(rt, seat)?;
                Ok(Locked::Held(how))
            }
        }
    }
}

/// Fast path of `ask`: the seat is awake, doesn't hold, and has a take left.
#[inline(always)]
pub fn ask_without_hold<T: Kept>(mutex: &Mutex<T>, seat: &mut Seat<T>) -> (Asked, Option<WakeUp>)
    requires belongs { OfMutex seat.old mutex.now }
    requires may { MayAcquire seat.old }
    ensures acts { ActsOwing (limits_of mutex.now).seats result.1 seat.old seat.new }
    ensures made { ComesTo T.follows T.fits (limits_of mutex.now) CallNow.Lock (sight seat.old) (sight seat.new) (Ended (Answered.Asked result.0)) }
    ensures bounded { MakesBesideFailures ((limits_of mutex.now).seats + 9) (sight seat.old) (sight seat.new) }
{
    let _budget = seat.table_seat.limits.budget;
    let table = &mutex.table;
    let takes = seat.state.takes + 1;
    let mut state = SeatState {
        depth: 0,
        takes,
        point: Point::LockCountAdd,
        ..seat.state
    };
    let found = gain::<CountAdd, T>(table, &mut seat.table_seat, &state);
    if found != 0 {
        seat.state.takes = takes;
        stop_at(&mut seat.state, Stop::LockLoadsOwner);
        return queue(mutex, seat);
    }
    // The plain writes are together, between two steps: see `steps` of `lfm_table`.
    seat.state.depth = 1;
    seat.state.takes = takes;
    state.point = Point::EnterOwnerStore(Entrant::Locker, How::Free);
    keep_held::<OwnerStore, T>(table, &mut seat.table_seat, &state);
    (Asked::Held(How::Free), None)
}

/// Fast path of `ask`: the seat is awake and holds, below the greatest depth.
#[inline(always)]
pub fn ask_with_hold<T: Kept>(mutex: &Mutex<T>, seat: &mut Seat<T>) -> (Asked, Option<WakeUp>)
    requires belongs { OfMutex seat.old mutex.now }
    requires may { MayDeepen seat.old }
    ensures acts { ActsOwing (limits_of mutex.now).seats result.1 seat.old seat.new }
    ensures made { ComesTo T.follows T.fits (limits_of mutex.now) CallNow.Lock (sight seat.old) (sight seat.new) (Ended (Answered.Asked result.0)) }
    ensures bounded { MakesBesideFailures ((limits_of mutex.now).seats + 9) (sight seat.old) (sight seat.new) }
{
    let table = &mutex.table;
    let number = seat.table_seat.number;
    let depth = seat.state.depth;
    let mut state = SeatState {
        point: Point::LockCountAdd,
        ..seat.state
    };
    let found = keep_held::<CountAdd, T>(table, &mut seat.table_seat, &state);
    if found == 0 {
        stop_at(&mut seat.state, Stop::LockEnters);
        return finish_ask(mutex, seat);
    }
    state.point = Point::LockOwnerLoad;
    let owner = keep_held::<OwnerLoad, T>(table, &mut seat.table_seat, &state);
    if owner != number {
        stop_at(&mut seat.state, Stop::LockPushes);
        return finish_ask(mutex, seat);
    }
    state.point = Point::LockCountSubtract;
    keep_held::<CountSubtract, T>(table, &mut seat.table_seat, &state);
    seat.state.depth = depth + 1;
    (Asked::Again(depth + 1), None)
}

/// Finishes an open `lock` that found others in the count, of a seat that doesn't hold: loads the owner, and pushes the seat's
/// record.
#[inline(never)]
fn queue<T: Kept>(mutex: &Mutex<T>, seat: &mut Seat<T>) -> (Asked, Option<WakeUp>)
    requires belongs { AtTableOf seat.old mutex.now }
    requires stands { seat.old.state.point ≡ LockOwnerLoad }
    requires flat { seat.old.state.depth ≡ 0 }
    ensures finishes { FinishesAs T.follows T.fits seat.old (Ended (Answered.Asked result.0)) result.1 seat.new }
    ensures spends { WithinDue seat.old seat.new }
{
    let table = &mutex.table;
    let mut state = SeatState {
        depth: 0,
        point: Point::LockOwnerLoad,
        ..seat.state
    };
    load_other_owner(table, &mut seat.table_seat, &state);
    state.point = Point::PushLoad(Pusher::Locker);
    match push(table, &mut seat.table_seat, &state, Pusher::Locker) {
        Pushed::Queued => {
            seat.state.point = Point::Asleep(Sleeper::Locker);
            (Asked::Asleep, None)
        }
        Pushed::Stopped(stop) => {
            stop_at_push(&mut seat.state, Pusher::Locker, stop);
            finish_ask(mutex, seat)
        }
    }
}

/// The slow path of an open `lock`, from the seat's point to the end of the call.
#[inline(always)]
fn finish_ask<T: Kept>(mutex: &Mutex<T>, seat: &mut Seat<T>) -> (Asked, Option<WakeUp>)
    requires belongs { AtTableOf seat.old mutex.now }
    requires locks { errand seat.old.state.point ≡ locking }
    ensures finishes { FinishesAs T.follows T.fits seat.old (Ended (Answered.Asked result.0)) result.1 seat.new }
    ensures spends { WithinDue seat.old seat.new }
{
    let (turn, wake_up) = finish(mutex, seat);
    match turn {
        Turn::Ended(Answer::Asked(asked)) => (asked, wake_up),
        _ => unreachable!(),
    }
}

/// The whole of `ask` by the slow path. Only a refused call is made in this way.
#[inline(always)]
fn ask_slow<T: Kept>(
    mutex: &Mutex<T>,
    seat: &mut Seat<T>,
) -> (Result<Asked, Refusal>, Option<WakeUp>)
    requires belongs { OfMutex seat.old mutex.now }
    ensures acts { ActsOwing (limits_of mutex.now).seats result.1 seat.old seat.new }
    ensures asks { Asks T.follows T.fits (limits_of mutex.now).budget (sight seat.old) (sight seat.new) result.0 }
    ensures steps { MakesCall (limits_of mutex.now) (λ x. Answered.Asked x) CallNow.Lock (sight seat.old) (sight seat.new) result.0 }
    ensures bounded { MakesBesideFailures ((limits_of mutex.now).seats + 9) (sight seat.old) (sight seat.new) }
{
    let (turn, wake_up) = begin_and_finish(mutex, seat, Call::Lock);
    match turn {
        Turn::Ended(Answer::Asked(asked)) => (Ok(asked), wake_up),
        Turn::Refused(Why::By(refusal)) => (Err(refusal), wake_up),
        Turn::Refused(_) => (Err(Refusal::Asleep), wake_up),
        _ => unreachable!(),
    }
}
