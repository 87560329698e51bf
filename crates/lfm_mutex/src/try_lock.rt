//! `try_lock`. Fast path: the mutex is free, the seat holds it, or other seats hold or want it and no handoff is posted.
//! Everything else is the slow path (`calls::finish`).
ghost use Rattle.std.specs.Prelude.{◌≡◌, ◌<◌};
ghost use Rattle.lfm_protocol.specs.declared.answers.Call.{Call as CallNow};
ghost use Rattle.lfm_mutex.specs.Belongs.{Beside, OfMutex, limits_of};
ghost use Rattle.lfm_mutex.specs.calls.RunGoesOn.{RunGoesOnFrom};
ghost use Rattle.lfm_mutex.specs.calls.Runs.{errand, trying, Ends};
ghost use Rattle.lfm_mutex.specs.calls.Sight.{sight, Locks};
ghost use Rattle.lfm_mutex.specs.calls.FastPath.{ComesTo, MayAcquire, MayDeepen, try_turn};
ghost use Rattle.lfm_protocol.specs.declared.answers.Answer.TheVariants as Answered;
ghost use Rattle.lfm_mutex.specs.calls.Trails.{MakesAtMost, MakesCall};
ghost use Rattle.lfm_mutex.specs.calls.Woken.{WokenAsGranted};
ghost use Rattle.lfm_mutex.specs.calls.OpenCalls.{AtTableOf, StepsLeadTo, KeepsSeat};
ghost use Rattle.lfm_mutex.specs.calls.Acts.{ActsWakingNobody};

use crate::calls::{asleep, begin_and_finish, finish};
use crate::mutex::Mutex;
use crate::seat::Seat;
use crate::stops::{Stop, stop_at, stop_at_post};
use lfm_model::{How, Locked, Refusal};
use lfm_protocol::points::{Entrant, Point};
use lfm_protocol::{Answer, Call, MAX_DEPTH, SeatState, Turn, Why};
use lfm_table::operations::{CountExchange, HandoffLoad, OwnerLoad, OwnerStore};
use lfm_table::table_steps::{gain, keep, keep_held, load_other_owner};
use lfm_table::{Kept, WakeUp};
use lfm_words::Handoff;

impl<T: Kept> Mutex<T> {
    /// Acquires the mutex or deepens the hold, without queueing. An acquisition is charged one take. If it finds a post, it
    /// tries to accept it.
    ///
    /// Refuses, in this order: Asleep, DepthFull and Spent as `ask`, and Busy: the count was not 0, this seat was not the
    /// owner, and nothing was posted or the post had gone when the call tried to accept it. Busy gives the charge back. It
    /// never waits and wakes no thread. Whatever other seats do, it makes at most 6 atomic steps. It corresponds to `trylock`
    /// of OSv's lfmutex.
    #[inline(always)]
    pub fn try_lock(&self, seat: &mut Seat<T>) -> Result<Locked, Refusal>
        requires belongs { OfMutex seat.old self.now }
        ensures belongs { Beside seat.old seat.new }
        ensures woken { WokenAsGranted seat.old seat.new }
        ensures run { RunGoesOnFrom seat.old seat.new }
        ensures locks { Locks T.follows T.fits (limits_of self.now).budget (sight seat.old) (sight seat.new) result }
        ensures steps { MakesCall (limits_of self.now) (λ x. Answered.Locked x) CallNow.TryLock (sight seat.old) (sight seat.new) result }
        ensures bounded { MakesAtMost 6 (sight seat.old) (sight seat.new) }
    {
        if asleep(&seat.state) {
            return try_slow(self, seat);
        }
        if seat.state.depth == 0 {
            let budget = seat.table_seat.limits.budget;
            if seat.state.takes < budget {
                return try_without_hold(self, seat);
            }
            return try_slow(self, seat);
        }
        if seat.state.depth < MAX_DEPTH {
            return try_with_hold(self, seat);
        }
        try_slow(self, seat)
    }
}

/// Fast path of `try_lock`: the seat is awake, doesn't hold, and has a take left.
#[inline(always)]
pub fn try_without_hold<T: Kept>(mutex: &Mutex<T>, seat: &mut Seat<T>) -> Result<Locked, Refusal>
    requires belongs { OfMutex seat.old mutex.now }
    requires may { MayAcquire seat.old }
    ensures acts { ActsWakingNobody seat.old seat.new }
    ensures made { ComesTo T.follows T.fits (limits_of mutex.now) CallNow.TryLock (sight seat.old) (sight seat.new) (try_turn result) }
{
    let _budget = seat.table_seat.limits.budget;
    let table = &mutex.table;
    let takes = seat.state.takes + 1;
    let mut state = SeatState {
        depth: 0,
        takes,
        point: Point::TryCountExchange,
        ..seat.state
    };
    let found = gain::<CountExchange, T>(table, &mut seat.table_seat, &state);
    if found == 0 {
        // The plain writes are together, between two steps: see `steps` of `lfm_table`.
        seat.state.depth = 1;
        seat.state.takes = takes;
        state.point = Point::EnterOwnerStore(Entrant::Trier, How::Free);
        keep_held::<OwnerStore, T>(table, &mut seat.table_seat, &state);
        return Ok(Locked::Held(How::Free));
    }
    state.point = Point::TryOwnerLoad;
    load_other_owner(table, &mut seat.table_seat, &state);
    state.point = Point::TryHandoffLoad;
    let handoff = keep::<HandoffLoad, T>(table, &mut seat.table_seat, &state);
    if Handoff::is_posted_in(handoff) {
        seat.state.takes = takes;
        stop_at_post(&mut seat.state, handoff);
        return finish_try(mutex, seat);
    }
    Err(Refusal::Busy)
}

/// Fast path of `try_lock`: the seat is awake and holds, below the greatest depth.
#[inline(always)]
pub fn try_with_hold<T: Kept>(mutex: &Mutex<T>, seat: &mut Seat<T>) -> Result<Locked, Refusal>
    requires belongs { OfMutex seat.old mutex.now }
    requires may { MayDeepen seat.old }
    ensures acts { ActsWakingNobody seat.old seat.new }
    ensures made { ComesTo T.follows T.fits (limits_of mutex.now) CallNow.TryLock (sight seat.old) (sight seat.new) (try_turn result) }
{
    let table = &mutex.table;
    let number = seat.table_seat.number;
    let depth = seat.state.depth;
    let mut state = SeatState {
        point: Point::TryCountExchange,
        ..seat.state
    };
    let found = keep_held::<CountExchange, T>(table, &mut seat.table_seat, &state);
    if found == 0 {
        stop_at(&mut seat.state, Stop::TryEnters);
        return finish_try(mutex, seat);
    }
    state.point = Point::TryOwnerLoad;
    let owner = keep_held::<OwnerLoad, T>(table, &mut seat.table_seat, &state);
    if owner != number {
        stop_at(&mut seat.state, Stop::TryLoadsHandoff);
        return finish_try(mutex, seat);
    }
    seat.state.depth = depth + 1;
    Ok(Locked::Again(depth + 1))
}

/// The slow path of an open `try_lock`, from the seat's point to the end of the call.
#[inline(always)]
fn finish_try<T: Kept>(mutex: &Mutex<T>, seat: &mut Seat<T>) -> Result<Locked, Refusal>
    requires belongs { AtTableOf seat.old mutex.now }
    requires tries { errand seat.old.state.point ≡ trying }
    ensures kept { KeepsSeat seat.old seat.new }
    ensures ends { Ends trying (try_turn result) }
    ensures made { StepsLeadTo T.follows T.fits seat.old (try_turn result) seat.new }
{
    let (turn, wake_up) = finish(mutex, seat);
    WakeUp::expect_none(wake_up);
    match turn {
        Turn::Ended(Answer::Locked(locked)) => Ok(locked),
        Turn::Refused(Why::By(refusal)) => Err(refusal),
        _ => unreachable!(),
    }
}

/// The whole of `try_lock` by the slow path. Only a call that is refused at its start is made in this way.
#[inline(always)]
fn try_slow<T: Kept>(mutex: &Mutex<T>, seat: &mut Seat<T>) -> Result<Locked, Refusal>
    requires belongs { OfMutex seat.old mutex.now }
    ensures acts { ActsWakingNobody seat.old seat.new }
    ensures locks { Locks T.follows T.fits (limits_of mutex.now).budget (sight seat.old) (sight seat.new) result }
    ensures steps { MakesCall (limits_of mutex.now) (λ x. Answered.Locked x) CallNow.TryLock (sight seat.old) (sight seat.new) result }
{
    let (turn, wake_up) = begin_and_finish(mutex, seat, Call::TryLock);
    WakeUp::expect_none(wake_up);
    match turn {
        Turn::Ended(Answer::Locked(locked)) => Ok(locked),
        Turn::Refused(Why::By(refusal)) => Err(refusal),
        Turn::Refused(_) => Err(Refusal::Asleep),
        _ => unreachable!(),
    }
}
