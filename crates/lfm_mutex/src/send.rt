//! `send_lock`: locks on behalf of a seat that waits, the target. Fast path: the target is granted a free mutex, or is queued
//! while no handoff is posted (`push`). Everything else is the slow path (`calls::finish`).
ghost use Rattle.std.specs.Prelude.{◌≡◌, ◌+◌, ◌<◌, ◌≤◌};
ghost use Rattle.lfm_protocol.specs.declared.answers.Answer.TheVariants as Answered;
ghost use Rattle.lfm_protocol.specs.declared.answers.Call.{Call as CallNow};
ghost use Rattle.lfm_protocol.specs.declared.points.Point.TheVariants.{Rest, PushLoad, SendCountAdd};
ghost use Rattle.lfm_protocol.specs.declared.points.Pusher.{Pusher as PusherNow};
ghost use Rattle.lfm_mutex.specs.Belongs.{Beside, OfMutex, limits_of};
ghost use Rattle.lfm_mutex.specs.calls.FailedPushes.{MakesBesideFailures};
ghost use Rattle.lfm_mutex.specs.calls.RunGoesOn.{RunGoesOnFrom};
ghost use Rattle.lfm_mutex.specs.calls.Runs.{errand, sending, Ends};
ghost use Rattle.lfm_mutex.specs.calls.FastPath.{ComesTo, send_turn};
ghost use Rattle.lfm_mutex.specs.calls.Trails.{MakesCall};
ghost use Rattle.lfm_mutex.specs.calls.WakeUps.{Wakes};
ghost use Rattle.lfm_mutex.specs.calls.Sight.{sight, Sends};
ghost use Rattle.lfm_mutex.specs.calls.Woken.{WakesNobody, WokenAsGranted};
ghost use Rattle.lfm_mutex.specs.calls.OpenCalls.{AtTableOf, WithinDue, FinishesAs};
ghost use Rattle.lfm_mutex.specs.calls.Acts.{ActsOwing};

use crate::calls::{asleep, begin_and_finish, finish};
use crate::mutex::Mutex;
use crate::push::{Pushed, push};
use crate::seat::Seat;
use crate::stops::stop_at_push;
use lfm_model::{Refusal, SeatNo};
use lfm_protocol::points::{Point, Pusher};
use lfm_protocol::{Answer, Call, SeatState, Turn, Why};
use lfm_table::operations::{CountAdd, WakeExchange};
use lfm_table::table_steps::{gain, keep, keep_held, store_grant};
use lfm_table::{Kept, WakeUp};
use lfm_words::Wake;

impl<T: Kept> Mutex<T> {
    /// Locks on behalf of the target, a seat that has waited since its `start_wait`: the target is granted the mutex if it is
    /// free, and is queued otherwise. In both cases it sleeps until its own receive finds the grant. The caller may hold the
    /// mutex or not, and is charged nothing.
    ///
    /// Refuses, in this order: Asleep, NoSuchSeat (the target is above the number of seats), NotWaiting (the target doesn't
    /// wait, or was already sent). It never waits, and wakes the seat to which it grants the mutex, if any. With N seats it
    /// makes at most N + 9 atomic steps, and two more for each exchange of the push word that fails because another seat has
    /// changed the word.
    pub fn send_lock(&self, seat: &mut Seat<T>, target: SeatNo) -> Result<(), Refusal>
        requires belongs { OfMutex seat.old self.now }
        ensures belongs { Beside seat.old seat.new }
        ensures woken { WokenAsGranted seat.old seat.new }
        ensures run { RunGoesOnFrom seat.old seat.new }
        ensures sends { Sends (limits_of self.now).seats (sight seat.old) target (sight seat.new) result }
        ensures steps { MakesCall (limits_of self.now) (λ x. Answered.Sent) (CallNow.SendLock target) (sight seat.old) (sight seat.new) result }
        ensures bounded { MakesBesideFailures ((limits_of self.now).seats + 9) (sight seat.old) (sight seat.new) }
    {
        let (sent, wake_up) = self.send_lock_without_waking(seat, target);
        self.wake_seat(wake_up, &mut seat.off_trail);
        sent
    }

    /// `send_lock`, with the same answers and refusals, but it wakes no thread. It also returns the wake-up of the seat to
    /// which it granted the mutex, if any. The caller has to pass that to `wake`, or to wake that seat's thread by other means.
    pub fn send_lock_without_waking(
        &self,
        seat: &mut Seat<T>,
        target: SeatNo,
    ) -> (Result<(), Refusal>, Option<WakeUp>)
        requires belongs { OfMutex seat.old self.now }
        ensures belongs { Beside seat.old seat.new }
        ensures woken { WakesNobody seat.old seat.new }
        ensures run { RunGoesOnFrom seat.old seat.new }
        ensures sends { Sends (limits_of self.now).seats (sight seat.old) target (sight seat.new) result.0 }
        ensures steps { MakesCall (limits_of self.now) (λ x. Answered.Sent) (CallNow.SendLock target) (sight seat.old) (sight seat.new) result.0 }
        ensures bounded { MakesBesideFailures ((limits_of self.now).seats + 9) (sight seat.old) (sight seat.new) }
        ensures wakes { Wakes (limits_of self.now).seats result.1 (sight seat.old).trail (sight seat.new).trail }
    {
        // These checks find a call that is refused at its start. The slow path repeats them, to return the right refusal.
        if asleep(&seat.state) {
            return send_slow(self, seat, target);
        }
        let number = target.get();
        if number <= seat.table_seat.limits.seats {
            return send_awake(self, seat, number);
        }
        send_slow(self, seat, target)
    }
}

/// Fast path of `send_lock`: the seat is awake, and the target is a seat of its mutex.
#[inline(always)]
pub fn send_awake<T: Kept>(
    mutex: &Mutex<T>,
    seat: &mut Seat<T>,
    target: u64,
) -> (Result<(), Refusal>, Option<WakeUp>)
    requires belongs { OfMutex seat.old mutex.now }
    requires rests { seat.old.state.point ≡ Rest }
    requires above { 0 < target }
    requires within { target ≤ seat.old.table_seat.limits.seats }
    ensures acts { ActsOwing (limits_of mutex.now).seats result.1 seat.old seat.new }
    ensures made { ComesTo T.follows T.fits (limits_of mutex.now) (CallNow.SendLock target) (sight seat.old) (sight seat.new) (send_turn result.0) }
    ensures bounded { MakesBesideFailures ((limits_of mutex.now).seats + 9) (sight seat.old) (sight seat.new) }
{
    let table = &mutex.table;
    let state = SeatState {
        point: Point::SendWakeExchange(target),
        ..seat.state
    };
    let found = keep::<WakeExchange, T>(table, &mut seat.table_seat, &state);
    let waiting = Wake::Waiting.to_word();
    if found != waiting {
        return (Err(Refusal::NotWaiting), None);
    }
    seat.state.point = Point::SendCountAdd(target);
    if seat.state.depth == 0 {
        return send_without_hold(mutex, seat, target);
    }
    send_with_hold(mutex, seat, target)
}

/// Finishes an open send that has claimed its target, for a seat that doesn't hold.
#[inline(always)]
fn send_without_hold<T: Kept>(
    mutex: &Mutex<T>,
    seat: &mut Seat<T>,
    target: u64,
) -> (Result<(), Refusal>, Option<WakeUp>)
    requires belongs { AtTableOf seat.old mutex.now }
    requires stands { seat.old.state.point ≡ SendCountAdd target }
    requires flat { seat.old.state.depth ≡ 0 }
    ensures finishes { FinishesAs T.follows T.fits seat.old (send_turn result.0) result.1 seat.new }
    ensures ends { Ends sending (send_turn result.0) }
    ensures spends { WithinDue seat.old seat.new }
{
    let table = &mutex.table;
    let mut state = SeatState {
        depth: 0,
        point: Point::SendCountAdd(target),
        ..seat.state
    };
    let found = gain::<CountAdd, T>(table, &mut seat.table_seat, &state);
    if found != 0 {
        seat.state.point = Point::PushLoad(Pusher::Sender(target));
        return queue_target(mutex, seat, target);
    }
    state.point = Point::SendWakeStore(target);
    let wake_up = store_grant(table, &mut seat.table_seat, &state);
    seat.state.point = Point::Rest;
    (Ok(()), wake_up)
}

/// The same for a seat that holds. The count is then at least 1 by the invariant, but not by this contract, so the slow path
/// handles a 0.
#[inline(always)]
fn send_with_hold<T: Kept>(
    mutex: &Mutex<T>,
    seat: &mut Seat<T>,
    target: u64,
) -> (Result<(), Refusal>, Option<WakeUp>)
    requires belongs { AtTableOf seat.old mutex.now }
    requires stands { seat.old.state.point ≡ SendCountAdd target }
    requires held { 0 < seat.old.state.depth }
    ensures finishes { FinishesAs T.follows T.fits seat.old (send_turn result.0) result.1 seat.new }
    ensures ends { Ends sending (send_turn result.0) }
    ensures spends { WithinDue seat.old seat.new }
{
    let table = &mutex.table;
    let state = SeatState {
        point: Point::SendCountAdd(target),
        ..seat.state
    };
    let found = keep_held::<CountAdd, T>(table, &mut seat.table_seat, &state);
    if found == 0 {
        seat.state.point = Point::SendWakeStore(target);
        return finish_send(mutex, seat);
    }
    seat.state.point = Point::PushLoad(Pusher::Sender(target));
    queue_target(mutex, seat, target)
}

/// Finishes an open send that found others in the count: it pushes the record of its target.
#[inline(never)]
fn queue_target<T: Kept>(
    mutex: &Mutex<T>,
    seat: &mut Seat<T>,
    target: u64,
) -> (Result<(), Refusal>, Option<WakeUp>)
    requires belongs { AtTableOf seat.old mutex.now }
    requires stands { seat.old.state.point ≡ PushLoad (PusherNow.Sender target) }
    ensures finishes { FinishesAs T.follows T.fits seat.old (send_turn result.0) result.1 seat.new }
    ensures ends { Ends sending (send_turn result.0) }
    ensures spends { WithinDue seat.old seat.new }
{
    let state = SeatState {
        point: Point::PushLoad(Pusher::Sender(target)),
        ..seat.state
    };
    match push(
        &mutex.table,
        &mut seat.table_seat,
        &state,
        Pusher::Sender(target),
    ) {
        Pushed::Queued => {
            seat.state.point = Point::Rest;
            (Ok(()), None)
        }
        Pushed::Stopped(stop) => {
            stop_at_push(&mut seat.state, Pusher::Sender(target), stop);
            finish_send(mutex, seat)
        }
    }
}

/// The slow path of an open `send_lock`, from the seat's point to the end of the call.
#[inline(always)]
fn finish_send<T: Kept>(
    mutex: &Mutex<T>,
    seat: &mut Seat<T>,
) -> (Result<(), Refusal>, Option<WakeUp>)
    requires belongs { AtTableOf seat.old mutex.now }
    requires sends { errand seat.old.state.point ≡ sending }
    ensures finishes { FinishesAs T.follows T.fits seat.old (send_turn result.0) result.1 seat.new }
    ensures ends { Ends sending (send_turn result.0) }
    ensures spends { WithinDue seat.old seat.new }
{
    let (turn, wake_up) = finish(mutex, seat);
    match turn {
        Turn::Ended(Answer::Sent) => (Ok(()), wake_up),
        Turn::Refused(Why::By(refusal)) => (Err(refusal), wake_up),
        _ => unreachable!(),
    }
}

/// The whole of `send_lock` by the slow path. Only a refused call is made in this way.
#[inline(always)]
fn send_slow<T: Kept>(
    mutex: &Mutex<T>,
    seat: &mut Seat<T>,
    target: SeatNo,
) -> (Result<(), Refusal>, Option<WakeUp>)
    requires belongs { OfMutex seat.old mutex.now }
    ensures acts { ActsOwing (limits_of mutex.now).seats result.1 seat.old seat.new }
    ensures sends { Sends (limits_of mutex.now).seats (sight seat.old) target (sight seat.new) result.0 }
    ensures steps { MakesCall (limits_of mutex.now) (λ x. Answered.Sent) (CallNow.SendLock target) (sight seat.old) (sight seat.new) result.0 }
    ensures bounded { MakesBesideFailures ((limits_of mutex.now).seats + 9) (sight seat.old) (sight seat.new) }
{
    let (turn, wake_up) = begin_and_finish(mutex, seat, Call::SendLock(target.get()));
    match turn {
        Turn::Ended(Answer::Sent) => (Ok(()), wake_up),
        Turn::Refused(Why::By(refusal)) => (Err(refusal), wake_up),
        Turn::Refused(_) => (Err(Refusal::Asleep), wake_up),
        _ => unreachable!(),
    }
}
