//! `unlock`. Fast path: the seat holds more than once, no seat waits, or the oldest queued seat is served (`serve`). It writes
//! only the fields of the seat that change. Everything else is the slow path (`calls::finish`).
ghost use Rattle.std.specs.Prelude.{◌≡◌, ◌+◌, ◌<◌};
ghost use Rattle.lfm_protocol.specs.declared.answers.Answer.TheVariants as Answered;
ghost use Rattle.lfm_protocol.specs.declared.answers.Call.{Call as CallNow};
ghost use Rattle.lfm_protocol.specs.declared.answers.Turn.TheVariants.{Ended};
ghost use Rattle.lfm_protocol.specs.declared.points.Point.TheVariants.{Rest};
ghost use Rattle.lfm_mutex.specs.Belongs.{Beside, OfMutex, limits_of};
ghost use Rattle.lfm_mutex.specs.calls.RunGoesOn.{RunGoesOnFrom};
ghost use Rattle.lfm_mutex.specs.calls.Sight.{sight, MayLeave, MayRelease, Unlocks};
ghost use Rattle.lfm_mutex.specs.calls.FastPath.{ComesTo};
ghost use Rattle.lfm_mutex.specs.calls.Trails.{MakesAtMost, MakesCall};
ghost use Rattle.lfm_mutex.specs.calls.WakeUps.{Wakes};
ghost use Rattle.lfm_mutex.specs.calls.Woken.{WakesNobody, WokenAsGranted};
ghost use Rattle.lfm_mutex.specs.calls.Acts.{ActsOwing, ActsWakingNobody};

use crate::calls::{asleep, begin_and_release};
use crate::mutex::Mutex;
use crate::seat::Seat;
use crate::serve::{serve, stop_at_serving};
use lfm_model::{Refusal, Unlocked};
use lfm_protocol::points::{Point, Releaser};
use lfm_protocol::{Answer, Call, SeatState, Turn, Why};
use lfm_table::operations::OwnerStore;
use lfm_table::table_steps::{keep_held, retake};
use lfm_table::{Kept, WakeUp};

impl<T: Kept> Mutex<T> {
    /// Gives up one hold. At depth 1 it gives up the mutex: it grants the mutex to the oldest queued seat, posts it for a
    /// locker that is not queued yet, or leaves it free. At depth 1 the value that the seat leaves has to follow the one that
    /// it found.
    ///
    /// Refuses, in this order: Asleep, NotOwner (the seat doesn't hold). It never waits, and wakes the seat to which it grants
    /// the mutex, if any. Whatever other seats do, it makes at most N + 7 atomic steps, N being the number of seats. It
    /// corresponds to `unlock` of LFthreads' mutex and of OSv's lfmutex.
    #[inline(always)]
    pub fn unlock(&self, seat: &mut Seat<T>) -> Result<Unlocked, Refusal>
        requires belongs { OfMutex seat.old self.now }
        requires leaves { MayRelease T.follows T.fits (sight seat.old) }
        ensures belongs { Beside seat.old seat.new }
        ensures woken { WokenAsGranted seat.old seat.new }
        ensures run { RunGoesOnFrom seat.old seat.new }
        ensures unlocks { Unlocks (sight seat.old) (sight seat.new) result }
        ensures steps { MakesCall (limits_of self.now) (λ x. Answered.Unlocked x) CallNow.Unlock (sight seat.old) (sight seat.new) result }
        ensures bounded { MakesAtMost ((limits_of self.now).seats + 7) (sight seat.old) (sight seat.new) }
    {
        let (unlocked, wake_up) = self.unlock_without_waking(seat);
        self.wake_seat(wake_up, &mut seat.off_trail);
        unlocked
    }

    /// `unlock`, with the same answers and refusals, but it wakes no thread. It also returns the wake-up of the seat to which
    /// it granted the mutex, if any. The caller has to pass that to `wake`, or to wake that seat's thread by other means.
    #[inline(always)]
    pub fn unlock_without_waking(
        &self,
        seat: &mut Seat<T>,
    ) -> (Result<Unlocked, Refusal>, Option<WakeUp>)
        requires belongs { OfMutex seat.old self.now }
        requires leaves { MayRelease T.follows T.fits (sight seat.old) }
        ensures belongs { Beside seat.old seat.new }
        ensures woken { WakesNobody seat.old seat.new }
        ensures run { RunGoesOnFrom seat.old seat.new }
        ensures unlocks { Unlocks (sight seat.old) (sight seat.new) result.0 }
        ensures steps { MakesCall (limits_of self.now) (λ x. Answered.Unlocked x) CallNow.Unlock (sight seat.old) (sight seat.new) result.0 }
        ensures bounded { MakesAtMost ((limits_of self.now).seats + 7) (sight seat.old) (sight seat.new) }
        ensures wakes { Wakes (limits_of self.now).seats result.1 (sight seat.old).trail (sight seat.new).trail }
    {
        if asleep(&seat.state) {
            return unlock_slow(self, seat);
        }
        if seat.state.depth == 1 {
            let (unlocked, wake_up) = unlock_last_hold(self, seat);
            return (Ok(unlocked), wake_up);
        }
        if seat.state.depth > 1 {
            return (Ok(unlock_inner_hold(self, seat)), None);
        }
        unlock_slow(self, seat)
    }
}

/// Fast path of `unlock`: the seat is awake and holds once.
#[inline(always)]
pub fn unlock_last_hold<T: Kept>(mutex: &Mutex<T>, seat: &mut Seat<T>) -> (Unlocked, Option<WakeUp>)
    requires belongs { OfMutex seat.old mutex.now }
    requires rests { seat.old.state.point ≡ Rest }
    requires one { seat.old.state.depth ≡ 1 }
    requires leaves { MayLeave T.follows T.fits (sight seat.old) }
    ensures acts { ActsOwing (limits_of mutex.now).seats result.1 seat.old seat.new }
    ensures made { ComesTo T.follows T.fits (limits_of mutex.now) CallNow.Unlock (sight seat.old) (sight seat.new) (Ended (Answered.Unlocked result.0)) }
    ensures bounded { MakesAtMost ((limits_of mutex.now).seats + 7) (sight seat.old) (sight seat.new) }
{
    let table = &mutex.table;
    let mut state = SeatState {
        depth: 1,
        point: Point::ReleaseOwnerStore(Releaser::Unlocker),
        ..seat.state
    };
    keep_held::<OwnerStore, T>(table, &mut seat.table_seat, &state);
    // The plain writes are together, between two steps: see `steps` of `lfm_table`.
    seat.state.depth = 0;
    state.depth = 0;
    state.point = Point::ReleaseCountSubtract(Releaser::Unlocker);
    let found = retake(table, &mut seat.table_seat, &state);
    if found != 1 {
        stop_at_serving(&mut seat.state, &seat.table_seat.moving, Releaser::Unlocker);
        return serve(mutex, seat, Releaser::Unlocker);
    }
    (Unlocked::Free, None)
}

/// Fast path of `unlock`: the seat is awake and holds more than once.
#[inline(always)]
pub fn unlock_inner_hold<T: Kept>(mutex: &Mutex<T>, seat: &mut Seat<T>) -> Unlocked
    requires belongs { OfMutex seat.old mutex.now }
    requires rests { seat.old.state.point ≡ Rest }
    requires deep { 1 < seat.old.state.depth }
    ensures acts { ActsWakingNobody seat.old seat.new }
    ensures made { ComesTo T.follows T.fits (limits_of mutex.now) CallNow.Unlock (sight seat.old) (sight seat.new) (Ended (Answered.Unlocked result)) }
    ensures bounded { MakesAtMost ((limits_of mutex.now).seats + 7) (sight seat.old) (sight seat.new) }
{
    let _mutex = mutex;
    seat.state.depth -= 1;
    Unlocked::Still(seat.state.depth)
}

/// The whole of `unlock` by the slow path. Only a refused call is made in this way.
#[inline(always)]
fn unlock_slow<T: Kept>(
    mutex: &Mutex<T>,
    seat: &mut Seat<T>,
) -> (Result<Unlocked, Refusal>, Option<WakeUp>)
    requires belongs { OfMutex seat.old mutex.now }
    requires leaves { MayRelease T.follows T.fits (sight seat.old) }
    ensures acts { ActsOwing (limits_of mutex.now).seats result.1 seat.old seat.new }
    ensures unlocks { Unlocks (sight seat.old) (sight seat.new) result.0 }
    ensures steps { MakesCall (limits_of mutex.now) (λ x. Answered.Unlocked x) CallNow.Unlock (sight seat.old) (sight seat.new) result.0 }
    ensures bounded { MakesAtMost ((limits_of mutex.now).seats + 7) (sight seat.old) (sight seat.new) }
{
    let (turn, wake_up) = begin_and_release(mutex, seat, Call::Unlock);
    match turn {
        Turn::Ended(Answer::Unlocked(unlocked)) => (Ok(unlocked), wake_up),
        Turn::Refused(Why::By(refusal)) => (Err(refusal), wake_up),
        Turn::Refused(_) => (Err(Refusal::Asleep), wake_up),
        _ => unreachable!(),
    }
}
