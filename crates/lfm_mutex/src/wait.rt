//! `start_wait`: the seat gives up the mutex, and sleeps until another seat sends it. Its fast path is that of `unlock`, with
//! the store of the seat's own wake word at the end. Everything else is the slow path (`calls::finish`).
ghost use Rattle.std.specs.Prelude.{◌≡◌, ◌+◌, ◌<◌};
ghost use Rattle.lfm_protocol.specs.declared.answers.Answer.TheVariants as Answered;
ghost use Rattle.lfm_protocol.specs.declared.answers.Call.{Call as CallNow};
ghost use Rattle.lfm_protocol.specs.declared.answers.Turn.TheVariants.{Ended};
ghost use Rattle.lfm_protocol.specs.declared.points.Point.TheVariants.{Rest};
ghost use Rattle.lfm_mutex.specs.Belongs.{Beside, OfMutex, limits_of};
ghost use Rattle.lfm_mutex.specs.calls.RunGoesOn.{RunGoesOnFrom};
ghost use Rattle.lfm_mutex.specs.calls.FastPath.{ComesTo};
ghost use Rattle.lfm_mutex.specs.calls.Trails.{MakesCall, MakesAtMost};
ghost use Rattle.lfm_mutex.specs.calls.WakeUps.{Wakes};
ghost use Rattle.lfm_mutex.specs.calls.Sight.{sight, MayLeave, MayRelease, StartsWait};
ghost use Rattle.lfm_mutex.specs.calls.Woken.{WakesNobody, WokenAsGranted};
ghost use Rattle.lfm_mutex.specs.calls.Acts.{ActsOwing};

use crate::calls::{asleep, begin_and_release};
use crate::mutex::Mutex;
use crate::seat::Seat;
use crate::serve::{serve, stop_at_serving};
use lfm_model::{Refusal, Unlocked};
use lfm_protocol::points::{Point, Releaser, Sleeper};
use lfm_protocol::{Answer, Call, SeatState, Turn, Why};
use lfm_table::operations::{OwnerStore, WakeStore};
use lfm_table::table_steps::{keep, keep_held, retake};
use lfm_table::{Kept, WakeUp};

impl<T: Kept> Mutex<T> {
    /// Gives up the mutex as `unlock` does, and puts the seat to sleep until another seat sends it. It charges the take by
    /// which the seat acquires the mutex again. It never answers Still.
    ///
    /// Refuses, in this order: Asleep, NotOwner, Nested (the seat holds above depth 1), Spent (it has no take left). It never
    /// waits: a receive does. It wakes the seat to which it grants the mutex, if any. Whatever other seats do, it makes at most
    /// N + 8 atomic steps, N being the number of seats. It corresponds to the first half of `wait` of OSv's condition variable.
    pub fn start_wait(&self, seat: &mut Seat<T>) -> Result<Unlocked, Refusal>
        requires belongs { OfMutex seat.old self.now }
        requires leaves { MayRelease T.follows T.fits (sight seat.old) }
        ensures belongs { Beside seat.old seat.new }
        ensures woken { WokenAsGranted seat.old seat.new }
        ensures run { RunGoesOnFrom seat.old seat.new }
        ensures waits { StartsWait (limits_of self.now).budget (sight seat.old) (sight seat.new) result }
        ensures steps { MakesCall (limits_of self.now) (λ x. Answered.Waiting x) CallNow.StartWait (sight seat.old) (sight seat.new) result }
        ensures bounded { MakesAtMost ((limits_of self.now).seats + 8) (sight seat.old) (sight seat.new) }
    {
        let (released, wake_up) = self.start_wait_without_waking(seat);
        self.wake_seat(wake_up, &mut seat.off_trail);
        released
    }

    /// `start_wait`, with the same answers and refusals, but it wakes no thread. It also returns the wake-up of the seat to
    /// which it granted the mutex, if any. The caller has to pass that to `wake`, or to wake that seat's thread by other means.
    pub fn start_wait_without_waking(
        &self,
        seat: &mut Seat<T>,
    ) -> (Result<Unlocked, Refusal>, Option<WakeUp>)
        requires belongs { OfMutex seat.old self.now }
        requires leaves { MayRelease T.follows T.fits (sight seat.old) }
        ensures belongs { Beside seat.old seat.new }
        ensures woken { WakesNobody seat.old seat.new }
        ensures run { RunGoesOnFrom seat.old seat.new }
        ensures waits { StartsWait (limits_of self.now).budget (sight seat.old) (sight seat.new) result.0 }
        ensures steps { MakesCall (limits_of self.now) (λ x. Answered.Waiting x) CallNow.StartWait (sight seat.old) (sight seat.new) result.0 }
        ensures bounded { MakesAtMost ((limits_of self.now).seats + 8) (sight seat.old) (sight seat.new) }
        ensures wakes { Wakes (limits_of self.now).seats result.1 (sight seat.old).trail (sight seat.new).trail }
    {
        // These checks find a call that is refused at its start. The slow path repeats them, to return the right refusal.
        if asleep(&seat.state) {
            return wait_slow(self, seat);
        }
        if seat.state.depth == 1 {
            let budget = seat.table_seat.limits.budget;
            if seat.state.takes < budget {
                let (released, wake_up) = wait_last_hold(self, seat);
                return (Ok(released), wake_up);
            }
        }
        wait_slow(self, seat)
    }
}

/// Fast path of `start_wait`: the seat is awake, holds once, and has a take left.
#[inline(always)]
pub fn wait_last_hold<T: Kept>(mutex: &Mutex<T>, seat: &mut Seat<T>) -> (Unlocked, Option<WakeUp>)
    requires belongs { OfMutex seat.old mutex.now }
    requires rests { seat.old.state.point ≡ Rest }
    requires one { seat.old.state.depth ≡ 1 }
    requires charged { seat.old.state.takes < seat.old.table_seat.limits.budget }
    requires leaves { MayLeave T.follows T.fits (sight seat.old) }
    ensures acts { ActsOwing (limits_of mutex.now).seats result.1 seat.old seat.new }
    ensures made { ComesTo T.follows T.fits (limits_of mutex.now) CallNow.StartWait (sight seat.old) (sight seat.new) (Ended (Answered.Waiting result.0)) }
    ensures bounded { MakesAtMost ((limits_of mutex.now).seats + 8) (sight seat.old) (sight seat.new) }
{
    let _budget = seat.table_seat.limits.budget;
    let table = &mutex.table;
    let takes = seat.state.takes + 1;
    let mut state = SeatState {
        depth: 1,
        takes,
        point: Point::ReleaseOwnerStore(Releaser::Waiter),
        ..seat.state
    };
    keep_held::<OwnerStore, T>(table, &mut seat.table_seat, &state);
    // The plain writes are together, between two steps: see `steps` of `lfm_table`.
    seat.state.depth = 0;
    seat.state.takes = takes;
    state.depth = 0;
    state.point = Point::ReleaseCountSubtract(Releaser::Waiter);
    let found = retake(table, &mut seat.table_seat, &state);
    if found != 1 {
        stop_at_serving(&mut seat.state, &seat.table_seat.moving, Releaser::Waiter);
        return serve(mutex, seat, Releaser::Waiter);
    }
    state.point = Point::WaitWakeStore(Unlocked::Free);
    keep::<WakeStore, T>(table, &mut seat.table_seat, &state);
    seat.state.point = Point::Asleep(Sleeper::Waiter);
    (Unlocked::Free, None)
}

/// The whole of `start_wait` by the slow path. Only a refused call is made in this way.
#[inline(always)]
fn wait_slow<T: Kept>(
    mutex: &Mutex<T>,
    seat: &mut Seat<T>,
) -> (Result<Unlocked, Refusal>, Option<WakeUp>)
    requires belongs { OfMutex seat.old mutex.now }
    requires leaves { MayRelease T.follows T.fits (sight seat.old) }
    ensures acts { ActsOwing (limits_of mutex.now).seats result.1 seat.old seat.new }
    ensures waits { StartsWait (limits_of mutex.now).budget (sight seat.old) (sight seat.new) result.0 }
    ensures steps { MakesCall (limits_of mutex.now) (λ x. Answered.Waiting x) CallNow.StartWait (sight seat.old) (sight seat.new) result.0 }
    ensures bounded { MakesAtMost ((limits_of mutex.now).seats + 8) (sight seat.old) (sight seat.new) }
{
    let (turn, wake_up) = begin_and_release(mutex, seat, Call::StartWait);
    match turn {
        Turn::Ended(Answer::Waiting(released)) => (Ok(released), wake_up),
        Turn::Refused(Why::By(refusal)) => (Err(refusal), wake_up),
        Turn::Refused(_) => (Err(Refusal::Asleep), wake_up),
        _ => unreachable!(),
    }
}
