//! The calls of a seat that sleeps: `try_receive` checks whether the seat was granted the mutex, and `receive_lock` waits for
//! the grant. A seat holds nothing while it waits, and how often it polls before it sleeps is bounded.
ghost use Rattle.std.specs.Prelude.{◌≡◌, ◌<◌};
ghost use Rattle.lfm_protocol.specs.declared.answers.Answer.TheVariants as Answered;
ghost use Rattle.lfm_protocol.specs.declared.answers.Call.{Call as CallNow};
ghost use Rattle.lfm_protocol.specs.declared.answers.Turn.TheVariants.{Ended};
ghost use Rattle.lfm_protocol.specs.declared.points.Point.TheVariants.{Asleep};
ghost use Rattle.lfm_mutex.specs.Belongs.{Beside, OfMutex, limits_of};
ghost use Rattle.lfm_mutex.specs.calls.RunGoesOn.{RunGoesOnFrom};
ghost use Rattle.lfm_mutex.specs.calls.Sight.{sight, ReceivesLock, Receives};
ghost use Rattle.lfm_mutex.specs.calls.FastPath.{ComesTo};
ghost use Rattle.lfm_mutex.specs.calls.Trails.{ReceivesBy, MakesAtMost, MakesCall};
ghost use Rattle.lfm_mutex.specs.calls.Woken.{PollsAndWakesAsGranted, WakesNobody, WokenAsGranted};
ghost use Rattle.lfm_mutex.specs.calls.Acts.{ActsWakingNobody};

use crate::calls::begin_and_finish;
use crate::mutex::Mutex;
use crate::pace::pause;
use crate::seat::Seat;
use lfm_model::{How, Refusal};
use lfm_protocol::points::{Entrant, Point, Sleeper};
use lfm_protocol::{Answer, Call, SeatState, Turn, how_granted};
use lfm_table::layout::wake_at;
use lfm_table::operations::{OwnerStore, WakeStore};
use lfm_table::parking::park;
use lfm_table::table_steps::{gain_by_grant, keep, keep_held};
use lfm_table::{Kept, OffTrail, WakeUp};
use lfm_words::Wake;
use std::sync::Wait;

impl<T: Kept> Mutex<T> {
    /// Waits until the sleeping seat is granted the mutex, and returns how it acquired the mutex. It makes a receive, then
    /// polls as often as the pace of the mutex says, and then sleeps until it is woken.
    ///
    /// Refuses with NotWaiting if the seat doesn't sleep, or if a call of it is open.
    pub fn receive_lock<R: Wait>(&self, rt: &R, seat: &mut Seat<T>) -> Result<How, Refusal>
        requires belongs { OfMutex seat.old self.now }
        ensures belongs { Beside seat.old seat.new }
        ensures woken { PollsAndWakesAsGranted seat.old seat.new }
        ensures run { RunGoesOnFrom seat.old seat.new }
        ensures receives { ReceivesLock T.follows T.fits (sight seat.old) (sight seat.new) result }
        ensures steps { ReceivesBy (limits_of self.now) (sight seat.old) (sight seat.new) result }
    {
        let count = self.table.poll_count(&mut seat.off_trail);
        self.receive_lock_within(rt, seat, self.pace.polls_at(count))
    }

    /// `receive_lock` with this number of polls before it sleeps. With 0 it sleeps after its first receive, which suits a seat
    /// whose grant is not expected soon.
    #[inline(never)]
    pub fn receive_lock_within<R: Wait>(
        &self,
        rt: &R,
        seat: &mut Seat<T>,
        polls: u32,
    ) -> Result<How, Refusal>
        requires belongs { OfMutex seat.old self.now }
        ensures belongs { Beside seat.old seat.new }
        ensures woken { PollsAndWakesAsGranted seat.old seat.new }
        ensures run { RunGoesOnFrom seat.old seat.new }
        ensures receives { ReceivesLock T.follows T.fits (sight seat.old) (sight seat.new) result }
        ensures steps { ReceivesBy (limits_of self.now) (sight seat.old) (sight seat.new) result }
    {
        let wake = wake_at(seat.table_seat.limits.seats, seat.table_seat.number);
        let mut left = polls;
        for _ in rt.forever() {
            match self.try_receive(seat) {
                Ok(Some(how)) => return Ok(how),
                Err(refusal) => return Err(refusal),
                Ok(None) => {}
            }
            left = self.await_grant(rt, wake, left, &mut seat.off_trail);
        }
        unreachable!()
    }

    /// Waits for a grant in the wake word: polls at most `polls` times, and parks if no poll finds a grant. Returns how many
    /// polls are left. A poll is a load, but no step of the seat. The pauses between polls leave the cache line of the word to
    /// the seat that grants.
    fn await_grant<R: Wait>(&self, rt: &R, wake: usize, polls: u32, off_trail: &mut OffTrail) -> u32
        requires { wake < self.now.table.table_id.words }
        ensures { off_trail.new.woken ≡ off_trail.old.woken }
    {
        for made in 0..polls {
            pause();
            if Wake::is_grant_word(self.table.poll_wake(wake, off_trail)) {
                return polls - made - 1;
            }
        }
        park(rt, &self.table, wake);
        0
    }

    /// Loads the wake word of a seat that sleeps, once, and acquires the mutex if it finds a grant. Returns how the seat
    /// acquired the mutex, or None if the mutex was not granted to it, and it still sleeps.
    ///
    /// Refuses with NotWaiting if the seat doesn't sleep, or if a call of it is open. It never waits, and makes at most 3
    /// atomic steps.
    pub fn try_receive(&self, seat: &mut Seat<T>) -> Result<Option<How>, Refusal>
        requires belongs { OfMutex seat.old self.now }
        ensures belongs { Beside seat.old seat.new }
        ensures woken { WokenAsGranted seat.old seat.new }
        ensures run { RunGoesOnFrom seat.old seat.new }
        ensures receives { Receives T.follows T.fits (sight seat.old) (sight seat.new) result }
        ensures steps { MakesCall (limits_of self.now) (λ x. Answered.Got x) CallNow.Receive (sight seat.old) (sight seat.new) result }
        ensures bounded { MakesAtMost 3 (sight seat.old) (sight seat.new) }
    {
        if let Point::Asleep(sleeper) = seat.state.point {
            if seat.state.depth == 0 {
                return Ok(receive_asleep(self, seat, sleeper));
            }
        }
        let (turn, wake_up) = begin_and_finish(self, seat, Call::Receive);
        WakeUp::expect_none(wake_up);
        match turn {
            Turn::Ended(Answer::Got(got)) => Ok(got),
            Turn::Refused(_) => Err(Refusal::NotWaiting),
            _ => unreachable!(),
        }
    }
}

/// `try_receive` of a seat that sleeps.
#[inline(always)]
pub fn receive_asleep<T: Kept>(
    mutex: &Mutex<T>,
    seat: &mut Seat<T>,
    sleeper: Sleeper,
) -> Option<How>
    requires belongs { OfMutex seat.old mutex.now }
    requires sleeps { seat.old.state.point ≡ Asleep sleeper }
    requires flat { seat.old.state.depth ≡ 0 }
    ensures acts { ActsWakingNobody seat.old seat.new }
    ensures made { ComesTo T.follows T.fits (limits_of mutex.now) CallNow.Receive (sight seat.old) (sight seat.new) (Ended (Answered.Got result)) }
{
    let table = &mutex.table;
    let mut state = SeatState {
        depth: 0,
        point: Point::ReceiveWakeLoad(sleeper),
        ..seat.state
    };
    let found = gain_by_grant(table, &mut seat.table_seat, &state);
    if !Wake::is_grant_word(found) {
        return None;
    }
    let stamp = Wake::grant_stamp(found);
    state.point = Point::ReceiveWakeStore(stamp);
    keep::<WakeStore, T>(table, &mut seat.table_seat, &state);
    seat.state.depth = 1;
    seat.state.point = Point::Rest;
    let how = how_granted(stamp);
    state.point = Point::EnterOwnerStore(Entrant::Receiver, how);
    keep_held::<OwnerStore, T>(table, &mut seat.table_seat, &state);
    Some(how)
}
