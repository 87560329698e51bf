//! `try_lock_for`: tries until a time is over. It never queues, so it can end at any moment and leaves nothing behind.
ghost use Rattle.std.specs.Prelude.{◌≡◌, ℕ};
ghost use Rattle.lfm_mutex.specs.Belongs.{Beside, OfMutex, limits_of};
ghost use Rattle.lfm_mutex.specs.calls.Acts.{PollsWakingNobody};
ghost use Rattle.lfm_mutex.specs.calls.Barging.{GainsIf, MayTry, TriesBy};
ghost use Rattle.lfm_mutex.specs.calls.RunGoesOn.{RunGoesOnFrom};
ghost use Rattle.lfm_mutex.specs.calls.Sight.{sight};
ghost use Rattle.lfm_mutex.specs.calls.TimedTries.{LocksInTime};
ghost use Rattle.lfm_mutex.specs.calls.Woken.{PollsAndWakesAsGranted};

use crate::deadlines::{Deadline, deadline_after, time_left};
use crate::mutex::Mutex;
use crate::seat::Seat;
use lfm_model::{How, Locked, Refusal};
use lfm_table::Kept;
use lfm_table::layout::wake_at;
use lfm_table::parking::park_for;
use std::sync::Wait;
use std::time::{Clock, Duration};

/// How long the first nap should last, in microseconds. The system may add about 50.
const FIRST_NAP: u64 = 20;

/// How long a nap should last at most, in microseconds. Each nap is twice as long as the one before, up to this.
const LONGEST_NAP: u64 = 1000;

impl<T: Kept> Mutex<T> {
    /// Acquires the mutex, or deepens the hold, by tries for at most this time from now. It makes one try at once. If that is
    /// refused as Busy, it naps, reads the count and tries again if it reads 0, until the time is over. Each nap is twice as
    /// long as the one before, up to a millisecond. If the clock can't be read, the time is over at once.
    ///
    /// The seat is never queued, and so it has no place in the order. While other seats hold or are queued, the count is not 0,
    /// so under a load that never ends the time may pass without one successful try. A thread that has to be served in order
    /// uses `lock`, which has no limit.
    ///
    /// Refuses, in this order: Asleep, DepthFull and Spent as `lock`, and Busy if the time is over. An acquisition is charged
    /// one take, and a failed try none. It sleeps between two tries. It wakes no thread and allocates nothing.
    pub fn try_lock_for<R: Wait + Clock>(
        &self,
        rt: &R,
        seat: &mut Seat<T>,
        time: Duration,
    ) -> Result<Locked, Refusal>
        requires belongs { OfMutex seat.old self.now }
        ensures belongs { Beside seat.old seat.new }
        ensures woken { PollsAndWakesAsGranted seat.old seat.new }
        ensures run { RunGoesOnFrom seat.old seat.new }
        ensures locks { LocksInTime T.follows T.fits (limits_of self.now) (sight seat.old) (sight seat.new) result }
    {
        match self.try_lock(seat) {
            Err(Refusal::Busy) => {}
            ended => return ended,
        }
        match self.try_until(rt, seat, deadline_after(rt, time)) {
            Some(how) => Ok(Locked::Held(how)),
            None => Err(Refusal::Busy),
        }
    }

    /// Naps, and tries if the count is 0 then, until a try succeeds or the deadline has passed.
    fn try_until<R: Wait + Clock>(
        &self,
        rt: &R,
        seat: &mut Seat<T>,
        deadline: Deadline,
    ) -> Option<How>
        requires belongs { OfMutex seat.old self.now }
        requires free { MayTry (limits_of self.now).budget (sight seat.old) }
        ensures acts { PollsWakingNobody seat.old seat.new }
        ensures gains { GainsIf T.follows T.fits (limits_of self.now).budget (sight seat.old) (sight seat.new) result }
        ensures tries { (n : ℕ) × TriesBy (limits_of self.now) n (sight seat.old) (sight seat.new) result }
    {
        let wake = wake_at(seat.table_seat.limits.seats, seat.table_seat.number);
        let mut nap = FIRST_NAP;
        'tries: for _ in rt.forever() {
            let Some(left) = time_left(rt, deadline) else {
                return None;
            };
            park_for(rt, &self.table, wake, Duration::from_micros(nap).min(left));
            nap = nap.saturating_mul(2).min(LONGEST_NAP);
            let count = self.table.poll_count(&mut seat.off_trail);
            match self.try_if_free(seat, count) {
                Some(how) => return Some(how),
                None => {}
            }
        }
        unreachable!()
    }
}
