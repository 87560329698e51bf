//! The whole of `ask`, a `lock` that queues and does not sleep, of a seat that does not hold the mutex: `begin_ask`, and
//! `finish_ask` if that has taken a post over.
ghost use Rattle.std.specs.Prelude.{◌+◌, length};
ghost use Rattle.lfm_pool.specs.Admissions.{IsAdmittedIn};
ghost use Rattle.lfm_pool.specs.Ask.{MakesBesideFailuresIn};
ghost use Rattle.lfm_pool.specs.AskAll.{AsksAllIn, IsReadyAsked};
ghost use Rattle.lfm_pool.specs.Belongs.{IsMutex, OfPool, SameSeat};
ghost use Rattle.lfm_pool.specs.Moves.{MayStepIn};
ghost use Rattle.lfm_pool.specs.Seats.{popped_of, MayTryIn, RestsInOthers};
ghost use Rattle.lfm_pool.specs.WakeUps.{WakesSeatOf};

use crate::ask::{Asking, begin_ask};
use crate::finish_ask::{Finished, finish_ask};
use crate::pool::{Pool, TableSeat};
use crate::wake_up::WakeUp;
use lfm_model::{Asked, How};

/// Asks for this mutex, for a seat that does not hold it: a `lock` without its sleep. If the mutex is free, the seat
/// acquires it. Else the seat queues: it pushes its record, loads the handoff word, and tries to take over a post that it
/// finds there. If it succeeds, it serves the oldest queued seat, which may be itself.
///
/// Returns Held and how the seat acquired the mutex: Free if it was free, or Queued with the stamp of its record if it
/// served itself. Returns Asleep if the record of the seat is in the queue, or was served already: the seat sleeps then
/// until a receive finds its grant. It also returns the wake-up of the seat to which it has granted the mutex, if any. The
/// call is charged one take.
///
/// The seat has to rest in all mutexes, not to hold this one, and to have a take and a stamp left here, so that there is no
/// refusal. It may hold other mutexes. Nothing changes in them, nor in what the seat knows of them. The call makes at most 10
/// atomic steps, one more for each record that is popped when it has ended, and two more for each exchange of the push word that
/// fails: each of those has found that another seat changed the word. It allocates nothing, never waits and wakes no thread.
#[inline(always)]
pub fn ask_without_waking(
    pool: &Pool,
    seat: &mut TableSeat,
    mutex: usize,
) -> (Asked, Option<WakeUp>)
    requires belongs { OfPool seat.old pool.now }
    requires mutex { IsMutex mutex pool.now }
    requires may { MayTryIn seat.old pool.now mutex }
    requires elsewhere { RestsInOthers seat.old mutex }
    requires admitted { IsAdmittedIn seat.old mutex }
    ensures belongs { SameSeat seat.old seat.new }
    ensures may { MayStepIn seat.new pool.now mutex }
    ensures asks { AsksAllIn result.0 result.1 seat.old seat.new pool.now mutex }
    ensures ready { IsReadyAsked result.0 seat.new pool.now mutex }
    ensures bounded { MakesBesideFailuresIn (10 + length (popped_of seat.new mutex)) seat.old seat.new mutex }
    ensures inside { WakesSeatOf result.1 pool.now }
{
    match begin_ask(pool, seat, mutex) {
        Asking::Held => (Asked::Held(How::Free), None),
        Asking::Asleep => (Asked::Asleep, None),
        Asking::Carries => match finish_ask(pool, seat, mutex) {
            Finished::Held(stamp) => (Asked::Held(How::Queued(stamp)), None),
            Finished::Granted(wake_up) => (Asked::Asleep, Some(wake_up)),
        },
    }
}
