//! The end of an `ask` that has taken a post over: it serves the oldest queued seat. That seat may be its own, which then
//! holds the mutex; else it sleeps.
ghost use Rattle.std.specs.Prelude.{◌≡◌, ◌+◌, [], length};
ghost use Rattle.lfm_pool.specs.Belongs.{SameSeat};
ghost use Rattle.lfm_pool.specs.Chain.{rested};
ghost use Rattle.lfm_pool.specs.declared.finish_ask.Finished.{Finished as FinishedNow};
ghost use Rattle.lfm_pool.specs.FinishAsk.{ClearsForLock, EntersByOwn, FinishesIn, IsReadyFinished, TakesOldest};
ghost use Rattle.lfm_pool.specs.Moves.{MakesAtMostIn, MayStepIn};
ghost use Rattle.lfm_pool.specs.Seats.{note_of, popped_of, state_of};
ghost use Rattle.lfm_pool.specs.WakeUps.{WakesSeatOf, granted_by_finish};

use crate::chain::{carried_load, carried_store, chain_load};
use crate::collect::{clear_head, collect};
use crate::layout::OWNER;
use crate::pool::{Pool, TableSeat};
use crate::serve::serve_oldest;
use crate::step::next_step;
use crate::wake_up::{WakeUp, grant};
use lfm_table::operations::Access;
use lfm_words::{Record, unpack_link};

/// How a `lock` that has taken a post over has ended.
pub enum Finished {
    /// The oldest record was its own, and had this stamp. The seat holds the mutex once.
    Held(u64),
    /// The mutex is granted to the seat of the oldest record, whose wake-up this is. This seat sleeps until a receive finds its
    /// grant.
    Granted(WakeUp),
}

/// Ends a `lock` of this mutex that has taken a post over: `begin_ask` has returned Carries. If no record is popped, the
/// call collects the push list. Then it serves the oldest record: it acquires the mutex if the record is its own, and else
/// grants the mutex to the seat of the record. Returns which of the two. It wakes no thread.
///
/// The call has to be open there, so that there is no refusal. The seat may hold other mutexes. Nothing changes in them, nor
/// in what the seat knows of them. The call makes at most 3 atomic steps, and one more for each record that is popped when
/// it has ended. It allocates nothing and never waits.
pub fn finish_ask(pool: &Pool, seat: &mut TableSeat, mutex: usize) -> Finished
    requires may { MayStepIn seat.old pool.now mutex }
    requires takes { TakesOldest seat.old mutex }
    requires whole { note_of seat.old mutex ≡ rested (popped_of seat.old mutex) }
    ensures belongs { SameSeat seat.old seat.new }
    ensures may { MayStepIn seat.new pool.now mutex }
    ensures finishes { FinishesIn result seat.old seat.new pool.now mutex }
    ensures ready { IsReadyFinished result seat.new pool.now mutex }
    ensures bounded { MakesAtMostIn (3 + length (popped_of seat.new mutex)) seat.old seat.new mutex }
    ensures inside { WakesSeatOf (granted_by_finish result) pool.now }
{
    let oldest = carried_load(pool, seat, mutex);
    if oldest == 0 {
        return serve_pushed(pool, seat, mutex);
    }
    let number = seat.number;
    if oldest == number {
        let stamp = enter_popped(pool, seat, mutex);
        return Finished::Held(stamp);
    }
    Finished::Granted(serve_oldest(pool, seat, mutex, oldest))
}

/// Acquires the mutex for the seat, whose record is the oldest popped one: takes the record out of the chain, and stores the
/// number of the seat as the owner. Returns the stamp of the record.
fn enter_popped(pool: &Pool, seat: &mut TableSeat, mutex: usize) -> u64
    requires may { MayStepIn seat.old pool.now mutex }
    requires own { EntersByOwn seat.old mutex }
    requires whole { note_of seat.old mutex ≡ rested (popped_of seat.old mutex) }
    ensures belongs { SameSeat seat.old seat.new }
    ensures finishes { FinishesIn (FinishedNow.Held result) seat.old seat.new pool.now mutex }
{
    let number = seat.number;
    let word = chain_load(pool, seat, mutex, number);
    let link = unpack_link(word);
    carried_store(pool, seat, mutex, link.next);
    next_step(pool, seat, mutex, Access::Store(OWNER, number));
    link.stamp
}

/// Collects the push list, and serves its oldest record as `finish_ask`.
fn serve_pushed(pool: &Pool, seat: &mut TableSeat, mutex: usize) -> Finished
    requires may { MayStepIn seat.old pool.now mutex }
    requires clears { ClearsForLock (state_of seat.old mutex) }
    requires none { popped_of seat.old mutex ≡ [] }
    requires whole { note_of seat.old mutex ≡ rested (popped_of seat.old mutex) }
    ensures belongs { SameSeat seat.old seat.new }
    ensures finishes { FinishesIn result seat.old seat.new pool.now mutex }
    ensures inside { WakesSeatOf (granted_by_finish result) pool.now }
{
    let word = clear_head(pool, seat, mutex);
    let cleared = unpack_link(word);
    let head = cleared.next;
    let record = collect(pool, seat, mutex, head);
    let Record { seat: next, stamp } = record;
    let own = next.get();
    let number = seat.number;
    if own == number {
        next_step(pool, seat, mutex, Access::Store(OWNER, number));
        return Finished::Held(stamp);
    }
    Finished::Granted(grant(pool, seat, mutex, Record { seat: next, stamp }))
}
