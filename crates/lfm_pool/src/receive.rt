//! `try_receive`, by which a seat that sleeps in a mutex finds out whether it was granted the mutex.
ghost use Rattle.std.specs.Prelude.{IfSome};
ghost use Rattle.lfm_pool.specs.Belongs.{SameSeat};
ghost use Rattle.lfm_pool.specs.Moves.{MakesAtMostIn, MayStepIn};
ghost use Rattle.lfm_pool.specs.Receive.{ReceivedIn};
ghost use Rattle.lfm_pool.specs.SeatWords.{Sleeps};
ghost use Rattle.lfm_pool.specs.Seats.{state_of, HoldsOnceIn};

use crate::layout::OWNER;
use crate::moves::go_on;
use crate::pool::{Pool, TableSeat};
use crate::seat_words::{wake_load, wake_store};
use lfm_model::How;
use lfm_protocol::how_granted;
use lfm_table::operations::Access;
use lfm_words::Wake;

/// Loads the wake word of a seat that sleeps in this mutex, once, and acquires the mutex if it finds a grant there. Returns
/// how the seat acquired the mutex, or None if no grant was there, and the seat sleeps on.
///
/// The seat has to sleep in this mutex, so that there is no refusal. It may hold other mutexes. Nothing changes in them, nor
/// in what the seat knows of them. The call makes at most 3 atomic steps. It allocates nothing, never waits and wakes no
/// thread.
#[inline(always)]
pub fn try_receive(pool: &Pool, seat: &mut TableSeat, mutex: usize) -> Option<How>
    requires may { MayStepIn seat.old pool.now mutex }
    requires sleeps { Sleeps (state_of seat.old mutex) }
    ensures belongs { SameSeat seat.old seat.new }
    ensures may { MayStepIn seat.new pool.now mutex }
    ensures receives { ReceivedIn seat.old seat.new mutex result }
    ensures holds { IfSome result (λ _. HoldsOnceIn seat.new pool.now mutex) }
    ensures bounded { MakesAtMostIn 3 seat.old seat.new mutex }
{
    let word = wake_load(pool, seat, mutex);
    if !Wake::is_grant_word(word) {
        return None;
    }
    wake_store(pool, seat, mutex);
    let number = seat.number;
    go_on(pool, seat, mutex, Access::Store(OWNER, number));
    Some(how_granted(Wake::grant_stamp(word)))
}
