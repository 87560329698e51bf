//! How a call that carries a mutex serves the oldest queued seat: whose record is popped, or else, in an `unlock`, is found
//! by collecting the push list.
ghost use Rattle.std.specs.Prelude.{◌≡◌, None, IfSome, true};
ghost use Rattle.lfm_pool.specs.Belongs.{IsMutex, OfPool, SameSeat};
ghost use Rattle.lfm_pool.specs.Chain.{first_seat, rested};
ghost use Rattle.lfm_pool.specs.Releasing.{FindsNoneIn, GrantsNextIn, IsServing, is_unlock};
ghost use Rattle.lfm_pool.specs.Seats.{note_of, popped_of, RestsInOthers, SitsIn};
ghost use Rattle.lfm_pool.specs.Serving.{GrantsIn, IsOldest, ServesOldest};
ghost use Rattle.lfm_pool.specs.WakeUps.{IsForSeatOf, WakesSeatOf};

use crate::chain::{carried_load, carried_store, chain_load};
use crate::collect::{clear_head, collect};
use crate::pool::{Pool, TableSeat};
use crate::wake_up::{WakeUp, grant};
use lfm_model::SeatNo;
use lfm_protocol::points::Carrier;
use lfm_words::{Record, unpack_link};

/// Takes the oldest popped record out of the chain, and stores a grant for its seat. Returns the wake-up of that seat.
/// `oldest` is the seat that the carried word names. It wakes no thread. It makes one step of the call, and loads a link and
/// stores the carried word before it.
///
/// The seat has to rest in all other mutexes. Nothing changes in them, nor in what the seat knows of them. It allocates
/// nothing and does not wait.
#[inline(always)]
pub fn serve_oldest(pool: &Pool, seat: &mut TableSeat, mutex: usize, oldest: u64) -> WakeUp
    requires belongs { OfPool seat.old pool.now }
    requires mutex { IsMutex mutex pool.now }
    requires sits { SitsIn seat.old pool.now mutex }
    requires elsewhere { RestsInOthers seat.old mutex }
    requires at { ServesOldest seat.old mutex }
    requires whole { note_of seat.old mutex ≡ rested (popped_of seat.old mutex) }
    requires oldest { oldest ≡ first_seat (popped_of seat.old mutex) }
    ensures belongs { SameSeat seat.old seat.new }
    ensures oldest { IsOldest result (popped_of seat.old mutex) }
    ensures grants { GrantsIn seat.old seat.new pool.now mutex result }
    ensures inside { IsForSeatOf result pool.now }
{
    let word = chain_load(pool, seat, mutex, oldest);
    let link = unpack_link(word);
    let stamp = link.stamp;
    let next = link.next;
    carried_store(pool, seat, mutex, next);
    let number = SeatNo::known(oldest);
    grant(
        pool,
        seat,
        mutex,
        Record {
            seat: number,
            stamp,
        },
    )
}

/// Serves the oldest queued seat for an `unlock` that has found others in the count, or has taken its post back: `carrier`
/// says which of the two. If records are popped, it grants the oldest. Else it collects the push list, and grants the oldest
/// record of that. Returns the wake-up of the seat that it granted the mutex: the call has ended. Returns None if the push list
/// was empty too: the seats that are counted have not pushed their records yet, and the next step of the call posts. A call
/// that has taken its post back finds a record.
///
/// The seat has to rest in all other mutexes. Nothing changes in them, nor in what the seat knows of them. It allocates
/// nothing and does not wait.
pub fn serve(pool: &Pool, seat: &mut TableSeat, mutex: usize, carrier: Carrier) -> Option<WakeUp>
    requires belongs { OfPool seat.old pool.now }
    requires mutex { IsMutex mutex pool.now }
    requires sits { SitsIn seat.old pool.now mutex }
    requires elsewhere { RestsInOthers seat.old mutex }
    requires unlocks { is_unlock carrier ≡ true }
    requires at { IsServing carrier seat.old mutex }
    requires whole { note_of seat.old mutex ≡ rested (popped_of seat.old mutex) }
    ensures belongs { SameSeat seat.old seat.new }
    ensures grants { IfSome result (λ r. GrantsNextIn carrier seat.old seat.new pool.now mutex r) }
    ensures none { result ≡ None → FindsNoneIn carrier seat.old seat.new pool.now mutex }
    ensures inside { WakesSeatOf result pool.now }
{
    let _carrier = carrier;
    let oldest = carried_load(pool, seat, mutex);
    if oldest != 0 {
        return Some(serve_oldest(pool, seat, mutex, oldest));
    }
    let word = clear_head(pool, seat, mutex);
    let cleared = unpack_link(word);
    let head = cleared.next;
    if head == 0 {
        return None;
    }
    let record = collect(pool, seat, mutex, head);
    let Record { seat: next, stamp } = record;
    Some(grant(pool, seat, mutex, Record { seat: next, stamp }))
}
