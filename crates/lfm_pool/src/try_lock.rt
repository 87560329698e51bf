//! `try_lock` of a seat that does not hold the mutex. If the mutex is free, the call has two steps (`enter_if_free`). Else
//! it loads the owner and the handoff word, and accepts a post that it finds there.
ghost use Rattle.std.specs.Prelude.{◌≡◌, ℕ, IfOk};
ghost use Rattle.lfm_protocol.specs.declared.points.Point.TheVariants.{TryOwnerLoad};
ghost use Rattle.lfm_pool.specs.Belongs.{IsMutex, OfPool, SameSeat};
ghost use Rattle.lfm_pool.specs.Moves.{MakesAtMostIn, MayStepIn};
ghost use Rattle.lfm_pool.specs.Seats.{state_of, HoldsOnceIn, MayTryIn, RestsInOthers};
ghost use Rattle.lfm_pool.specs.TryLock.{AcceptsWordIn, EndsTryIn, IsPostWord, TriesIn};

use crate::fast_paths::enter_if_free;
use crate::handoff::{handoff_exchange, handoff_load};
use crate::layout::{COUNT, OWNER};
use crate::moves::go_on;
use crate::pool::{Pool, TableSeat};
use lfm_model::{How, Locked, Refusal};
use lfm_table::operations::Access;
use lfm_words::Handoff;

/// Acquires this mutex without queueing, for a seat that does not hold it: if it is free, or if a release has posted it and
/// this call is the one that accepts the post. Returns how the seat acquired it, which is Free in both cases. It is charged
/// one take.
///
/// Refuses as Busy: the mutex was taken, and nothing was posted, or the post had gone when the call tried to accept it. Busy
/// gives the charge back. The seat has to rest in all mutexes, not to hold this one, and to have a take left here, so that
/// there is no other refusal. It may hold other mutexes. Nothing changes in them, nor in what the seat knows of them.
///
/// A seat that has accepted a post has the responsibility as an owner has it: this call collects and serves no record, and
/// the seat's `unlock` does. Whatever other seats do, the call makes at most 6 atomic steps. It allocates nothing, never
/// waits and wakes no thread.
#[inline(always)]
pub fn try_lock(pool: &Pool, seat: &mut TableSeat, mutex: usize) -> Result<Locked, Refusal>
    requires belongs { OfPool seat.old pool.now }
    requires mutex { IsMutex mutex pool.now }
    requires may { MayTryIn seat.old pool.now mutex }
    requires elsewhere { RestsInOthers seat.old mutex }
    ensures belongs { SameSeat seat.old seat.new }
    ensures may { MayStepIn seat.new pool.now mutex }
    ensures tries { TriesIn seat.old seat.new mutex result }
    ensures holds { IfOk result (λ _. HoldsOnceIn seat.new pool.now mutex) }
    ensures bounded { MakesAtMostIn 6 seat.old seat.new mutex }
{
    if enter_if_free(pool, seat, mutex) == 0 {
        return Ok(Locked::Held(How::Free));
    }
    try_taken(pool, seat, mutex)
}

/// Makes the rest of a `try_lock` that has found the mutex taken. The owner that it loads is another seat or none, since
/// this one does not hold the mutex. Refuses as `try_lock`.
fn try_taken(pool: &Pool, seat: &mut TableSeat, mutex: usize) -> Result<Locked, Refusal>
    requires may { MayStepIn seat.old pool.now mutex }
    requires at { (state_of seat.old mutex).point ≡ TryOwnerLoad }
    requires flat { (state_of seat.old mutex).depth ≡ 0 }
    ensures belongs { SameSeat seat.old seat.new }
    ensures may { MayStepIn seat.new pool.now mutex }
    ensures ends { EndsTryIn seat.old seat.new mutex result }
{
    go_on(pool, seat, mutex, Access::Load(OWNER));
    let post = handoff_load(pool, seat, mutex);
    if Handoff::is_posted_in(post) {
        return accept(pool, seat, mutex, post);
    }
    Err(Refusal::Busy)
}

/// Tries to accept the post in this handoff word, which the call has loaded: the exchange of the handoff word from it to 0.
/// If it succeeds, the call adds itself to the count and stores the owner. Refuses as Busy if the post had gone.
fn accept(pool: &Pool, seat: &mut TableSeat, mutex: usize, post: u64) -> Result<Locked, Refusal>
    requires may { MayStepIn seat.old pool.now mutex }
    requires at { (l : ℕ) × IsPostWord post seat.old mutex l }
    ensures belongs { SameSeat seat.old seat.new }
    ensures may { MayStepIn seat.new pool.now mutex }
    ensures accepts { AcceptsWordIn seat.old seat.new mutex post result }
{
    let found = handoff_exchange(pool, seat, mutex, post);
    if found != post {
        return Err(Refusal::Busy);
    }
    go_on(pool, seat, mutex, Access::FetchAdd(COUNT, 1));
    let number = seat.number;
    go_on(pool, seat, mutex, Access::Store(OWNER, number));
    Ok(Locked::Held(How::Free))
}
