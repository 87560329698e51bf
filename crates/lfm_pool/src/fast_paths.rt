//! The fast paths of `try_lock` and `unlock`: a mutex that is free, and a mutex that nobody else wants. Each is two steps.
ghost use Rattle.std.specs.Prelude.{◌≡◌, ◌≢◌};
ghost use Rattle.lfm_pool.specs.Belongs.{IsMutex, OfPool, SameSeat};
ghost use Rattle.lfm_pool.specs.Seats.{EntersIn, FindsTakenIn, HoldsOnceIn, RestsInOthers, LeavesIn, MayTryIn, ServesIn};

use crate::layout::{COUNT, OWNER};
use crate::pool::{Pool, TableSeat};
use crate::step::{first_step, next_step};
use lfm_table::operations::Access;
use std::marker::Brand;

/// Begins a `try_lock` of this mutex and makes its first step, the exchange of the count. If the mutex is free, it also
/// stores the owner, and the seat holds the mutex once. Returns the count that it found: 0 if the mutex was free. If it is
/// another number, the call is open, and its next step loads the owner.
///
/// The seat has to rest in all mutexes, not to hold this one, and to have a take left here. It may hold other mutexes.
/// Nothing changes in them, nor in what the seat knows of them. It allocates nothing and does not wait.
#[inline(always)]
pub fn enter_if_free(pool: &Pool, seat: &mut TableSeat, mutex: usize) -> u64
    requires belongs { OfPool seat.old pool.now }
    requires mutex { IsMutex mutex pool.now }
    requires may { MayTryIn seat.old pool.now mutex }
    requires elsewhere { RestsInOthers seat.old mutex }
    ensures belongs { SameSeat seat.old seat.new }
    ensures enters { result ≡ 0 → EntersIn seat.old seat.new pool.now mutex }
    ensures finds { result ≢ 0 → FindsTakenIn seat.old seat.new pool.now mutex result }
{
    let found = first_step::<Brand>(pool, seat, mutex, Access::CompareExchange(COUNT, 0, 1));
    if found != 0 {
        return found;
    }
    let number = seat.number;
    next_step(pool, seat, mutex, Access::Store(OWNER, number));
    0
}

/// Begins an `unlock` of this mutex and makes its first two steps: it stores that there is no owner, and subtracts itself
/// from the count. Returns the count that it found. If that is 1, no other seat wanted the mutex: it is free, the call has
/// ended, and the seat rests here without a hold. If it is another number, the call is open, and its next step grants the
/// oldest record of the pop list, or clears the head of the push word if there is none.
///
/// The seat has to rest in all mutexes, and to hold this one once. It may hold other mutexes. Nothing changes in them, nor
/// in what the seat knows of them. It allocates nothing and does not wait.
#[inline(always)]
pub fn leave(pool: &Pool, seat: &mut TableSeat, mutex: usize) -> u64
    requires belongs { OfPool seat.old pool.now }
    requires mutex { IsMutex mutex pool.now }
    requires holds { HoldsOnceIn seat.old pool.now mutex }
    requires elsewhere { RestsInOthers seat.old mutex }
    ensures belongs { SameSeat seat.old seat.new }
    ensures leaves { result ≡ 1 → LeavesIn seat.old seat.new pool.now mutex }
    ensures serves { result ≢ 1 → ServesIn seat.old seat.new pool.now mutex result }
{
    first_step::<Brand>(pool, seat, mutex, Access::Store(OWNER, 0));
    next_step(pool, seat, mutex, Access::FetchSub(COUNT, 1))
}
