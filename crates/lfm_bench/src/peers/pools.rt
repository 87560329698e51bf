//! Our pool of mutexes, as a thread uses it. A pool guards no value.
ghost use Rattle.std.specs.Prelude.{◌≡◌, All, IfOk, IfSome, true};
ghost use Rattle.lfm_pool.specs.Belongs.{IsMutex};
ghost use Rattle.lfm_pool.specs.Calls.{IsBetweenCalls};
ghost use Rattle.lfm_bench.specs.PoolCalls.{Acquires, Deepens, Frees, IsRefused, Lessens};

use lfm_model::{Locked, Refusal, Unlocked};
use lfm_pool::calls;
use lfm_pool::lock::{lock, lock_barging};
use lfm_pool::pool::Pool;
use lfm_pool::seat::PoolSeat;
use std::alloc::{AllocError, Global};
use std::io;
use std::sync::Wait;

/// A pool of this number of mutexes, and its seats, of which there are this number. It allocates memory. An error if there is
/// none, or if a pool can't have these numbers.
pub fn new_pool(alloc: Global, mutexes: usize, seats: u64) -> io::Result<(Pool, Vec<PoolSeat>)>
    ensures mutexes { IfOk result (λ r. r.0.mutexes ≡ mutexes) }
    ensures between { IfOk result (λ r. All (λ s. IsBetweenCalls s r.0) r.1.items) }
{
    let Ok(opened) = Pool::new(alloc, mutexes, seats) else {
        return Err(AllocError.into());
    };
    Ok(opened)
}

/// `lock`. Returns whether the seat acquired the mutex and did not hold it before.
#[inline(always)]
pub fn acquire<R: Wait>(rt: &R, pool: &Pool, seat: &mut PoolSeat, mutex: usize) -> bool
    requires between { IsBetweenCalls seat.old pool.now }
    requires mutex { IsMutex mutex pool.now }
    ensures between { IsBetweenCalls seat.new pool.now }
    ensures acquired { result ≡ true → Acquires seat.old seat.new pool.now mutex }
{
    match lock(rt, pool, seat, mutex) {
        Ok(Locked::Held(_)) => true,
        _ => false,
    }
}

/// `lock_barging`. Returns whether the seat acquired the mutex and did not hold it before.
#[inline(always)]
pub fn acquire_barging<R: Wait>(rt: &R, pool: &Pool, seat: &mut PoolSeat, mutex: usize) -> bool
    requires between { IsBetweenCalls seat.old pool.now }
    requires mutex { IsMutex mutex pool.now }
    ensures { IsBetweenCalls seat.new pool.now }
{
    let locked = lock_barging(rt, pool, seat, mutex);
    matches!(locked, Ok(Locked::Held(_)))
}

/// `lock` of a seat that should hold already. Returns whether its hold was deepened.
#[inline(always)]
pub fn deepen<R: Wait>(rt: &R, pool: &Pool, seat: &mut PoolSeat, mutex: usize) -> bool
    requires between { IsBetweenCalls seat.old pool.now }
    requires mutex { IsMutex mutex pool.now }
    ensures between { IsBetweenCalls seat.new pool.now }
    ensures deepened { result ≡ true → Deepens seat.old seat.new pool.now mutex }
{
    match lock(rt, pool, seat, mutex) {
        Ok(Locked::Again(_)) => true,
        _ => false,
    }
}

/// `try_lock` while another seat should hold. Returns whether it was refused for that reason.
#[inline(always)]
pub fn miss(pool: &Pool, seat: &mut PoolSeat, mutex: usize) -> bool
    requires between { IsBetweenCalls seat.old pool.now }
    requires mutex { IsMutex mutex pool.now }
    ensures between { IsBetweenCalls seat.new pool.now }
    ensures refused { result ≡ true → IsRefused seat.old seat.new pool.now mutex }
{
    match calls::try_lock(pool, seat, mutex) {
        Err(Refusal::Busy) => true,
        _ => false,
    }
}

/// `unlock` of a seat that should hold once, while no other seat wants the mutex. Returns whether the mutex is free.
#[inline(always)]
pub fn free(pool: &Pool, seat: &mut PoolSeat, mutex: usize) -> bool
    requires between { IsBetweenCalls seat.old pool.now }
    requires mutex { IsMutex mutex pool.now }
    ensures between { IsBetweenCalls seat.new pool.now }
    ensures freed { result ≡ true → Frees seat.old seat.new pool.now mutex }
{
    match calls::unlock(pool, seat, mutex) {
        Ok(Unlocked::Free) => true,
        _ => false,
    }
}

/// `unlock` of a seat that should hold more than once. Returns whether it still holds.
#[inline(always)]
pub fn lessen(pool: &Pool, seat: &mut PoolSeat, mutex: usize) -> bool
    requires between { IsBetweenCalls seat.old pool.now }
    requires mutex { IsMutex mutex pool.now }
    ensures between { IsBetweenCalls seat.new pool.now }
    ensures lessened { result ≡ true → Lessens seat.old seat.new pool.now mutex }
{
    match calls::unlock(pool, seat, mutex) {
        Ok(Unlocked::Still(_)) => true,
        _ => false,
    }
}

/// `unlock`. Returns whether the seat held.
#[inline(always)]
pub fn release(pool: &Pool, seat: &mut PoolSeat, mutex: usize) -> bool
    requires between { IsBetweenCalls seat.old pool.now }
    requires mutex { IsMutex mutex pool.now }
    ensures { IsBetweenCalls seat.new pool.now }
{
    calls::unlock(pool, seat, mutex).is_ok()
}

/// The last of these seats, which are the pool's. None if there is none.
pub fn last_pool_seat(pool: &Pool, seats: &mut Vec<PoolSeat>) -> Option<PoolSeat>
    requires { All (λ s. IsBetweenCalls s pool.now) seats.old.items }
    ensures one { IfSome result (λ s. IsBetweenCalls s pool.now) }
    ensures rest { All (λ s. IsBetweenCalls s pool.now) seats.new.items }
{
    let _pool = pool;
    seats.pop()
}
