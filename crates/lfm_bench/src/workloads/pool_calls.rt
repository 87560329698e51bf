//! The calls of one thread at the mutexes of a pool. A number of calls in a row is made and timed, one after another at the
//! mutexes of a route.
ghost use Rattle.std.specs.Prelude.{◌≡◌, ◌<◌, ◌≤◌, ℕ, IfOk, true};
ghost use Rattle.lfm_pool.specs.Belongs.{IsMutex};
ghost use Rattle.lfm_pool.specs.Calls.{IsBetweenCalls};
ghost use Rattle.lfm_pool.specs.declared.pool.Pool.{Pool as PoolNow};
ghost use Rattle.lfm_pool.specs.declared.seat.PoolSeat.{PoolSeat as SeatNow};
ghost use Rattle.lfm_bench.specs.PoolCalls.{MakesOften};

use crate::measure::{Sample, Start, Stopwatch};
use crate::peers::ours::no_seat;
use crate::peers::pools::{acquire, last_pool_seat, new_pool, release};
use crate::workloads::route::{Load, Route};
use lfm_pool::pool::Pool;
use lfm_pool::seat::PoolSeat;
use std::alloc::Global;
use std::io;
use std::sync::Wait;
use std::time::CpuClock;

/// The mutex that is held while calls are made, if one is.
const HELD: usize = 0;

/// One call at a mutex of a pool, which is made repeatedly.
pub trait PoolCall {
    /// What a call that does what it should makes of the seat.
    ghost makes: { SeatNow → SeatNow → PoolNow → ℕ → Type 0 };

    /// The call. Returns whether it did what it should.
    fn of_pool<R: Wait>(rt: &R, pool: &Pool, seat: &mut PoolSeat, mutex: usize) -> bool
        requires between { IsBetweenCalls seat.old pool.now }
        requires mutex { IsMutex mutex pool.now }
        ensures between { IsBetweenCalls seat.new pool.now }
        ensures made { result ≡ true → makes seat.old seat.new pool.now mutex };
}

/// The two seats of a pool.
#[derive(Drop)]
struct PoolUsers {
    /// The seat that makes the calls.
    user: PoolSeat,
    other: PoolSeat,
}

/// A round of these calls at a new pool, while a seat holds its first mutex if the start says so.
pub fn pool_round<R: Wait + CpuClock + AllocGlobal, C: PoolCall>(
    rt: &R,
    load: Load,
    start: Start,
) -> io::Result<Sample> {
    let route = Route::new(rt.alloc(), load)?;
    let (pool, mut users) = pool_with_users(rt.alloc(), load.mutexes.max(1))?;
    let held = begin(rt, &pool, &mut users, start);
    let sample = pool_calls::<R, C>(rt, &pool, &mut users.user, route)?;
    let left = end(&pool, &mut users, start);
    Ok(sample.provided(held && left))
}

/// A new pool of this number of mutexes, and its two seats.
fn pool_with_users(alloc: Global, mutexes: usize) -> io::Result<(Pool, PoolUsers)>
    requires { 0 < mutexes }
    ensures mutexes { IfOk result (λ r. 0 < r.0.mutexes) }
    ensures between { IfOk result (λ r. IsBetweenCalls r.1.user r.0 × IsBetweenCalls r.1.other r.0) }
{
    let (pool, mut seats) = new_pool(alloc, mutexes, 2)?;
    let Some(other) = last_pool_seat(&pool, &mut seats) else {
        return Err(no_seat());
    };
    let Some(user) = last_pool_seat(&pool, &mut seats) else {
        return Err(no_seat());
    };
    Ok((pool, PoolUsers { user, other }))
}

/// Locks if a seat is to hold when the calls start. Returns whether the mutex is in the required state.
fn begin<R: Wait>(rt: &R, pool: &Pool, users: &mut PoolUsers, start: Start) -> bool
    requires mutex { 0 < pool.now.mutexes }
    requires between { IsBetweenCalls users.old.user pool.now × IsBetweenCalls users.old.other pool.now }
    ensures { IsBetweenCalls users.new.user pool.now × IsBetweenCalls users.new.other pool.now }
{
    match start {
        Start::Free => true,
        Start::Held => acquire(rt, pool, &mut users.user, HELD),
        Start::HeldByOther => acquire(rt, pool, &mut users.other, HELD),
    }
}

/// Unlocks what `begin` locked. Returns whether it was held.
fn end(pool: &Pool, users: &mut PoolUsers, start: Start) -> bool
    requires mutex { 0 < pool.now.mutexes }
    requires between { IsBetweenCalls users.old.user pool.now × IsBetweenCalls users.old.other pool.now }
{
    match start {
        Start::Free => true,
        Start::Held => release(pool, &mut users.user, HELD),
        Start::HeldByOther => release(pool, &mut users.other, HELD),
    }
}

/// Makes the calls, timed. They are exact only if each of them did what it should. It is not inlined, so that each workload is a
/// separate loop.
#[inline(never)]
fn pool_calls<R: Wait + CpuClock, C: PoolCall>(
    rt: &R,
    pool: &Pool,
    seat: &mut PoolSeat,
    mut route: Route,
) -> io::Result<Sample>
    requires { IsBetweenCalls seat.old pool.now }
    ensures between { IsBetweenCalls seat.new pool.now }
    ensures calls { IfOk result (λ s. s.calls ≡ route.calls) }
    ensures exact { IfOk result (λ s. s.exact ≡ true → MakesOften C.makes route.calls seat.old seat.new pool.now) }
{
    let calls = route.calls;
    let watch = Stopwatch::start(rt)?;
    let mut done = 0u64;
    'calls: for _ in 0..calls {
        let mutex = route.next_mutex();
        let made = count_call::<R, C>(rt, pool, seat, mutex);
        done += made;
    }
    watch.stop(rt, calls, done)
}

/// Makes the call at this mutex. Returns how many calls did what they should: 1, or 0 if it did not or there is no such mutex.
#[inline(always)]
fn count_call<R: Wait, C: PoolCall>(rt: &R, pool: &Pool, seat: &mut PoolSeat, mutex: usize) -> u64
    requires { IsBetweenCalls seat.old pool.now }
    ensures between { IsBetweenCalls seat.new pool.now }
    ensures most { result ≤ 1 }
    ensures made { result ≡ 1 → C.makes seat.old seat.new pool.now mutex }
{
    if mutex < pool.mutexes() && C::of_pool(rt, pool, seat, mutex) {
        1
    } else {
        0
    }
}
