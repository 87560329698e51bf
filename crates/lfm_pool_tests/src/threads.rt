//! Threads that lock the mutexes of one pool, by `lock` and by `lock_barging`: no addition is lost.
ghost use Rattle.std.specs.Prelude.{◌≡◌, length};
ghost use Rattle.lfm_pool.specs.Belongs.{IsMutex};
ghost use Rattle.lfm_pool.specs.Calls.{IsBetweenCalls};

use crate::seeing::sees;
use lfm_model::{Locked, Refusal};
use lfm_pool::calls::unlock;
use lfm_pool::lock::{lock, lock_barging};
use lfm_pool::pool::Pool;
use lfm_pool::seat::PoolSeat;
use std::alloc::Global;
use std::sync::Wait;
use std::sync::atomic::{AtomicU64, Ordering};
use std::test::Fail;
use std::thread;
use std::thread::Threads;

/// How often a thread adds to each number.
const ROUNDS: u64 = 500;

/// How a thread locks.
#[derive(Clone, Copy)]
enum By {
    Lock,
    Barging,
}

/// Locks this mutex by this call.
fn lock_by<R: Wait>(
    rt: &R,
    pool: &Pool,
    seat: &mut PoolSeat,
    mutex: usize,
    by: By,
) -> Result<Locked, Refusal>
    requires between { IsBetweenCalls seat.old pool.now }
    requires mutex { IsMutex mutex pool.now }
    ensures { IsBetweenCalls seat.new pool.now }
{
    match by {
        By::Lock => lock(rt, pool, seat, mutex),
        By::Barging => lock_barging(rt, pool, seat, mutex),
    }
}

/// Adds 1 to each number, in a hold of its mutex.
fn add_to_each<R: Wait>(
    rt: &R,
    pool: &Pool,
    seat: &mut PoolSeat,
    numbers: &[AtomicU64],
    by: By,
) -> Result<(), Refusal>
    requires seat { IsBetweenCalls seat.old pool.now }
    requires numbers { length numbers.now ≡ pool.now.mutexes }
    ensures { IsBetweenCalls seat.new pool.now }
{
    'numbers: for mutex in 0..numbers.len() {
        lock_by(rt, pool, seat, mutex, by)?;
        let number = &numbers[mutex];
        let old = number.load(Ordering::SeqCst);
        number.store(old.wrapping_add(1), Ordering::SeqCst);
        unlock(pool, seat, mutex)?;
    }
    Ok(())
}

/// Adds to each number as often as a thread does. Returns how many takes the seat has made then.
fn add_often<R: Wait>(
    rt: &R,
    pool: &Pool,
    mut seat: PoolSeat,
    numbers: &[AtomicU64],
    by: By,
) -> Result<u64, Refusal>
    requires seat { IsBetweenCalls seat pool.now }
    requires numbers { length numbers.now ≡ pool.now.mutexes }
{
    'rounds: for _ in 0..ROUNDS {
        add_to_each(rt, pool, &mut seat, numbers, by)?;
    }
    Ok(seat.takes())
}

/// Four threads add to three numbers, each by this call. Returns the numbers, and the takes of all seats.
fn numbers_after<R: Threads + Wait + Sync>(rt: &R, alloc: Global, by: By) -> Option<(u64, u64)> {
    let Ok((pool, seats)) = Pool::new(alloc, 3, 4) else {
        return None;
    };
    let numbers = [AtomicU64::new(0), AtomicU64::new(0), AtomicU64::new(0)];
    let results = thread::map_vec(
        rt,
        seats,
        &|seat| add_often(rt, &pool, seat, &numbers, by),
    ).ok()?;
    let mut takes = 0u64;
    for result in results {
        takes = takes.wrapping_add(result.ok()?);
    }
    let mut sum = 0u64;
    for number in &numbers {
        sum = sum.wrapping_add(number.load(Ordering::SeqCst));
    }
    Some((sum, takes))
}

#[test]
fn no_addition_is_lost_by_lock(rt: HostRuntime) -> Result<(), Fail> {
    sees(
        &rt,
        "sum and takes",
        &numbers_after(&rt, rt.alloc(), By::Lock),
        &Some((6_000, 6_000)),
    );
    Ok(())
}

#[test]
fn no_addition_is_lost_by_lock_barging(rt: HostRuntime) -> Result<(), Fail> {
    sees(
        &rt,
        "sum and takes",
        &numbers_after(&rt, rt.alloc(), By::Barging),
        &Some((6_000, 6_000)),
    );
    Ok(())
}
