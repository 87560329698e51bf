//! A table of a thousand numbers, each of which has a mutex of one pool. Four threads add 1 to each number, again and again. A
//! thread has one seat for all mutexes, and a number is read and written in a hold of its mutex, so no addition is lost.
#![tactic(auto)]

ghost use Rattle.std.specs.Prelude.{◌≡◌, vec_len};
ghost use Rattle.lfm_pool.specs.Calls.{IsBetweenCalls};

use anyhow::bail;
use lfm_model::Refusal;
use lfm_pool::calls::unlock;
use lfm_pool::lock::lock;
use lfm_pool::pool::Pool;
use lfm_pool::seat::PoolSeat;
use lfm_threads::share;
use std::sync::Wait;
use std::sync::atomic::{AtomicU64, Ordering};

/// How many numbers there are, and mutexes.
const BUCKETS: usize = 1_000;

/// How many threads there are, and seats.
const THREADS: u64 = 4;

/// How many times each thread adds to each number.
const ROUNDS: u64 = 10;

/// Numbers, each with a mutex of the pool.
#[derive(Drop)]
struct Table {
    pool: Pool,
    numbers: Vec<AtomicU64>,
    ghost sized: { vec_len numbers ≡ pool.mutexes },
}

/// Adds 1 to each number, in a hold of its mutex.
fn add_to_each<R: Wait>(rt: &R, table: &Table, seat: &mut PoolSeat) -> Result<(), Refusal>
    requires { IsBetweenCalls seat.old table.now.pool }
    ensures { IsBetweenCalls seat.new table.now.pool }
{
    'numbers: for mutex in 0..table.numbers.len() {
        lock(rt, &table.pool, seat, mutex)?;
        let number = &table.numbers[mutex];
        let old = number.load(Ordering::SeqCst);
        number.store(old.wrapping_add(1), Ordering::SeqCst);
        unlock(&table.pool, seat, mutex)?;
    }
    Ok(())
}

/// What each thread does with its seat.
fn add_often<R: Wait>(rt: &R, table: &Table, mut seat: PoolSeat) -> Result<(), Refusal>
    requires { IsBetweenCalls seat table.now.pool }
{
    'rounds: for _ in 0..ROUNDS {
        add_to_each(rt, table, &mut seat)?;
    }
    Ok(())
}

/// Runs four threads, and prints the sum of all numbers.
fn main(rt: HostRuntime) -> anyhow::Result<()> {
    let (pool, seats) = Pool::new(rt.alloc(), BUCKETS, THREADS)?;
    let mut numbers = Vec::with_capacity(rt.alloc(), BUCKETS)?;
    'filling: for _ in 0..BUCKETS {
        numbers.push_reserved(AtomicU64::new(0));
    }
    let table = Table { pool, numbers };
    // each seat in a thread of its own; if one can't be started, none adds anything
    let results = share(
        &rt,
        &table,
        seats,
        &|table: &Table, seat: PoolSeat| -> Result<(), Refusal>
            requires { IsBetweenCalls seat table.now.pool }
        { add_often(&rt, table, seat) },
    )?;
    for result in results {
        if result.is_err() {
            bail!("a call was refused");
        }
    }
    let mut sum = 0u64;
    for number in &table.numbers {
        sum = sum.wrapping_add(number.load(Ordering::SeqCst));
    }
    println!(rt; "{sum}")?;
    Ok(())
}
