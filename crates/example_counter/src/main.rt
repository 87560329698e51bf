//! Four threads add to one number, 1 a thousand times each. The mutex guards the number with the book of a ledger, of which each
//! thread has a share. So it is proved that the number is the sum of what the threads added: 4 * 1000.
#![tactic(auto)]

ghost use Rattle.std.specs.Prelude.{◌≡◌, ◌*◌, IfOk};
ghost use Rattle.example_counter.specs.Workers.{HasAdded};

mod counter;

use crate::counter::Counter;
use anyhow::bail;
use lfm_model::Refusal;
use lfm_mutex::{Mutex, Seat};
use lfm_threads::share;
use std::alloc::Global;
use std::marker::Brand;
use std::sync::Wait;
use std::sync::ledger::{Blank, Ledger, Share};
use std::thread::Threads;

/// How many threads there are.
const THREADS: u64 = 4;

/// How many times each thread adds 1.
const ROUNDS: u64 = 1_000;

/// A thread's seat, and its share of the ledger.
#[derive(Drop)]
struct Worker<L: Ledger> {
    seat: Seat<Counter<L>>,
    share: Share<L>,
}

/// Adds 1 a thousand times, each time in a hold of the mutex.
fn work<L: Ledger + Send + Sync + 'static, R: Wait>(
    rt: &R,
    mutex: &Mutex<Counter<L>>,
    worker: Worker<L>,
) -> Result<Worker<L>, Refusal>
    requires { HasAdded mutex.now 0 worker }
    ensures { IfOk result (HasAdded mutex.now 1_000) }
{
    let Worker {
        mut seat,
        mut share,
    } = worker;
    for _round in 0..ROUNDS {
        share = mutex.with(rt, &mut seat, move |counter| counter.add(share))?;
    }
    Ok(Worker { seat, share })
}

/// Runs four threads, and returns the number that the mutex is closed with. By `add` and `total` it is what they added.
fn count<L: Ledger + Send + Sync + 'static, R: Threads + Wait + Sync>(
    rt: &R,
    alloc: Global,
    blank: Blank,
) -> anyhow::Result<u64>
    requires name { blank.name ≡ L.name }
    requires parts { (blank.parts ≡ 4) × (L.parts ≡ 4) }
    ensures { IfOk result (λ n. n ≡ 4 * 1_000) }
{
    let (book, mut all) = blank.open::<L>();
    let (mutex, seats) = Mutex::new(alloc, THREADS, ROUNDS, Counter::new(book))?;
    let mut workers = Vec::new(alloc);
    for seat in seats {
        workers.push(Worker {
            seat,
            share: all.split_off(1, 0),
        })?;
    }
    // each worker in a thread of its own; if one can't be started, none works
    let results = share(
        rt,
        &mutex,
        workers,
        &|mutex: &Mutex<Counter<L>>, worker: Worker<L>| -> Result<Worker<L>, Refusal>
            requires { HasAdded mutex.now 0 worker }
            ensures { IfOk result (HasAdded mutex.entry.now 1_000) }
        { work(rt, mutex, worker) },
    )?;
    let mut seats = Vec::new(alloc);
    for result in results {
        let Worker { seat, share } = result?;
        all.merge(share);
        seats.push(seat)?;
    }
    let Ok(counter) = mutex.close(seats) else {
        bail!("a seat still holds the mutex");
    };
    Ok(counter.total(all))
}

/// Prints what four threads count.
fn main(rt: HostRuntime) -> anyhow::Result<()> {
    let number = count::<Brand, HostRuntime>(&rt, rt.alloc(), Blank::new(THREADS))?;
    println!(rt; "{number}")?;
    Ok(())
}
