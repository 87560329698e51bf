//! Several threads take turns at one mutex of a pool for a fixed time, next to our mutex and std's. A pool guards no value, so a
//! thread adds 1 to a number beside it: by a load and a store, of which some would be lost if two threads were in a hold at once.
ghost use Rattle.std.specs.Prelude.{◌≡◌, ◌+◌, ◌<◌, All, true};
ghost use Rattle.lfm_pool.specs.Calls.{IsBetweenCalls};

use crate::measure::clocks::{now, processor_time, since};
use crate::measure::{Busy, Gate, Round, Sample, Turns, Waits, Watching, contest};
use crate::peers::ours::Locking;
use crate::peers::pools::{acquire_barging, new_pool, release};
use crate::workloads::contended;
use crate::workloads::contended::{Load, MOST_TURNS};
use lfm_pool::pool::Pool;
use lfm_pool::seat::PoolSeat;
use std::alloc::AllocError;
use std::io;
use std::sync::Wait;
use std::sync::atomic::{AtomicU64, Ordering};
use std::thread::{Threads, join, map_vec};
use std::time::{Clock, CpuClock};

/// The mutex at which the threads take turns.
const MUTEX: usize = 0;

/// What the threads share.
#[derive(Drop)]
struct Shared {
    pool: Pool,
    /// The number to which a thread adds 1 in each turn.
    number: AtomicU64,
    gate: Gate,
    load: Load,
    ghost some: { 0 < pool.mutexes },
}

/// A round, in which all lock by `lock_barging`.
pub fn round<R: Threads + Sync + Wait + Clock + CpuClock + AllocGlobal>(
    rt: &R,
    load: Load,
) -> io::Result<Round> {
    Ok(Round {
        ours: Some(contended::ours(rt, load, Locking::Barging)?),
        pool: Some(of_pool(rt, load)?),
        standard: Some(contended::standard(rt, load)?),
        ..Round::NONE
    })
}

/// A round with a pool of one mutex.
fn of_pool<R: Threads + Sync + Wait + Clock + CpuClock + AllocGlobal>(
    rt: &R,
    load: Load,
) -> io::Result<Sample> {
    let (pool, seats) = new_pool(rt.alloc(), 1, load.threads)?;
    let shared = Shared {
        pool,
        number: AtomicU64::new(0),
        gate: Gate::new(load.threads),
        load,
    };
    let turns = turns_of(rt, &shared, seats)?;
    let waits = Waits::new(rt.alloc(), Watching::Nothing)?;
    Ok(contest(&turns, waits, Some(shared.number.load(Ordering::SeqCst))))
}

/// The turns of a thread for each of these seats, while the gate is open.
fn turns_of<R: Threads + Sync + Wait + Clock + CpuClock + AllocGlobal>(
    rt: &R,
    shared: &Shared,
    seats: Vec<PoolSeat>,
) -> Result<Vec<Turns>, AllocError>
    requires { All (λ s. IsBetweenCalls s shared.now.pool) seats.items }
{
    let (_, turns) = join(
        rt,
        move || shared.gate.shut_after(rt, shared.load.window),
        move || -> Result<Vec<Turns>, AllocError>
            requires { All (λ s. IsBetweenCalls s shared.now.pool) seats.items }
        { turns_of_seats(rt, shared, seats) },
    );
    turns
}

/// The turns of a thread for each of these seats.
fn turns_of_seats<R: Threads + Sync + Wait + Clock + CpuClock + AllocGlobal>(
    rt: &R,
    shared: &Shared,
    seats: Vec<PoolSeat>,
) -> Result<Vec<Turns>, AllocError>
    requires { All (λ s. IsBetweenCalls s shared.now.pool) seats.items }
{
    map_vec(rt, seats, &|seat| turns_of_seat(rt, shared, seat))
}

/// The turns of the thread that has this seat.
fn turns_of_seat<R: Wait + Clock + CpuClock + AllocGlobal>(
    rt: &R,
    shared: &Shared,
    mut seat: PoolSeat,
) -> Turns
    requires { IsBetweenCalls seat shared.now.pool }
{
    take_turns(rt, shared, &mut seat)
}

/// The turns of one thread. Its work counts only if the seat has made a take for each turn.
fn take_turns<R: Wait + Clock + CpuClock + AllocGlobal>(
    rt: &R,
    shared: &Shared,
    seat: &mut PoolSeat,
) -> Turns
    requires { IsBetweenCalls seat.old shared.now.pool }
    ensures { result.worked ≡ true → seat.new.takes ≡ seat.old.takes + result.acquisitions }
{
    let load = shared.load;
    let takes = seat.takes();
    let mut busy = Busy::new();
    let mut acquisitions = 0u64;
    shared.gate.pass();
    let start = now(rt);
    let used = processor_time(rt);
    'turns: for _ in 0..MOST_TURNS {
        if shared.gate.is_shut() {
            break;
        }
        if hold(rt, shared, seat, &mut busy) {
            acquisitions = acquisitions.wrapping_add(1);
        }
        busy.work(load.outside);
    }
    let taken = seat.takes();
    Turns {
        acquisitions,
        nanoseconds: since(rt, start),
        processor_nanoseconds: processor_time(rt).saturating_sub(used),
        worked: busy.is_sound() && taken >= takes && taken - takes == acquisitions,
        waits: Waits::none(rt.alloc()),
    }
}

/// Acquires the mutex, adds 1 to the number, works, and unlocks. Returns whether it acquired the mutex.
#[inline(always)]
fn hold<R: Wait>(rt: &R, shared: &Shared, seat: &mut PoolSeat, busy: &mut Busy) -> bool
    requires { IsBetweenCalls seat.old shared.now.pool }
    ensures { IsBetweenCalls seat.new shared.now.pool }
{
    let acquired = acquire_barging(rt, &shared.pool, seat, MUTEX);
    if acquired {
        let number = shared.number.load(Ordering::SeqCst);
        shared
            .number
            .store(number.wrapping_add(1), Ordering::SeqCst);
        busy.work(shared.load.inside);
    }
    release(&shared.pool, seat, MUTEX);
    acquired
}
