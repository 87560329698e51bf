//! Several threads wait on one condvar, and another thread, the caller, repeatedly wakes them all. Each thread that acquires
//! the mutex and goes on adds 1 to the number under it: the threads once at their start, the caller before each broadcast, and
//! each thread after it was woken. So with n threads, broadcast b is made when the number is b (n + 1), and all have held the
//! mutex since then when the number is n greater. The last thread notes the time, and wakes the caller, which waits on its own
//! condvar.
ghost use Rattle.std.specs.Prelude.{◌≡◌, ◌*◌, ◌%◌, ◌^◌, Some, IfSome, true};
ghost use Rattle.lfm_bench.specs.Broadcasts.{made, ended};

use crate::measure::clocks::{now, since};
use crate::measure::{Round, Sample};
use crate::peers::guarded::Operation;
use crate::peers::morphing::{MorphingPlaces, MorphingShared};
use crate::peers::ours::Locking;
use crate::peers::participants::{Participant, Places, Side, wait_and_apply};
use crate::peers::plain::{PlainPlaces, PlainShared};
use crate::peers::standard::wait_until;
use std::alloc::AllocError;
use std::sync::atomic::{AtomicU64, Ordering};
use std::sync::{Condvar, Mutex, Wait};
use std::thread::{Threads, join, map_indices, map_vec};
use std::time::{Clock, Duration, Instant};
use std::{io, thread};

/// How long the caller sleeps before a broadcast, in microseconds, so that all waiting threads are asleep.
const SETTLING: u64 = 50;

/// The amount of work.
#[derive(Clone, Copy)]
pub struct Load {
    /// How many threads wait.
    pub threads: u64,
    /// How often they are woken.
    pub broadcasts: u64,
}

impl Load {
    /// How many threads there are with the caller.
    fn seats(self) -> u64 {
        self.threads.saturating_add(1)
    }

    /// The number when this broadcast is made. The start of the threads counts as broadcast 0.
    fn made(self, broadcast: u64) -> u64
        ensures { result ≡ made self broadcast }
    {
        broadcast.wrapping_mul(self.threads.wrapping_add(1))
    }

    /// The number when all have held since this broadcast.
    fn ended(self, broadcast: u64) -> u64
        ensures { result ≡ ended self broadcast }
    {
        self.made(broadcast).wrapping_add(self.threads)
    }
}

/// The times of a measurement, in nanoseconds since it began.
#[derive(Drop)]
struct Times {
    begin: Option<Instant>,
    /// When all had held since the latest broadcast.
    ended: AtomicU64,
}

impl Times {
    /// Times that start now.
    fn new<R: Clock>(rt: &R) -> Times {
        Times {
            begin: now(rt),
            ended: AtomicU64::new(0),
        }
    }

    /// The time now.
    fn now<R: Clock>(&self, rt: &R) -> u64 {
        since(rt, self.begin)
    }

    /// Notes that all have held since a broadcast.
    fn end<R: Clock>(&self, rt: &R) {
        self.ended.store(self.now(rt), Ordering::SeqCst);
    }

    /// The time from the call of a broadcast until all had held, if they have.
    fn taken(&self, called: u64) -> u64 {
        self.ended.load(Ordering::SeqCst).saturating_sub(called)
    }
}

/// What the caller did.
#[derive(Clone, Copy)]
struct Calls {
    nanoseconds: u64,
    /// How many were woken, if the condvar reports it.
    woken: Option<u64>,
    /// The number at the end.
    number: Option<u64>,
}

/// The sample of what the caller and the threads did. `holds` has how often each thread held the mutex. The sample is exact if
/// each held it once for each broadcast and once before, the number is right, and so is how many were woken.
fn sample(load: Load, calls: Calls, holds: &[u64]) -> Sample
    ensures number { result.exact ≡ true → calls.number ≡ Some (ended load load.broadcasts) }
    ensures woken { result.exact ≡ true → IfSome calls.woken (λ w. w ≡ load.broadcasts * load.threads % 2 ^ 64) }
{
    let all = load.broadcasts.wrapping_mul(load.threads);
    let due = load.broadcasts.wrapping_add(1);
    let exact = holds.iter().all(|held| *held == due)
        && holds.len() as u64 == load.threads
        && calls.number == Some(load.ended(load.broadcasts))
        && calls.woken.unwrap_or(all) == all;
    Sample::of_calls(calls.nanoseconds, load.broadcasts, exact)
}

/// A round.
pub fn round<R: Threads + Sync + Wait + Clock + AllocGlobal>(
    rt: &R,
    load: Load,
) -> io::Result<Round> {
    Ok(Round {
        in_order: Some(morphing(rt, load, Locking::InOrder)?),
        barging: Some(morphing(rt, load, Locking::Barging)?),
        plain: Some(plain(rt, load)?),
        standard: Some(standard(rt, load)?),
        ..Round::NONE
    })
}

/// Our mutex and condvars that morph waits.
fn morphing<R: Threads + Sync + Wait + Clock + AllocGlobal>(
    rt: &R,
    load: Load,
    locking: Locking,
) -> io::Result<Sample> {
    let (shared, free) = MorphingShared::new(rt, load.seats())?;
    ours(rt, load, MorphingPlaces::new(&shared, free, locking))
}

/// Our mutex and plain condvars.
fn plain<R: Threads + Sync + Wait + Clock + AllocGlobal>(rt: &R, load: Load) -> io::Result<Sample> {
    let (shared, free) = PlainShared::new(rt, load.seats())?;
    ours(rt, load, PlainPlaces::new(&shared, free))
}

/// Our mutex and condvars.
fn ours<R: Threads + Sync + Wait + Clock + AllocGlobal, S: Places>(
    rt: &R,
    load: Load,
    mut places: S,
) -> io::Result<Sample> {
    let caller = places.next(Side::Second)?;
    let mut others = Vec::new(rt.alloc());
    for _ in 0..load.threads {
        others.push(places.next(Side::First)?)?;
    }
    Ok(our_round(rt, load, caller, others)?)
}

/// A round of the caller and the other threads.
fn our_round<R: Threads + Sync + Wait + Clock, P: Participant>(
    rt: &R,
    load: Load,
    caller: P,
    others: Vec<P>,
) -> Result<Sample, AllocError> {
    let times = Times::new(rt);
    let shared_times = &times;
    let (calls, holds) = join(
        rt,
        move || our_calls(rt, load, shared_times, caller),
        move || map_vec(rt, others, &|one| our_holds(rt, load, shared_times, one)),
    );
    Ok(sample(load, calls, &holds?))
}

/// How often one thread held.
fn our_holds<R: Wait + Clock, P: Participant>(
    rt: &R,
    load: Load,
    times: &Times,
    mut one: P,
) -> u64 {
    let mut held = 0u64;
    one.lock(rt);
    for broadcast in 0..=load.broadcasts {
        let due = Operation::AddOneTo(load.made(broadcast));
        let number = wait_and_apply(rt, &mut one, due);
        if number.is_none() {
            break;
        }
        held = held.wrapping_add(1);
        if number == Some(load.ended(broadcast)) {
            times.end(rt);
            one.wake_one(rt);
        }
    }
    one.unlock();
    held
}

/// The caller's broadcasts.
fn our_calls<R: Wait + Clock, P: Participant>(
    rt: &R,
    load: Load,
    times: &Times,
    mut caller: P,
) -> Calls {
    let mut nanoseconds = 0u64;
    let mut woken = 0u64;
    caller.lock(rt);
    let mut number = wait_and_apply(rt, &mut caller, Operation::ReadFrom(load.ended(0)));
    for broadcast in 0..load.broadcasts {
        thread::sleep(rt, Duration::from_micros(SETTLING));
        caller.apply(Operation::AddOneTo(0));
        let called = times.now(rt);
        woken = woken.wrapping_add(caller.wake_all(rt));
        let due = load.ended(broadcast.wrapping_add(1));
        number = wait_and_apply(rt, &mut caller, Operation::ReadFrom(due));
        if number.is_none() {
            break;
        }
        nanoseconds = nanoseconds.saturating_add(times.taken(called));
    }
    caller.unlock();
    Calls {
        nanoseconds,
        woken: Some(woken),
        number,
    }
}

/// Std's mutex and the condvars on it.
#[derive(Drop)]
struct StandardPeer {
    mutex: Mutex<u64>,
    threads: Condvar,
    caller: Condvar,
}

/// Std's mutex and condvars.
fn standard<R: Threads + Sync + Wait + Clock + AllocGlobal>(
    rt: &R,
    load: Load,
) -> Result<Sample, AllocError> {
    let alloc = rt.alloc();
    let shared = StandardPeer {
        mutex: Mutex::new(0),
        threads: Condvar::new(),
        caller: Condvar::new(),
    };
    let times = Times::new(rt);
    let (peer, shared_times) = (&shared, &times);
    let (calls, holds) = join(
        rt,
        move || standard_calls(rt, load, shared_times, peer),
        move || {
            map_indices(
                rt,
                alloc,
                load.threads as usize,
                &|_| standard_holds(rt, load, shared_times, peer),
            )
        },
    );
    Ok(sample(load, calls, &holds?))
}

/// How often one thread held std's mutex.
fn standard_holds<R: Wait + Clock>(rt: &R, load: Load, times: &Times, peer: &StandardPeer) -> u64 {
    let mut held = 0u64;
    let mut number = peer.mutex.lock(rt);
    for broadcast in 0..=load.broadcasts {
        number = wait_until(rt, &peer.threads, number, load.made(broadcast));
        *number = number.wrapping_add(1);
        held = held.wrapping_add(1);
        if *number == load.ended(broadcast) {
            times.end(rt);
            peer.caller.notify_one();
        }
    }
    drop(number);
    held
}

/// The caller's broadcasts by std's condvar.
fn standard_calls<R: Wait + Clock>(
    rt: &R,
    load: Load,
    times: &Times,
    peer: &StandardPeer,
) -> Calls {
    let mut nanoseconds = 0u64;
    let mut number = wait_until(rt, &peer.caller, peer.mutex.lock(rt), load.ended(0));
    for broadcast in 0..load.broadcasts {
        let due = load.ended(broadcast.wrapping_add(1));
        thread::sleep(rt, Duration::from_micros(SETTLING));
        *number = number.wrapping_add(1);
        let called = times.now(rt);
        peer.threads.notify_all();
        number = wait_until(rt, &peer.caller, number, due);
        nanoseconds = nanoseconds.saturating_add(times.taken(called));
    }
    Calls {
        nanoseconds,
        woken: None,
        number: Some(*number),
    }
}
