//! Several threads take turns at one mutex for a fixed time. In a turn a thread acquires the mutex, adds 1 to its value, works
//! for a while, unlocks, and works for a while outside.

use crate::measure::clocks::{now, processor_time, since};
use crate::measure::{Busy, Gate, Round, Sample, Turns, Waits, Watching, contest};
use crate::peers::ours::{FreeSeats, Locking, User, new_mutex};
use std::alloc::AllocError;
use std::io;
use std::sync::{Mutex, Wait};
use std::thread::{Threads, join, map_vec};
use std::time::{Clock, CpuClock, Duration};

/// The most turns that a thread takes.
pub const MOST_TURNS: u64 = 1 << 32;

/// What the threads do.
#[derive(Clone, Copy)]
pub struct Load {
    /// How many threads there are.
    pub threads: u64,
    /// How many steps of work a thread makes while it holds the mutex.
    pub inside: u64,
    /// How many it makes between two holds.
    pub outside: u64,
    /// How long turns are taken.
    pub window: Duration,
    /// Whether waits for the mutex are timed.
    pub watching: Watching,
}

/// What a thread does while it holds the mutex, and how long it waited for it.
#[derive(Drop)]
struct Holds {
    busy: Busy,
    /// How many steps of work it makes in a hold.
    inside: u64,
    waits: Waits,
}

/// A thread that takes turns at a mutex.
trait Contender {
    /// Acquires the mutex, adds 1 to the value, works, and unlocks. Returns whether it acquired the mutex.
    fn hold<R: Wait + Clock>(&mut self, rt: &R, holds: &mut Holds) -> bool;
}

/// A thread at our mutex.
#[derive(Drop)]
struct OurThread<'a> {
    user: User<'a>,
    locking: Locking,
}

impl Contender for OurThread<'_> {
    /// Acquires our mutex in this thread's way.
    #[inline(always)]
    fn hold<R: Wait + Clock>(&mut self, rt: &R, holds: &mut Holds) -> bool {
        let begin = holds.waits.begin(rt);
        let gained = self.user.lock_by(rt, self.locking);
        holds.waits.end(rt, begin);
        if gained {
            self.user.add_one();
            holds.busy.work(holds.inside);
        }
        self.user.unlock();
        gained
    }
}

/// A thread at std's mutex.
#[derive(Drop)]
struct StandardThread<'a> {
    mutex: &'a Mutex<u64>,
}

impl Contender for StandardThread<'_> {
    /// Acquires std's mutex.
    #[inline(always)]
    fn hold<R: Wait + Clock>(&mut self, rt: &R, holds: &mut Holds) -> bool {
        let begin = holds.waits.begin(rt);
        let mut guard = self.mutex.lock(rt);
        holds.waits.end(rt, begin);
        *guard = guard.wrapping_add(1);
        holds.busy.work(holds.inside);
        drop(guard);
        true
    }
}

/// A round.
pub fn round<R: Threads + Sync + Wait + Clock + CpuClock + AllocGlobal>(
    rt: &R,
    load: Load,
) -> io::Result<Round> {
    Ok(Round {
        in_order: Some(ours(rt, load, Locking::InOrder)?),
        barging: Some(ours(rt, load, Locking::Barging)?),
        standard: Some(standard(rt, load)?),
        ..Round::NONE
    })
}

/// A round with our mutex, which all threads lock in this way.
pub fn ours<R: Threads + Sync + Wait + Clock + CpuClock + AllocGlobal>(
    rt: &R,
    load: Load,
    locking: Locking,
) -> io::Result<Sample> {
    let (mutex, seats) = new_mutex(rt, load.threads.saturating_add(1), 0u64)?;
    let mut seats = FreeSeats::new(&mutex, seats);
    let mut reader = seats.next_user()?;
    let mut contenders = Vec::new(rt.alloc());
    for _ in 0..load.threads {
        let user = seats.next_user()?;
        contenders.push(OurThread { user, locking })?;
    }
    let turns = turns_of(rt, load, contenders)?;
    let waits = Waits::new(rt.alloc(), load.watching)?;
    Ok(contest(&turns, waits, reader.final_value(rt)))
}

/// A round with std's mutex.
pub fn standard<R: Threads + Sync + Wait + Clock + CpuClock + AllocGlobal>(
    rt: &R,
    load: Load,
) -> io::Result<Sample> {
    let mutex = Mutex::new(0u64);
    let mut contenders = Vec::new(rt.alloc());
    for _ in 0..load.threads {
        contenders.push(StandardThread { mutex: &mutex })?;
    }
    let turns = turns_of(rt, load, contenders)?;
    let waits = Waits::new(rt.alloc(), load.watching)?;
    Ok(contest(&turns, waits, Some(mutex.into_inner())))
}

/// A thread, and what it does in its turns.
#[derive(Drop)]
struct Task<C> {
    contender: C,
    holds: Holds,
}

/// The turns of these threads, while the gate is open.
fn turns_of<R: Threads + Sync + Wait + Clock + CpuClock + AllocGlobal, C: Contender + Send + Drop>(
    rt: &R,
    load: Load,
    contenders: Vec<C>,
) -> Result<Vec<Turns>, AllocError> {
    let gate = Gate::new(load.threads);
    let shared = &gate;
    let mut tasks = Vec::new(rt.alloc());
    for contender in contenders {
        let holds = Holds {
            busy: Busy::new(),
            inside: load.inside,
            waits: Waits::new(rt.alloc(), load.watching)?,
        };
        tasks.push(Task { contender, holds })?;
    }
    let (_, turns) = join(
        rt,
        move || shared.shut_after(rt, load.window),
        move || map_vec(rt, tasks, &|task| take_turns(rt, load, shared, task)),
    );
    turns
}

/// The turns of one thread.
fn take_turns<R: Wait + Clock + CpuClock, C: Contender + Drop>(
    rt: &R,
    load: Load,
    gate: &Gate,
    task: Task<C>,
) -> Turns {
    let Task {
        mut contender,
        mut holds,
    } = task;
    let mut acquisitions = 0u64;
    gate.pass();
    let start = now(rt);
    let used = processor_time(rt);
    for _ in 0..MOST_TURNS {
        if gate.is_shut() {
            break;
        }
        if contender.hold(rt, &mut holds) {
            acquisitions = acquisitions.wrapping_add(1);
        }
        holds.busy.work(load.outside);
    }
    Turns {
        acquisitions,
        nanoseconds: since(rt, start),
        processor_nanoseconds: processor_time(rt).saturating_sub(used),
        worked: holds.busy.is_sound(),
        waits: holds.waits,
    }
}
