//! Some threads put numbers into a bounded queue, and as many other threads take them out. A mutex guards the queue, with two
//! condvars: a thread that finds the queue full waits on the first, and one that finds it empty on the second. Each number that
//! is put in must be taken out once.
ghost use Rattle.std.specs.Prelude.{◌≡◌, true};
ghost use Rattle.lfm_bench.specs.Deliveries.{CountUp, IsEachOnce};

use crate::measure::clocks::{now, since};
use crate::measure::{Gate, Round, Sample};
use crate::peers::guarded::{Operation, Queue};
use crate::peers::morphing::{MorphingParticipant, MorphingPlaces, MorphingShared};
use crate::peers::ours::Locking;
use crate::peers::participants::{Places, Side, Waking, lock_and_apply};
use crate::peers::plain::{PlainParticipant, PlainPlaces, PlainShared};
use crate::peers::standard::unlock_and_notify;
use std::alloc::{AllocError, Global};
use std::io;
use std::sync::{Condvar, Mutex, Wait};
use std::thread::{Threads, map_vec};
use std::time::Clock;

/// The amount of work.
#[derive(Clone, Copy)]
pub struct Load {
    /// How many threads put numbers in, and as many take them out.
    pub threads: u64,
    /// How many numbers each of them puts in or takes out.
    pub numbers: u64,
    /// When a thread that has put a number in or taken one out wakes another.
    pub waking: Waking,
}

impl Load {
    /// How many threads there are together.
    fn all_threads(self) -> u64 {
        self.threads.saturating_mul(2)
    }
}

/// A thread that puts numbers in or takes them out.
trait Mover {
    /// Puts this number in, as soon as there is room. Returns whether it was put in.
    fn put<R: Wait>(&mut self, rt: &R, number: u64, waking: Waking) -> bool;

    /// Takes a number out, as soon as one is there.
    fn take<R: Wait>(&mut self, rt: &R, waking: Waking) -> Option<u64>;
}

impl Mover for MorphingParticipant<'_> {
    /// In one hold of our mutex.
    fn put<R: Wait>(&mut self, rt: &R, number: u64, waking: Waking) -> bool {
        lock_and_apply(rt, self, Operation::Put(number), waking).is_some()
    }

    /// In one hold of our mutex.
    fn take<R: Wait>(&mut self, rt: &R, waking: Waking) -> Option<u64> {
        lock_and_apply(rt, self, Operation::Take, waking)
    }
}

impl Mover for PlainParticipant<'_> {
    /// In one hold of our mutex.
    fn put<R: Wait>(&mut self, rt: &R, number: u64, waking: Waking) -> bool {
        lock_and_apply(rt, self, Operation::Put(number), waking).is_some()
    }

    /// In one hold of our mutex.
    fn take<R: Wait>(&mut self, rt: &R, waking: Waking) -> Option<u64> {
        lock_and_apply(rt, self, Operation::Take, waking)
    }
}

/// Std's mutex and the condvars on it.
#[derive(Drop)]
struct StandardQueue {
    queue: Mutex<Queue>,
    not_full: Condvar,
    not_empty: Condvar,
}

impl Mover for &StandardQueue {
    /// Waits on std's condvar while there is no room.
    fn put<R: Wait>(&mut self, rt: &R, number: u64, waking: Waking) -> bool {
        let mut queue = self.queue.lock(rt);
        for _ in rt.forever() {
            if queue.put(number).is_some() {
                break;
            }
            queue = self.not_full.wait(rt, queue);
        }
        unlock_and_notify(queue, &self.not_empty, waking);
        true
    }

    /// Waits on std's condvar while the queue is empty.
    fn take<R: Wait>(&mut self, rt: &R, waking: Waking) -> Option<u64> {
        let mut queue = self.queue.lock(rt);
        for _ in rt.forever() {
            if let Some(number) = queue.take() {
                unlock_and_notify(queue, &self.not_full, waking);
                return Some(number);
            }
            queue = self.not_empty.wait(rt, queue);
        }
        None
    }
}

/// The work of one thread: it puts in the numbers from `first` on, or takes as many out.
#[derive(Clone, Copy)]
enum Task {
    Put { first: u64 },
    Take,
}

/// The numbers that a thread took out, and how long it worked, in nanoseconds.
#[derive(Drop)]
struct Delivery {
    numbers: Vec<u64>,
    nanoseconds: u64,
}

/// A round.
pub fn round<R: Threads + Sync + Wait + Clock + AllocGlobal>(
    rt: &R,
    load: Load,
) -> io::Result<Round> {
    let (in_order, barging) = match load.waking {
        Waking::InHold => (
            Some(morphing(rt, load, Locking::InOrder)?),
            Some(morphing(rt, load, Locking::Barging)?),
        ),
        Waking::AfterUnlock => (None, None),
    };
    Ok(Round {
        in_order,
        barging,
        plain: Some(plain(rt, load)?),
        standard: Some(standard(rt, load)?),
        ..Round::NONE
    })
}

/// Our mutex and condvars that morph waits.
fn morphing<R: Threads + Sync + Wait + Clock + AllocGlobal>(
    rt: &R,
    load: Load,
    locking: Locking,
) -> io::Result<Sample> {
    let (shared, free) = MorphingShared::new(rt, load.all_threads())?;
    ours(rt, load, MorphingPlaces::new(&shared, free, locking))
}

/// Our mutex and plain condvars.
fn plain<R: Threads + Sync + Wait + Clock + AllocGlobal>(rt: &R, load: Load) -> io::Result<Sample> {
    let (shared, free) = PlainShared::new(rt, load.all_threads())?;
    ours(rt, load, PlainPlaces::new(&shared, free))
}

/// Our mutex and condvars.
fn ours<R: Threads + Sync + Wait + Clock + AllocGlobal, S: Places>(
    rt: &R,
    load: Load,
    mut places: S,
) -> io::Result<Sample>
where
    S::One: Mover,
{
    let mut movers = Vec::new(rt.alloc());
    for place in 0..load.threads {
        let first = place.wrapping_mul(load.numbers);
        movers.push((places.next(Side::First)?, Task::Put { first }))?;
        movers.push((places.next(Side::Second)?, Task::Take))?;
    }
    Ok(moved(rt, load, movers)?)
}

/// Std's mutex and condvars.
fn standard<R: Threads + Sync + Wait + Clock + AllocGlobal>(
    rt: &R,
    load: Load,
) -> io::Result<Sample> {
    let shared = StandardQueue {
        queue: Mutex::new(Queue::new()),
        not_full: Condvar::new(),
        not_empty: Condvar::new(),
    };
    let mut movers = Vec::new(rt.alloc());
    for place in 0..load.threads {
        let first = place.wrapping_mul(load.numbers);
        movers.push((&shared, Task::Put { first }))?;
        movers.push((&shared, Task::Take))?;
    }
    Ok(moved(rt, load, movers)?)
}

/// The sample of what these threads move together.
fn moved<R: Threads + Sync + Wait + Clock + AllocGlobal, M: Mover + Send + Drop>(
    rt: &R,
    load: Load,
    movers: Vec<(M, Task)>,
) -> Result<Sample, AllocError> {
    let gate = Gate::new(load.all_threads());
    let shared = &gate;
    let alloc = rt.alloc();
    let deliveries = map_vec(
        rt,
        movers,
        &|(mover, task)| work(rt, alloc, load, shared, mover, task),
    )?;
    let mut numbers = Vec::new(alloc);
    let mut nanoseconds = 0;
    for delivery in deliveries {
        let delivery = delivery?;
        nanoseconds = nanoseconds.max(delivery.nanoseconds);
        numbers.extend_from_slice(&delivery.numbers)?;
    }
    Ok(sample(load, nanoseconds, &mut numbers))
}

/// Does the work of one thread. Returns the numbers that it took out.
fn work<R: Wait + Clock, M: Mover + Drop>(
    rt: &R,
    alloc: Global,
    load: Load,
    gate: &Gate,
    mut mover: M,
    task: Task,
) -> Result<Delivery, AllocError> {
    let mut numbers = Vec::with_capacity(alloc, load.numbers as usize)?;
    gate.pass();
    let start = now(rt);
    for turn in 0..load.numbers {
        match task {
            Task::Put { first } => {
                mover.put(rt, first.wrapping_add(turn), load.waking);
            }
            Task::Take => {
                if let Some(number) = mover.take(rt, load.waking) {
                    numbers.push(number)?;
                }
            }
        }
    }
    Ok(Delivery {
        numbers,
        nanoseconds: since(rt, start),
    })
}

/// The sample of a round in which these numbers were taken out. A call is a number that is moved. The sample is exact if all
/// numbers that were put in were taken out, each once.
fn sample(load: Load, nanoseconds: u64, numbers: &mut Vec<u64>) -> Sample
    ensures { result.exact ≡ true → IsEachOnce numbers.old.items }
{
    let calls = load.threads.saturating_mul(load.numbers);
    numbers.sort_unstable();
    let exact = numbers.len() as u64 == calls && are_in_turn(numbers);
    Sample::of_calls(nanoseconds, calls, exact)
}

/// Whether these numbers are 0, 1, 2 and so on.
fn are_in_turn(numbers: &[u64]) -> bool
    ensures { result ≡ true → CountUp numbers.now }
{
    for place in 0..numbers.len() {
        if numbers[place] != place as u64 {
            return false;
        }
    }
    true
}
