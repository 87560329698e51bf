//! A sleeping seat loads its wake word a number of times, with pauses, and finds no grant. Then it parks until the thread of
//! another seat grants it the mutex. A call is one such load with its pauses, a poll. The processor time of the thread is
//! measured, of which parking takes almost nothing. std's mutex has no such call.

use crate::measure::{Gate, Round, Sample, Start, Steps, Stopwatch};
use crate::peers::ours::{FreeSeats, User, new_mutex};
use std::sync::Wait;
use std::thread::{Threads, join};
use std::time::{Clock, CpuClock, Duration};
use std::{io, thread};

/// The seat that polls is granted the mutex after `POLLING` times the time of the bare polls, plus `STARTING` nanoseconds for
/// the start of a thread.
const POLLING: u64 = 8;

const STARTING: u64 = 1_000_000;

/// A round of this number of polls.
pub fn round<R: Threads + Sync + Wait + Clock + CpuClock + AllocGlobal>(
    rt: &R,
    steps: &mut Steps,
    polls: u64,
) -> io::Result<Round> {
    let polls = u32::try_from(polls).unwrap_or(u32::MAX);
    let bare = bare(rt, steps, polls)?;
    let longest = bare.nanoseconds.saturating_mul(POLLING);
    let longest = Duration::from_nanos(longest.saturating_add(STARTING));
    Ok(Round {
        ours: Some(ours(rt, polls, longest)?),
        bare: Some(bare),
        ..Round::NONE
    })
}

/// The polls of a seat of our mutex: at most this number, and fewer if they take longer than this.
fn ours<R: Threads + Sync + Wait + Clock + CpuClock + AllocGlobal>(
    rt: &R,
    polls: u32,
    longest: Duration,
) -> io::Result<Sample> {
    let (mutex, seats) = new_mutex(rt, 2, 0u64)?;
    let mut seats = FreeSeats::new(&mutex, seats);
    let holder = seats.next_user()?;
    let sleeper = seats.next_user()?;
    our_round(rt, polls, longest, holder, sleeper)
}

/// The polls of the sleeper, which is granted the mutex this long after it started to poll.
fn our_round<R: Threads + Sync + Wait + Clock + CpuClock>(
    rt: &R,
    polls: u32,
    longest: Duration,
    mut holder: User,
    mut sleeper: User,
) -> io::Result<Sample> {
    let begun = holder.lock(rt) && sleeper.queue();
    let gate = Gate::new(2);
    let start = &gate;
    // if no thread can be started, the grant is made first, and no thread waits forever
    let (sample, granted) = join(
        rt,
        move || our_polls(rt, start, polls, sleeper),
        move || grant_after(rt, start, longest, holder),
    );
    Ok(sample?.provided(begun && granted))
}

/// The polls of the sleeper.
fn our_polls<R: Wait + CpuClock>(
    rt: &R,
    gate: &Gate,
    polls: u32,
    mut sleeper: User,
) -> io::Result<Sample> {
    gate.pass();
    let watch = Stopwatch::start(rt)?;
    let received = sleeper.receive_within(rt, polls);
    let sample = watch.stop(rt, u64::from(polls), u64::from(polls))?;
    let left = sleeper.unlock();
    Ok(sample.provided(received && left))
}

/// The holder's unlock, this long after the other seat started to poll. Returns whether the holder held the mutex.
fn grant_after<R: Clock>(rt: &R, gate: &Gate, wait: Duration, mut holder: User) -> bool {
    gate.pass();
    thread::sleep(rt, wait);
    holder.unlock()
}

/// The bare loads of the polls, with their pauses.
#[inline(never)]
fn bare<R: CpuClock>(rt: &R, steps: &mut Steps, polls: u32) -> io::Result<Sample> {
    steps.begin(Start::HeldByOther);
    let watch = Stopwatch::start(rt)?;
    let mut done = 0u64;
    for _ in 0..polls {
        if steps.poll() {
            done = done.wrapping_add(1);
        }
    }
    watch.stop(rt, u64::from(polls), done)
}
