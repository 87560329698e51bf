//! The common part of the workloads of one thread. A number of calls in a row is made and timed: on our mutex, by its bare
//! steps, and on std's mutex if it has such calls.

use crate::measure::{Round, Sample, Start, Steps, Stopwatch};
use crate::peers::ours::Users;
use std::io;
use std::sync::{Mutex, Wait};
use std::time::CpuClock;

/// One call, which is made repeatedly. Each method returns whether the call did what it should.
pub trait Call {
    /// The call of our mutex.
    fn ours<R: Wait>(rt: &R, users: &mut Users) -> bool;

    /// Its bare steps.
    fn bare(steps: &mut Steps) -> bool;
}

/// A call that std's mutex has too.
pub trait StandardCall {
    /// The call of std's mutex.
    fn standard<R: Wait>(rt: &R, mutex: &Mutex<u64>) -> bool;
}

/// The users that make the calls.
#[derive(Drop)]
pub struct Peers<'a> {
    pub users: Users<'a>,
    pub steps: Steps<'a>,
    pub standard: &'a Mutex<u64>,
}

/// A round of a call that std's mutex has too.
pub fn round_of_all<R: Wait + CpuClock, C: Call + StandardCall>(
    rt: &R,
    peers: &mut Peers,
    start: Start,
    calls: u64,
) -> io::Result<Round> {
    let round = round::<R, C>(rt, peers, start, calls)?;
    let standard = standard_round::<R, C>(rt, peers.standard, start, calls)?;
    Ok(Round {
        standard: Some(standard),
        ..round
    })
}

/// A round of a call that std's mutex does not have.
pub fn round<R: Wait + CpuClock, C: Call>(
    rt: &R,
    peers: &mut Peers,
    start: Start,
    calls: u64,
) -> io::Result<Round> {
    let held = peers.users.begin(rt, start);
    let ours = our_calls::<R, C>(rt, &mut peers.users, calls)?;
    let left = peers.users.end(start);
    peers.steps.begin(start);
    let bare = bare_calls::<R, C>(rt, &mut peers.steps, calls)?;
    Ok(Round {
        ours: Some(ours.provided(held && left)),
        bare: Some(bare),
        ..Round::NONE
    })
}

/// Makes the calls of our mutex, timed. It is not inlined, so that each workload is a separate loop.
#[inline(never)]
fn our_calls<R: Wait + CpuClock, C: Call>(
    rt: &R,
    users: &mut Users,
    calls: u64,
) -> io::Result<Sample> {
    let watch = Stopwatch::start(rt)?;
    let mut done = 0u64;
    for _ in 0..calls {
        if C::ours(rt, users) {
            done = done.wrapping_add(1);
        }
    }
    watch.stop(rt, calls, done)
}

/// Makes the bare steps of the calls, timed.
#[inline(never)]
fn bare_calls<R: CpuClock, C: Call>(rt: &R, steps: &mut Steps, calls: u64) -> io::Result<Sample> {
    let watch = Stopwatch::start(rt)?;
    let mut done = 0u64;
    for _ in 0..calls {
        if C::bare(steps) {
            done = done.wrapping_add(1);
        }
    }
    watch.stop(rt, calls, done)
}

/// Makes the calls of std's mutex, timed, while another guard holds it if the start says so.
fn standard_round<R: Wait + CpuClock, C: StandardCall>(
    rt: &R,
    mutex: &Mutex<u64>,
    start: Start,
    calls: u64,
) -> io::Result<Sample> {
    match start {
        Start::HeldByOther => {
            let guard = mutex.lock(rt);
            let sample = standard_calls::<R, C>(rt, mutex, calls);
            drop(guard);
            sample
        }
        _ => standard_calls::<R, C>(rt, mutex, calls),
    }
}

/// Makes the calls of std's mutex, timed.
#[inline(never)]
fn standard_calls<R: Wait + CpuClock, C: StandardCall>(
    rt: &R,
    mutex: &Mutex<u64>,
    calls: u64,
) -> io::Result<Sample> {
    let watch = Stopwatch::start(rt)?;
    let mut done = 0u64;
    for _ in 0..calls {
        if C::standard(rt, mutex) {
            done = done.wrapping_add(1);
        }
    }
    watch.stop(rt, calls, done)
}
