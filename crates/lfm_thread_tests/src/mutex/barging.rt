//! When a seat that locks by `lock_barging` queues: not while its pace lets it try, and after that as a seat that locks by
//! `lock`.
ghost use Rattle.std.specs.Prelude.{All};
ghost use Rattle.lfm_mutex.specs.Belongs.{OfMutex};

use crate::mutex::paced::paced;
use crate::seeing::sees;
use lfm_core::MAX_BUDGET;
use lfm_model::{How, Locked, Unlocked};
use lfm_mutex::{Mutex, Pace, Seat};
use std::alloc::{AllocError, Global};
use std::sync::Wait;
use std::sync::atomic::{AtomicBool, Ordering};
use std::test::Fail;
use std::thread;
use std::thread::Threads;
use std::time::{Clock, Duration};

/// How long seat 1 holds each time, in milliseconds.
const HELD: u64 = 1;

/// How many holds seat 1 makes if no seat may queue.
const SOME_HOLDS: u64 = 20;

/// How many holds seat 1 makes at most until a seat queues.
const MANY_HOLDS: u64 = 20_000;

/// How many holds seat 1 makes at most, and whether it has ended.
#[derive(Drop)]
struct Holding {
    holds: u64,
    ended: AtomicBool,
}

/// Holds the mutex at most this many times, each time for a while, until an unlock finds a seat in the queue. Returns whether
/// one did. The seat acquires the mutex by `try_lock`, so that it never queues itself.
fn hold_until_one_queues<R: Wait + Clock>(
    rt: &R,
    mutex: &Mutex<u64>,
    mut seat: Seat<u64>,
    holds: u64,
) -> bool
    requires { OfMutex seat mutex.now }
{
    let mut made = 0u64;
    'holding: for _ in rt.forever() {
        if made == holds {
            return false;
        }
        if mutex.try_lock(&mut seat).is_err() {
            continue;
        }
        made = made.wrapping_add(1);
        thread::sleep(rt, Duration::from_millis(HELD));
        if mutex.unlock(&mut seat) != Ok(Unlocked::Free) {
            return true;
        }
    }
    unreachable!()
}

/// Locks by `lock_barging` again and again, until the seat acquires the mutex from the queue or seat 1 has ended. Returns
/// whether the seat was the first that acquired it from the queue.
fn barge_until_queued<R: Wait>(
    rt: &R,
    mutex: &Mutex<u64>,
    mut seat: Seat<u64>,
    ended: &AtomicBool,
) -> bool
    requires { OfMutex seat mutex.now }
{
    'locking: for _ in rt.forever() {
        let last = ended.load(Ordering::SeqCst);
        let locked = mutex.lock_barging(rt, &mut seat);
        let _ = mutex.unlock(&mut seat);
        if last || locked != Ok(Locked::Held(How::Free)) {
            return locked == Ok(Locked::Held(How::Queued(1)));
        }
    }
    unreachable!()
}

/// Seat 1 holds, and seat 2 barges.
fn take_part<R: Wait + Clock>(
    rt: &R,
    mutex: &Mutex<u64>,
    seat: Seat<u64>,
    holding: &Holding,
) -> bool
    requires { OfMutex seat mutex.now }
{
    if seat.number().get() != 1 {
        return barge_until_queued(rt, mutex, seat, &holding.ended);
    }
    let queued = hold_until_one_queues(rt, mutex, seat, holding.holds);
    holding.ended.store(true, Ordering::SeqCst);
    queued
}

/// Each seat takes part in a thread of its own.
fn take_parts<R: Threads + Wait + Clock + Sync>(
    rt: &R,
    mutex: &Mutex<u64>,
    seats: Vec<Seat<u64>>,
    holds: u64,
) -> Result<Vec<bool>, AllocError>
    requires { All (λ s. OfMutex s mutex.now) seats.items }
{
    let holding = Holding {
        holds,
        ended: AtomicBool::new(false),
    };
    thread::map_vec(rt, seats, &|seat| take_part(rt, mutex, seat, &holding))
}

/// Seat 1 holds at most this many times, and seat 2 barges at this pace. Returns whether seat 1 found a seat in the queue, and
/// whether seat 2 acquired the mutex from the queue.
fn barged<R: Threads + Wait + Clock + Sync>(
    rt: &R,
    alloc: Global,
    pace: Pace,
    holds: u64,
) -> Result<Vec<bool>, Fail> {
    let (mutex, seats) = paced(alloc, pace, 2, MAX_BUDGET).ok_or("a mutex")?;
    let came = take_parts(rt, &mutex, seats, holds)?;
    Ok(came)
}

/// The naps outlast the holds on any machine.
#[test]
fn seat_that_may_try_does_not_queue(rt: HostRuntime) -> Result<(), Fail> {
    let pace = Pace::new(0, 0).with_barging(12, u32::MAX);
    let came = barged(&rt, rt.alloc(), pace, SOME_HOLDS)?;
    sees(
        &rt,
        "from the queue",
        &came.as_slice(),
        &[false, false].as_slice(),
    );
    Ok(())
}

#[test]
fn seat_with_no_try_queues(rt: HostRuntime) -> Result<(), Fail> {
    let came = barged(&rt, rt.alloc(), Pace::new(800, 8), MANY_HOLDS)?;
    sees(
        &rt,
        "from the queue",
        &came.as_slice(),
        &[true, true].as_slice(),
    );
    Ok(())
}

#[test]
fn seat_queues_after_its_tries(rt: HostRuntime) -> Result<(), Fail> {
    let pace = Pace::new(800, 8).with_barging(1, 1);
    let came = barged(&rt, rt.alloc(), pace, MANY_HOLDS)?;
    sees(
        &rt,
        "from the queue",
        &came.as_slice(),
        &[true, true].as_slice(),
    );
    Ok(())
}
