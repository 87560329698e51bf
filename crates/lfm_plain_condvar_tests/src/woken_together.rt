//! Which woken threads queue for the mutex at once: those that one wake woke together, also within their time limit, and not
//! one that was woken alone, since at this pace no seat polls, so each keeps its credit. At this pace a thread that calls
//! `lock_barging` never queues while the mutex is held.
ghost use Rattle.lfm_plain_test_tools.specs.Hands.{IsHandOf};

use crate::broadcast::come_and_wait;
use crate::seeing::holds;
use lfm_mutex::{Mutex, Pace};
use lfm_plain_condvar::{PlainCondvar, Waited};
use lfm_plain_test_tools::calls::{lock, number, unlock, wait_for, wake_all, wake_one, write};
use lfm_plain_test_tools::hands::{Hand, three_paced_hands};
use std::process::Abort;
use std::sync::Wait;
use std::test::Fail;
use std::thread;
use std::thread::{Threads, join};
use std::time::{Clock, Duration};

/// How long the holder keeps the mutex before it reads the count, in milliseconds.
const KEPT: u64 = 20;

/// A time limit that does not end, in seconds.
const LIMIT: u64 = 3600;

/// How often it reads the count at most, once in a millisecond.
const READS: u64 = 10_000;

/// A pace at which a thread that calls `lock_barging` naps until the mutex is free.
fn pace() -> Pace {
    Pace::new(0, 0).with_barging(1, u32::MAX)
}

/// Locks the mutex once this many threads wait.
pub(crate) fn lock_once_they_wait<R: Wait>(
    rt: &R,
    mutex: &Mutex<u64>,
    condvar: &PlainCondvar,
    hand: &mut Hand,
    waiters: u64,
)
    requires { IsHandOf hand.old mutex.now condvar.now }
    ensures { IsHandOf hand.new mutex.now condvar.now }
{
    'reads: for _ in rt.forever() {
        lock(rt, mutex, condvar, hand);
        if number(hand) == waiters {
            return;
        }
        unlock(mutex, condvar, hand);
    }
}

/// Whether the mutex soon counts this many threads that hold or want it.
fn soon_counts<R: Wait + Clock>(rt: &R, mutex: &Mutex<u64>, wanted: u64) -> bool {
    thread::sleep(rt, Duration::from_millis(KEPT));
    for _ in 0..READS {
        if mutex.count() == wanted {
            return true;
        }
        thread::sleep(rt, Duration::from_millis(1));
    }
    false
}

/// Adds 1 to the number, and waits within the limit. Returns how the wait ended.
fn come_and_wait_for<R: Wait + Clock>(
    rt: &R,
    mutex: &Mutex<u64>,
    condvar: &PlainCondvar,
    mut hand: Hand,
) -> Option<Waited>
    requires { IsHandOf hand mutex.now condvar.now }
{
    lock(rt, mutex, condvar, &mut hand);
    let next = number(&hand).wrapping_add(1);
    write(mutex, condvar, &mut hand, next);
    let waited = wait_for(rt, mutex, condvar, &mut hand, Duration::from_secs(LIMIT));
    unlock(mutex, condvar, &mut hand);
    waited
}

/// Two threads wait at the same time, the second within the limit.
fn wait_in_both_ways<R: Threads + Wait + Clock + Sync>(
    rt: &R,
    mutex: &Mutex<u64>,
    condvar: &PlainCondvar,
    first: Hand,
    second: Hand,
) -> (Option<u64>, Option<Waited>)
    requires { IsHandOf first mutex.now condvar.now × IsHandOf second mutex.now condvar.now }
{
    join(
        rt,
        move || -> Option<u64>
            requires { IsHandOf first mutex.now condvar.now }
        { come_and_wait(rt, mutex, condvar, first) },
        move || -> Option<Waited>
            requires { IsHandOf second mutex.now condvar.now }
        { come_and_wait_for(rt, mutex, condvar, second) },
    )
}

/// In one hold, wakes both, and tells whether they queued.
fn wake_both<R: Wait + Clock>(
    rt: &R,
    mutex: &Mutex<u64>,
    condvar: &PlainCondvar,
    mut hand: Hand,
) -> bool
    requires { IsHandOf hand mutex.now condvar.now }
{
    lock_once_they_wait(rt, mutex, condvar, &mut hand, 2);
    wake_all(rt, mutex, condvar, &mut hand);
    let queued = soon_counts(rt, mutex, 3);
    unlock(mutex, condvar, &mut hand);
    queued
}

/// In one hold, wakes the one that waits, and tells whether it did not queue.
fn wake_only<R: Wait + Clock>(
    rt: &R,
    mutex: &Mutex<u64>,
    condvar: &PlainCondvar,
    mut hand: Hand,
) -> bool
    requires { IsHandOf hand mutex.now condvar.now }
{
    lock_once_they_wait(rt, mutex, condvar, &mut hand, 1);
    wake_one(rt, mutex, condvar, &mut hand);
    let alone = soon_counts(rt, mutex, 1);
    unlock(mutex, condvar, &mut hand);
    alone
}

/// Whether both of two threads that one wake woke queued.
fn both_queue<R: Threads + Wait + Clock + Abort + Sync>(
    rt: &R,
    mutex: &Mutex<u64>,
    condvar: &PlainCondvar,
    waiters: (Hand, Hand),
    waker: Hand,
) -> bool
    requires { IsHandOf waiters.0 mutex.now condvar.now × IsHandOf waiters.1 mutex.now condvar.now × IsHandOf waker mutex.now condvar.now }
{
    let (first, second) = waiters;
    let (_, queued) = join(
        rt,
        move || -> (Option<u64>, Option<Waited>)
            requires { IsHandOf first mutex.now condvar.now × IsHandOf second mutex.now condvar.now }
        { wait_in_both_ways(rt, mutex, condvar, first, second) },
        move || -> bool
            requires { IsHandOf waker mutex.now condvar.now }
        { wake_both(rt, mutex, condvar, waker) },
    );
    queued
}

/// Whether a thread that was woken alone did not queue.
fn one_tries<R: Threads + Wait + Clock + Sync>(
    rt: &R,
    mutex: &Mutex<u64>,
    condvar: &PlainCondvar,
    waiter: Hand,
    waker: Hand,
) -> bool
    requires { IsHandOf waiter mutex.now condvar.now × IsHandOf waker mutex.now condvar.now }
{
    let (_, alone) = join(
        rt,
        move || -> Option<u64>
            requires { IsHandOf waiter mutex.now condvar.now }
        { come_and_wait(rt, mutex, condvar, waiter) },
        move || -> bool
            requires { IsHandOf waker mutex.now condvar.now }
        { wake_only(rt, mutex, condvar, waker) },
    );
    alone
}

#[test]
fn threads_that_are_woken_together_queue(rt: HostRuntime) -> Result<(), Fail> {
    let hands = three_paced_hands(rt.alloc(), pace());
    let (mutex, condvar, first, second, third) = hands.ok_or("hands")?;
    let queued = both_queue(&rt, &mutex, &condvar, (first, second), third);
    holds(&rt, "both queue", queued);
    Ok(())
}

#[test]
fn a_thread_that_is_woken_alone_tries(rt: HostRuntime) -> Result<(), Fail> {
    let hands = three_paced_hands(rt.alloc(), pace());
    let (mutex, condvar, first, second, _third) = hands.ok_or("hands")?;
    let alone = one_tries(&rt, &mutex, &condvar, first, second);
    holds(&rt, "it does not queue", alone);
    Ok(())
}
