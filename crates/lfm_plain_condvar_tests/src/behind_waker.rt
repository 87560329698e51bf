//! A thread that was woken alone, and none of whose last polls found a wake-up, queues for the mutex while its waker holds. At
//! this pace a thread that only tries never queues while the mutex is held.
ghost use Rattle.lfm_plain_test_tools.specs.Hands.{IsHandOf};

use crate::seeing::{holds, sees};
use crate::woken_together::lock_once_they_wait;
use lfm_mutex::{Mutex, Pace};
use lfm_plain_condvar::PlainCondvar;
use lfm_plain_test_tools::calls::{lock, number, unlock, wait, wake_one, write};
use lfm_plain_test_tools::hands::{Hand, three_paced_hands};
use std::process::Abort;
use std::sync::Wait;
use std::test::Fail;
use std::thread;
use std::thread::{Threads, join};
use std::time::{Clock, Duration};

/// How often the thread waits. After the first few waits it has no credit left.
const WAITS: u64 = 20;

/// How long the waker lets the thread poll and park, and how long it holds after the wake, in milliseconds.
const KEPT: u64 = 20;

/// A pace at which a waiter polls once before it parks, and a thread that calls `lock_barging` naps until the mutex is free.
fn pace() -> Pace {
    Pace::new(1, 0).with_barging(1, u32::MAX)
}

/// Adds 1 to the number, and waits, time after time. Returns how many waits were not refused.
fn wait_often<R: Wait>(rt: &R, mutex: &Mutex<u64>, condvar: &PlainCondvar, mut hand: Hand) -> u64
    requires { IsHandOf hand mutex.now condvar.now }
{
    let mut waited = 0u64;
    lock(rt, mutex, condvar, &mut hand);
    'waits: for _ in 0..WAITS {
        let next = number(&hand).wrapping_add(1);
        write(mutex, condvar, &mut hand, next);
        if wait(rt, mutex, condvar, &mut hand).is_some() {
            waited = waited.wrapping_add(1);
        }
    }
    unlock(mutex, condvar, &mut hand);
    waited
}

/// Wakes the thread at each of its waits, long after it has polled, and holds on for a while. Returns at how many of them the
/// thread queued meanwhile.
fn wake_often<R: Wait + Clock>(
    rt: &R,
    mutex: &Mutex<u64>,
    condvar: &PlainCondvar,
    mut hand: Hand,
) -> u64
    requires { IsHandOf hand mutex.now condvar.now }
{
    let mut queued = 0u64;
    'wakes: for wait in 1..=WAITS {
        lock_once_they_wait(rt, mutex, condvar, &mut hand, wait);
        thread::sleep(rt, Duration::from_millis(KEPT));
        wake_one(rt, mutex, condvar, &mut hand);
        thread::sleep(rt, Duration::from_millis(KEPT));
        if mutex.count() == 2 {
            queued = queued.wrapping_add(1);
        }
        unlock(mutex, condvar, &mut hand);
    }
    queued
}

/// How many waits of the first hand were not refused, and at how many it queued while its waker held.
fn wait_and_wake<R: Threads + Wait + Clock + Sync>(
    rt: &R,
    mutex: &Mutex<u64>,
    condvar: &PlainCondvar,
    waiter: Hand,
    waker: Hand,
) -> (u64, u64)
    requires { IsHandOf waiter mutex.now condvar.now × IsHandOf waker mutex.now condvar.now }
{
    join(
        rt,
        move || -> u64
            requires { IsHandOf waiter mutex.now condvar.now }
        { wait_often(rt, mutex, condvar, waiter) },
        move || -> u64
            requires { IsHandOf waker mutex.now condvar.now }
        { wake_often(rt, mutex, condvar, waker) },
    )
}

#[test]
fn a_thread_whose_polls_fail_queues_behind_its_waker(rt: HostRuntime) -> Result<(), Fail> {
    let hands = three_paced_hands(rt.alloc(), pace());
    let (mutex, condvar, first, second, _third) = hands.ok_or("hands")?;
    let (waited, queued) = wait_and_wake(&rt, &mutex, &condvar, first, second);
    sees(&rt, "waits", &waited, &WAITS);
    holds(&rt, "it queues", queued > 0);
    Ok(())
}
