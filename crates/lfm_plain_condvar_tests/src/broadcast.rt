//! A wake of all: two threads wait, and a third wakes both at once.
ghost use Rattle.lfm_plain_test_tools.specs.Hands.{IsHandOf};

use crate::seeing::sees;
use lfm_mutex::Mutex;
use lfm_plain_condvar::PlainCondvar;
use lfm_plain_test_tools::calls::{lock, number, unlock, wait, wake_all, write};
use lfm_plain_test_tools::hands::{Hand, three_hands};
use std::process::Abort;
use std::sync::Wait;
use std::test::Fail;
use std::thread::{Threads, join};

/// Adds 1 to the number, and waits. Returns the ticket.
pub(crate) fn come_and_wait<R: Wait>(
    rt: &R,
    mutex: &Mutex<u64>,
    condvar: &PlainCondvar,
    mut hand: Hand,
) -> Option<u64>
    requires { IsHandOf hand mutex.now condvar.now }
{
    lock(rt, mutex, condvar, &mut hand);
    let next = number(&hand).wrapping_add(1);
    write(mutex, condvar, &mut hand, next);
    let ticket = wait(rt, mutex, condvar, &mut hand);
    unlock(mutex, condvar, &mut hand);
    ticket
}

/// Locks the mutex until both have come, and wakes all. Returns how many it woke.
fn wake_both<R: Wait>(
    rt: &R,
    mutex: &Mutex<u64>,
    condvar: &PlainCondvar,
    mut hand: Hand,
) -> Option<u64>
    requires { IsHandOf hand mutex.now condvar.now }
{
    'reads: for _ in rt.forever() {
        lock(rt, mutex, condvar, &mut hand);
        let found = number(&hand);
        unlock(mutex, condvar, &mut hand);
        if found == 2 {
            return wake_all(rt, mutex, condvar, &mut hand);
        }
    }
    unreachable!()
}

/// The tickets of two threads that wait at the same time.
fn wait_both<R: Threads + Wait + Sync>(
    rt: &R,
    mutex: &Mutex<u64>,
    condvar: &PlainCondvar,
    first: Hand,
    second: Hand,
) -> (Option<u64>, Option<u64>)
    requires { IsHandOf first mutex.now condvar.now × IsHandOf second mutex.now condvar.now }
{
    join(
        rt,
        move || -> Option<u64>
            requires { IsHandOf first mutex.now condvar.now }
        { come_and_wait(rt, mutex, condvar, first) },
        move || -> Option<u64>
            requires { IsHandOf second mutex.now condvar.now }
        { come_and_wait(rt, mutex, condvar, second) },
    )
}

/// All three threads.
fn run_all<R: Threads + Wait + Sync>(
    rt: &R,
    mutex: &Mutex<u64>,
    condvar: &PlainCondvar,
    waiters: (Hand, Hand),
    waker: Hand,
) -> ((Option<u64>, Option<u64>), Option<u64>)
    requires { IsHandOf waiters.0 mutex.now condvar.now × IsHandOf waiters.1 mutex.now condvar.now × IsHandOf waker mutex.now condvar.now }
{
    let (first, second) = waiters;
    join(
        rt,
        move || -> (Option<u64>, Option<u64>)
            requires { IsHandOf first mutex.now condvar.now × IsHandOf second mutex.now condvar.now }
        { wait_both(rt, mutex, condvar, first, second) },
        move || -> Option<u64>
            requires { IsHandOf waker mutex.now condvar.now }
        { wake_both(rt, mutex, condvar, waker) },
    )
}

/// Both tickets were given, each to one of the threads.
fn has_both(tickets: (Option<u64>, Option<u64>)) -> bool {
    tickets == (Some(1), Some(2)) || tickets == (Some(2), Some(1))
}

/// One wake woke both.
fn woke_both<R: Abort>(rt: &R, tickets: (Option<u64>, Option<u64>), woken: Option<u64>) {
    sees(rt, "the tickets", &has_both(tickets), &true);
    sees(rt, "the number that were woken", &woken, &Some(2));
}

#[test]
fn a_wake_of_all_wakes_both(rt: HostRuntime) -> Result<(), Fail> {
    let (mutex, condvar, first, second, third) = three_hands(rt.alloc()).ok_or("hands")?;
    let (tickets, woken) = run_all(&rt, &mutex, &condvar, (first, second), third);
    woke_both(&rt, tickets, woken);
    Ok(())
}
