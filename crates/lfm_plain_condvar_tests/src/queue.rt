//! A queue with room for one number: one thread fills it and another empties it, each by `wait_while`.
ghost use Rattle.lfm_plain_test_tools.specs.Hands.{IsHandOf};

use crate::seeing::sees;
use lfm_mutex::Mutex;
use lfm_plain_condvar::PlainCondvar;
use lfm_plain_test_tools::calls::{lock, number, unlock, wait_while, wake_one, write};
use lfm_plain_test_tools::hands::{Hand, three_hands};
use std::process::Abort;
use std::sync::Wait;
use std::test::Fail;
use std::thread::{Threads, join};

/// How many numbers pass through the queue.
const PASSES: u64 = 200;

/// The number while the queue is empty.
const EMPTY: u64 = 0;

/// The number while the queue is full.
const FULL: u64 = 1;

/// Waits while the number is this one, then writes it, and wakes the other thread. Returns whether it found the other
/// number.
fn pass<R: Wait>(
    rt: &R,
    mutex: &Mutex<u64>,
    condvar: &PlainCondvar,
    hand: &mut Hand,
    own: u64,
) -> bool
    requires { IsHandOf hand.old mutex.now condvar.now }
    ensures { IsHandOf hand.new mutex.now condvar.now }
{
    lock(rt, mutex, condvar, hand);
    let waited = wait_while(rt, mutex, condvar, hand, own);
    let is_other = number(hand) != own;
    write(mutex, condvar, hand, own);
    unlock(mutex, condvar, hand);
    let _woken = wake_one(rt, mutex, condvar, hand);
    waited && is_other
}

/// Passes many times, and counts how often all was as it should be.
fn pass_all<R: Wait>(
    rt: &R,
    mutex: &Mutex<u64>,
    condvar: &PlainCondvar,
    mut hand: Hand,
    own: u64,
) -> (Hand, u64)
    requires { IsHandOf hand mutex.now condvar.now }
    ensures { IsHandOf result.0 mutex.now condvar.now }
{
    let mut passed = 0u64;
    'passes: for _ in 0..PASSES {
        if pass(rt, mutex, condvar, &mut hand, own) {
            passed = passed.wrapping_add(1);
        }
    }
    (hand, passed)
}

/// One thread fills the queue, and the other empties it. Returns how often each did so.
fn run_both<R: Threads + Wait + Abort + Sync>(
    rt: &R,
    mutex: &Mutex<u64>,
    condvar: &PlainCondvar,
    first: Hand,
    second: Hand,
) -> (u64, u64)
    requires { IsHandOf first mutex.now condvar.now × IsHandOf second mutex.now condvar.now }
{
    let (filled, emptied) = join(
        rt,
        move || -> (Hand, u64)
            requires { IsHandOf first mutex.now condvar.now }
        { pass_all(rt, mutex, condvar, first, FULL) },
        move || -> (Hand, u64)
            requires { IsHandOf second mutex.now condvar.now }
        { pass_all(rt, mutex, condvar, second, EMPTY) },
    );
    (filled.1, emptied.1)
}

#[test]
fn numbers_pass_through_a_queue(rt: HostRuntime) -> Result<(), Fail> {
    let (mutex, condvar, first, second, _third) = three_hands(rt.alloc()).ok_or("hands")?;
    let passed = run_both(&rt, &mutex, &condvar, first, second);
    sees(&rt, "the passes", &passed, &(PASSES, PASSES));
    Ok(())
}
