//! One thread waits, with and without a time limit, and another wakes it, by `wake_one` and by `wake_one_later`.
ghost use Rattle.lfm_plain_test_tools.specs.Hands.{IsHandOf};

use crate::seeing::sees;
use lfm_mutex::Mutex;
use lfm_plain_condvar::{PlainCondvar, Waited};
use lfm_plain_test_tools::calls::{
    lock, number, unlock, wait, wait_for, wake_one, wake_one_later_and_notify, write,
};
use lfm_plain_test_tools::hands::{Hand, three_hands};
use std::process::Abort;
use std::sync::Wait;
use std::test::Fail;
use std::thread::{Threads, join};
use std::time::{Clock, Duration};

/// The time limit of a wait that is woken long before, in seconds.
const LONG: u64 = 50;

/// Writes 1, waits without a limit, writes 2, and waits with one. The mutex is held except while it waits.
fn waits_twice<R: Wait + Clock>(
    rt: &R,
    mutex: &Mutex<u64>,
    condvar: &PlainCondvar,
    mut hand: Hand,
) -> (Hand, Option<u64>, Option<Waited>)
    requires { IsHandOf hand mutex.now condvar.now }
    ensures { IsHandOf result.0 mutex.now condvar.now }
{
    lock(rt, mutex, condvar, &mut hand);
    write(mutex, condvar, &mut hand, 1);
    let ticket = wait(rt, mutex, condvar, &mut hand);
    write(mutex, condvar, &mut hand, 2);
    let waited = wait_for(rt, mutex, condvar, &mut hand, Duration::from_secs(LONG));
    unlock(mutex, condvar, &mut hand);
    (hand, ticket, waited)
}

/// Locks the mutex until it finds this number: the other thread then waits.
fn reach<R: Wait>(rt: &R, mutex: &Mutex<u64>, condvar: &PlainCondvar, hand: &mut Hand, wanted: u64)
    requires { IsHandOf hand.old mutex.now condvar.now }
    ensures { IsHandOf hand.new mutex.now condvar.now }
{
    'reads: for _ in rt.forever() {
        lock(rt, mutex, condvar, hand);
        let found = number(hand);
        unlock(mutex, condvar, hand);
        if found == wanted {
            return;
        }
    }
}

/// Wakes the other thread twice, each time once it waits. Returns the ticket that the first wake took out of the list, and
/// the number of the seat that the second took out.
fn wakes_twice<R: Wait>(
    rt: &R,
    mutex: &Mutex<u64>,
    condvar: &PlainCondvar,
    mut hand: Hand,
) -> (Hand, Option<u64>, Option<u64>)
    requires { IsHandOf hand mutex.now condvar.now }
    ensures { IsHandOf result.0 mutex.now condvar.now }
{
    reach(rt, mutex, condvar, &mut hand, 1);
    let first = wake_one(rt, mutex, condvar, &mut hand);
    reach(rt, mutex, condvar, &mut hand, 2);
    lock(rt, mutex, condvar, &mut hand);
    let second = wake_one_later_and_notify(rt, mutex, condvar, &mut hand);
    (hand, first, second)
}

/// The two threads, and the hands that they give back.
fn run_both<R: Threads + Wait + Clock + Abort + Sync>(
    rt: &R,
    mutex: &Mutex<u64>,
    condvar: &PlainCondvar,
    first: Hand,
    second: Hand,
) -> (Hand, Hand)
    requires { IsHandOf first mutex.now condvar.now × IsHandOf second mutex.now condvar.now }
    ensures { IsHandOf result.0 mutex.now condvar.now × IsHandOf result.1 mutex.now condvar.now }
{
    let (waited, woke) = join(
        rt,
        move || -> (Hand, Option<u64>, Option<Waited>)
            requires { IsHandOf first mutex.now condvar.now }
            ensures { IsHandOf result.0 mutex.entry.now condvar.entry.now }
        { waits_twice(rt, mutex, condvar, first) },
        move || -> (Hand, Option<u64>, Option<u64>)
            requires { IsHandOf second mutex.now condvar.now }
            ensures { IsHandOf result.0 mutex.entry.now condvar.entry.now }
        { wakes_twice(rt, mutex, condvar, second) },
    );
    let (first, ticket, timed) = waited;
    let (second, one, two) = woke;
    sees(rt, "the wait without a limit", &ticket, &Some(1));
    sees(rt, "the wait with a limit", &timed, &Some(Waited::Woken(2)));
    sees(rt, "the first wake", &one, &Some(1));
    sees(rt, "the seat of the second wake", &two, &Some(1));
    (first, second)
}

#[test]
fn a_thread_is_woken_by_another(rt: HostRuntime) -> Result<(), Fail> {
    let (mutex, condvar, first, second, _third) = three_hands(rt.alloc()).ok_or("hands")?;
    let _hands = run_both(&rt, &mutex, &condvar, first, second);
    Ok(())
}
