//! One thread waits with short time limits, and another wakes it at about the same time, again and again. Each wake that
//! finds a waiter ends one wait, which says that it was woken: no wake is lost beside the end of a limit, and none counts
//! twice.
ghost use Rattle.lfm_plain_test_tools.specs.Hands.{IsHandOf};

use crate::seeing::{holds, sees};
use lfm_mutex::Mutex;
use lfm_plain_condvar::{PlainCondvar, WaitCounts, Waited};
use lfm_plain_test_tools::calls::{lock, unlock, wait_for, wake_one};
use lfm_plain_test_tools::hands::Hand;
use lfm_plain_test_tools::many_hands::{counts_at_close, hands_of};
use lfm_plain_test_tools::tasks::{Task, perform_all};
use std::process::Abort;
use std::sync::Wait;
use std::sync::atomic::{AtomicU64, Ordering};
use std::test::Fail;
use std::thread::sleep;
use std::time::{Clock, Duration};

/// How many waits there are, and how many wakes.
const TIMES: u64 = 2_000;

/// How long a wait may last, and how long the other thread sleeps before a wake, in microseconds.
const SHORT: u64 = 60;

/// Waits with limits, beside wakes.
#[derive(Drop)]
struct BesideWakes {
    /// How many waits said that they were woken.
    woken: AtomicU64,
    /// How many said that their time was over.
    timed_out: AtomicU64,
    /// How many wakes found a waiter.
    found: AtomicU64,
}

impl BesideWakes {
    /// Counts how a wait ended.
    fn count(&self, waited: Option<Waited>) {
        match waited {
            Some(Waited::Woken(_)) => {
                self.woken.fetch_add(1, Ordering::SeqCst);
            }
            Some(Waited::TimedOut(_)) => {
                self.timed_out.fetch_add(1, Ordering::SeqCst);
            }
            None => {}
        }
    }

    /// All waits.
    fn wait_often<R: Wait + Clock>(
        &self,
        rt: &R,
        mutex: &Mutex<u64>,
        condvar: &PlainCondvar,
        mut hand: Hand,
    ) -> Hand
        requires { IsHandOf hand mutex.now condvar.now }
        ensures { IsHandOf result mutex.now condvar.now }
    {
        'waits: for _ in 0..TIMES {
            lock(rt, mutex, condvar, &mut hand);
            let waited = wait_for(rt, mutex, condvar, &mut hand, Duration::from_micros(SHORT));
            unlock(mutex, condvar, &mut hand);
            self.count(waited);
        }
        hand
    }

    /// All wakes.
    fn wake_often<R: Wait + Clock>(
        &self,
        rt: &R,
        mutex: &Mutex<u64>,
        condvar: &PlainCondvar,
        mut hand: Hand,
    ) -> Hand
        requires { IsHandOf hand mutex.now condvar.now }
        ensures { IsHandOf result mutex.now condvar.now }
    {
        'wakes: for _ in 0..TIMES {
            sleep(rt, Duration::from_micros(SHORT));
            if wake_one(rt, mutex, condvar, &mut hand).is_some() {
                self.found.fetch_add(1, Ordering::SeqCst);
            }
        }
        hand
    }
}

impl<R: Wait + Clock> Task<R> for BesideWakes {
    /// The thread with seat 1 waits, and the other wakes.
    fn perform(&self, rt: &R, mutex: &Mutex<u64>, condvar: &PlainCondvar, hand: Hand) -> Hand {
        if hand.seat.number().get() == 1 {
            self.wait_often(rt, mutex, condvar, hand)
        } else {
            self.wake_often(rt, mutex, condvar, hand)
        }
    }
}

/// Each wake that found a waiter ended one wait, and the condvar counted the same.
fn none_is_lost<R: Abort>(rt: &R, done: &BesideWakes, counts: Option<WaitCounts>) {
    let woken = done.woken.load(Ordering::SeqCst);
    let timed_out = done.timed_out.load(Ordering::SeqCst);
    let found = done.found.load(Ordering::SeqCst);
    let seen = WaitCounts {
        added: TIMES,
        woken,
        timed_out,
    };
    sees(rt, "the waits that were woken", &woken, &found);
    sees(rt, "the counts", &counts, &Some(seen));
    holds(
        rt,
        "each wait ended",
        woken.wrapping_add(timed_out) == TIMES,
    );
}

#[test]
fn no_wake_is_lost_beside_the_end_of_a_limit(rt: HostRuntime) -> Result<(), Fail> {
    let (mutex, condvar, hands) = hands_of(rt.alloc(), 2).ok_or("hands")?;
    let done = BesideWakes {
        woken: AtomicU64::new(0),
        timed_out: AtomicU64::new(0),
        found: AtomicU64::new(0),
    };
    let Ok(hands) = perform_all(&rt, &mutex, &condvar, hands, &done) else {
        return Err("memory".into());
    };
    let counts = counts_at_close(rt.alloc(), &mutex, condvar, hands);
    none_is_lost(&rt, &done, counts);
    Ok(())
}
