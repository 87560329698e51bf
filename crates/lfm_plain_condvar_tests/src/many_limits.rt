//! Several threads wait at the same time, each with a time limit, and nobody wakes them: each wait ends after its limit and
//! not before.
ghost use Rattle.lfm_plain_test_tools.specs.Hands.{IsHandOf};

use crate::limits::waited_alone;
use crate::seeing::sees;
use lfm_mutex::Mutex;
use lfm_plain_condvar::{PlainCondvar, WaitCounts, Waited};
use lfm_plain_test_tools::hands::Hand;
use lfm_plain_test_tools::many_hands::{counts_at_close, hands_of};
use lfm_plain_test_tools::tasks::{Task, perform_all};
use std::process::Abort;
use std::sync::Wait;
use std::sync::atomic::{AtomicU64, Ordering};
use std::test::Fail;
use std::time::Clock;

/// How many threads wait.
const THREADS: u64 = 8;

/// How often each of them waits.
const WAITS: u64 = 125;

/// All waits.
const ALL: u64 = 1_000;

/// Whether a wait timed out, not before its limit, and its seat then held at depth 1.
fn timed_out_in_time(waited: Option<Waited>, depth: u32, is_over: bool) -> bool {
    matches!(waited, Some(Waited::TimedOut(_))) && depth == 1 && is_over
}

/// Waits with nobody who wakes.
#[derive(Drop)]
struct WaitsAlone {
    /// How many of them timed out in time.
    in_time: AtomicU64,
}

impl WaitsAlone {
    /// The waits of one thread.
    fn wait_often<R: Wait + Clock>(
        &self,
        rt: &R,
        mutex: &Mutex<u64>,
        condvar: &PlainCondvar,
        mut hand: Hand,
    ) -> Hand
        requires { IsHandOf hand mutex.now condvar.now }
        ensures { IsHandOf result mutex.now condvar.now }
    {
        'waits: for _ in 0..WAITS {
            let (waited, depth, is_over) = waited_alone(rt, mutex, condvar, &mut hand);
            if timed_out_in_time(waited, depth, is_over) {
                self.in_time.fetch_add(1, Ordering::SeqCst);
            }
        }
        hand
    }
}

impl<R: Wait + Clock> Task<R> for WaitsAlone {
    /// The waits of one thread.
    fn perform(&self, rt: &R, mutex: &Mutex<u64>, condvar: &PlainCondvar, hand: Hand) -> Hand {
        self.wait_often(rt, mutex, condvar, hand)
    }
}

/// All waits timed out in time, and the condvar counted them.
fn all_timed_out<R: Abort>(rt: &R, in_time: u64, counts: Option<WaitCounts>) {
    let wanted = WaitCounts {
        added: ALL,
        woken: 0,
        timed_out: ALL,
    };
    sees(rt, "the waits that timed out in time", &in_time, &ALL);
    sees(rt, "the counts", &counts, &Some(wanted));
}

#[test]
fn each_of_a_thousand_waits_ends_after_its_limit(rt: HostRuntime) -> Result<(), Fail> {
    let (mutex, condvar, hands) = hands_of(rt.alloc(), THREADS).ok_or("hands")?;
    let task = WaitsAlone {
        in_time: AtomicU64::new(0),
    };
    let Ok(hands) = perform_all(&rt, &mutex, &condvar, hands, &task) else {
        return Err("memory".into());
    };
    let counts = counts_at_close(rt.alloc(), &mutex, condvar, hands);
    all_timed_out(&rt, task.in_time.load(Ordering::SeqCst), counts);
    Ok(())
}
