//! `limits`: threads wait on a plain condvar with short time limits, and two further threads wake one of them at a time. In a
//! turn a thread locks, waits once, and unlocks. A wait's limit and a waker's pauses are so short that both ends of a wait are
//! often reached, and now and then at the same time. The wakers go on until the last wait of the tenth has ended.
ghost use Rattle.std.specs.Prelude.{◌+◌, ◌≤◌, All, IfOk};
ghost use Rattle.lfm_plain_test_tools.specs.Hands.{IsHandOf};

use crate::plan::{Plan, WAKERS};
use crate::progress::{TENTHS, Tenth};
use crate::waits::WaitSums;
use lfm_mutex::Mutex;
use lfm_plain_condvar::{PlainCondvar, Waited};
use lfm_plain_test_tools::calls::{lock, lock_barging, unlock, wait_for, wake_one};
use lfm_plain_test_tools::hands::Hand;
use lfm_plain_test_tools::many_hands::{counts_at_close, hands_of};
use lfm_plain_test_tools::tasks::{Task, perform_all};
use lfm_test_tools::locking::Locking;
use std::alloc::AllocError;
use std::io;
use std::sync::Wait;
use std::sync::atomic::{AtomicU64, Ordering};
use std::thread::{Threads, sleep};
use std::time::{Clock, Duration};

/// The limits that the waits of a thread have in turn, in microseconds.
const LIMITS: [u64; 11] = [1, 2, 4, 8, 16, 32, 64, 128, 256, 512, 1_024];

/// How many pauses a waker makes in turn: of 0 microseconds, 1 and so on.
const PAUSES: u64 = 64;

/// The waits of a tenth, and what the threads have counted of them.
#[derive(Drop)]
struct Waits {
    tenth: Tenth,
    /// How the threads acquire the mutex before they wait.
    locking: Locking,
    /// How many threads have not yet made all their waits.
    waiting: AtomicU64,
    /// How many waits were woken.
    woken: AtomicU64,
    /// How many waits timed out.
    timed_out: AtomicU64,
    /// How many wakes took a wait off the list.
    took: AtomicU64,
}

/// Makes the waits of this plan, and prints after each tenth how far it is. It requests memory, starts threads and joins them
/// all. It is an error if a line can't be written, or if there is no memory.
pub fn run<R: Threads + Wait + Sync + Clock + AllocGlobal + Print>(
    rt: &R,
    plan: Plan,
) -> io::Result<WaitSums> {
    let Some((mutex, condvar, hands)) = hands_of(rt.alloc(), plan.seats()) else {
        return Err(AllocError.into());
    };
    let mut sums = WaitSums::new();
    let hands = run_tenths(rt, &mutex, &condvar, plan, hands, &mut sums)?;
    sums.counts = counts_at_close(rt.alloc(), &mutex, condvar, hands);
    Ok(sums)
}

/// All tenths of a run, whose counts are added to the sums.
fn run_tenths<R: Threads + Wait + Sync + Clock + Print>(
    rt: &R,
    mutex: &Mutex<u64>,
    condvar: &PlainCondvar,
    plan: Plan,
    mut hands: Vec<Hand>,
    sums: &mut WaitSums,
) -> io::Result<Vec<Hand>>
    requires { All (λ h. IsHandOf h mutex.now condvar.now) hands.items }
    ensures { IfOk result (λ v. All (λ h. IsHandOf h mutex.now condvar.now) v.items) }
{
    'tenths: for done in 0..TENTHS {
        let waits = Waits::new(plan, done);
        hands = perform_all(rt, mutex, condvar, hands, &waits)?;
        waits.add_to(sums);
        waits.tenth.print(rt, plan)?;
    }
    Ok(hands)
}

impl Waits {
    /// The waits of the tenth after `done` tenths, of which none has begun.
    fn new(plan: Plan, done: u64) -> Waits
        requires { done + 1 ≤ 10 }
    {
        Waits {
            tenth: Tenth::of(plan, done),
            locking: plan.locking(),
            waiting: AtomicU64::new(plan.threads()),
            woken: AtomicU64::new(0),
            timed_out: AtomicU64::new(0),
            took: AtomicU64::new(0),
        }
    }

    /// Adds what the threads have counted to the sums.
    fn add_to(&self, sums: &mut WaitSums) {
        sums.woken = sums.woken.wrapping_add(self.woken.load(Ordering::SeqCst));
        sums.timed_out = sums
            .timed_out
            .wrapping_add(self.timed_out.load(Ordering::SeqCst));
        sums.took = sums.took.wrapping_add(self.took.load(Ordering::SeqCst));
    }

    /// Counts how a wait ended. One that was refused did not.
    fn count(&self, waited: Option<Waited>) {
        match waited {
            Some(Waited::Woken(_)) => {
                self.woken.fetch_add(1, Ordering::SeqCst);
            }
            Some(Waited::TimedOut(_)) => {
                self.timed_out.fetch_add(1, Ordering::SeqCst);
            }
            None => {}
        }
    }

    /// The waits of one thread.
    fn wait_often<R: Wait + Clock>(
        &self,
        rt: &R,
        mutex: &Mutex<u64>,
        condvar: &PlainCondvar,
        mut hand: Hand,
    ) -> Hand
        requires { IsHandOf hand mutex.now condvar.now }
        ensures { IsHandOf result mutex.now condvar.now }
    {
        'waits: for turn in self.tenth.from..self.tenth.to {
            lock_by(rt, mutex, condvar, &mut hand, self.locking);
            let waited = wait_for(rt, mutex, condvar, &mut hand, limit_of(turn));
            unlock(mutex, condvar, &mut hand);
            self.count(waited);
        }
        self.waiting.fetch_sub(1, Ordering::SeqCst);
        hand
    }

    /// The wakes of one thread, until the waits have ended.
    fn wake_often<R: Wait + Clock>(
        &self,
        rt: &R,
        mutex: &Mutex<u64>,
        condvar: &PlainCondvar,
        mut hand: Hand,
    ) -> Hand
        requires { IsHandOf hand mutex.now condvar.now }
        ensures { IsHandOf result mutex.now condvar.now }
    {
        let mut wakes = 0u64;
        'wakes: for _ in rt.forever() {
            if self.waiting.load(Ordering::SeqCst) == 0 {
                return hand;
            }
            if wake_one(rt, mutex, condvar, &mut hand).is_some() {
                self.took.fetch_add(1, Ordering::SeqCst);
            }
            sleep(rt, Duration::from_micros(wakes % PAUSES));
            wakes = wakes.wrapping_add(1);
        }
        unreachable!()
    }
}

/// Locks the mutex in the given way.
fn lock_by<R: Wait>(
    rt: &R,
    mutex: &Mutex<u64>,
    condvar: &PlainCondvar,
    hand: &mut Hand,
    locking: Locking,
)
    requires { IsHandOf hand.old mutex.now condvar.now }
    ensures { IsHandOf hand.new mutex.now condvar.now }
{
    match locking {
        Locking::InOrder => lock(rt, mutex, condvar, hand),
        Locking::Barging => lock_barging(rt, mutex, condvar, hand),
    }
}

/// The limit of a wait in this turn.
fn limit_of(turn: u64) -> Duration {
    Duration::from_micros(LIMITS[(turn % 11) as usize])
}

impl<R: Wait + Clock> Task<R> for Waits {
    /// The threads with the first seats wake, and the others wait.
    fn perform(&self, rt: &R, mutex: &Mutex<u64>, condvar: &PlainCondvar, hand: Hand) -> Hand {
        if hand.seat.number().get() <= WAKERS {
            self.wake_often(rt, mutex, condvar, hand)
        } else {
            self.wait_often(rt, mutex, condvar, hand)
        }
    }
}
